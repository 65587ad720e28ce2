//! The first part of a value that isn't one of its schema.
ghost use Rattle.std.specs.Prelude.{◌≡◌, ◌≤◌, ◌^◌, ℕ, Bool, IfOk, None, length, nat_lt};
ghost use Rattle.dsdl_types.specs.Paths.{step_of};
ghost use Rattle.dsdl_types.specs.Reading.{Index, Name};
ghost use Rattle.dsdl_types.specs.Schemas.{PFloat, PInt, PUint, variants};
ghost use Rattle.dsdl_types.specs.Values.{Parts, count};
ghost use Rattle.dsdl_types.specs.Views.{body_of, named, sch, val, vals};
ghost use Rattle.wire_values.specs.Forms.{struct_of, type_in};
ghost use Rattle.wire_values.specs.Found.{found};
ghost use Rattle.wire_values.specs.Misfits.{below, first_misfit, in_items, is_simple, misfit, misfit_fields, misfit_variant, unless};
ghost use Rattle.wire_values.specs.Rules.{HasRules, HaveRules};

use crate::parts::variants;
use cy_bits::{List, NoMemory, TryCopy};
use dsdl_types::{Body, Field, Schema, Step, Value};
use std::alloc::Global;

/// The steps to the first part, in writing order, that isn't one of the schema, the last first;
/// nothing where all are.
#[cycle(misfit)]
pub fn misfit(alloc: Global, schema: &Schema, value: &Value) -> Result<Option<List<Step>>, NoMemory>
    requires { HasRules (sch schema.now) }
    ensures { IfOk result (λ m. found m ≡ misfit (sch schema.now) (val value.now)) }
{
    match schema {
        Schema::Fixed { item, len } => array_misfit(alloc, item.get(), *len, *len, value),
        Schema::Var { item, cap } => array_misfit(alloc, item.get(), 0, *cap, value),
        Schema::Struct(body) => match value {
            Value::Struct(values) => struct_misfit(alloc, body, values.as_slice()),
            _ => Ok(unless(alloc, false)),
        },
        Schema::Union(body) => match value {
            Value::Union { tag, value } => variant_misfit(alloc, body, *tag, value.get()),
            _ => Ok(unless(alloc, false)),
        },
        Schema::Bool => Ok(unless(alloc, matches!(value, Value::Bool(_)))),
        Schema::Uint { .. } => Ok(unless(alloc, is_number(value))),
        Schema::Int { .. } => Ok(unless(alloc, is_number(value))),
        Schema::Void { .. } => Ok(unless(alloc, is_number(value))),
        Schema::Float { bits, .. } => Ok(unless(alloc, is_raw(*bits, value))),
    }
}

/// The whole, unless a test holds.
fn unless(alloc: Global, test: bool) -> Option<List<Step>>
    ensures { found result ≡ unless test None }
{
    if test { None } else { Some(List::empty(alloc)) }
}

/// In a part, as a path of the whole.
fn below(path: Option<List<Step>>, step: Step) -> Result<Option<List<Step>>, NoMemory>
    ensures { IfOk result (λ m. found m ≡ below (step_of step) (found path)) }
{
    match path {
        None => Ok(None),
        Some(mut steps) => {
            steps.push(step)?;
            Ok(Some(steps))
        }
    }
}

/// Whether a value is a whole number from -2^63 to 2^64 - 1.
fn is_number(value: &Value) -> bool
    ensures unsigned { (w : ℕ) (c : Bool) → result ≡ is_simple (PUint w c) (val value.now) }
    ensures signed { (w : ℕ) → result ≡ is_simple (PInt w) (val value.now) }
{
    match value {
        Value::Num(number) => *number >= -(1 << 63) && *number < 1 << 64,
        _ => false,
    }
}

/// Whether a value is the raw bits of a floating-point number.
fn is_raw(bits: u8, value: &Value) -> bool
    requires { bits ≤ 64 }
    ensures { (c : Bool) → result ≡ is_simple (PFloat bits c) (val value.now) }
{
    match value {
        Value::Bits(raw) => is_below(*raw, bits),
        _ => false,
    }
}

/// Whether a number has at most so many bits.
fn is_below(number: u64, bits: u8) -> bool
    requires { bits ≤ 64 }
    ensures { result ≡ nat_lt number (2 ^ bits) }
{
    bits == 64 || number < 1 << u32::from(bits)
}

/// Of an array with `least` to `most` items.
#[cycle(misfit)]
fn array_misfit(
    alloc: Global,
    item: &Schema,
    least: u32,
    most: u32,
    value: &Value,
) -> Result<Option<List<Step>>, NoMemory>
    requires rules { HasRules (sch item.now) }
    requires few { most ≤ 2 ^ 20 }
    ensures { IfOk result (λ m. found m
        ≡ in_items least most (misfit (sch item.now)) (val value.now)) }
{
    match value {
        Value::Items(items) => {
            let items = items.as_slice();
            if items.len() < least as usize || items.len() > most as usize {
                return Ok(unless(alloc, false));
            }
            items_misfit(alloc, item, items)
        }
        _ => Ok(unless(alloc, false)),
    }
}

/// The path to the first item that doesn't fit.
#[cycle(misfit)]
fn items_misfit(
    alloc: Global,
    item: &Schema,
    items: &[Value],
) -> Result<Option<List<Step>>, NoMemory>
    requires rules { HasRules (sch item.now) }
    requires few { length items.now ≤ 2 ^ 20 }
    ensures { IfOk result (λ m.
        found m ≡ first_misfit (misfit (sch item.now)) 0 (vals items.now)) }
{
    for i in 0..items.len() {
        let here = item_misfit(alloc, item, i as u32, &items[i])?;
        if here.is_some() {
            return Ok(here);
        }
    }
    Ok(None)
}

/// Of one item.
#[cycle(misfit)]
fn item_misfit(
    alloc: Global,
    item: &Schema,
    index: u32,
    value: &Value,
) -> Result<Option<List<Step>>, NoMemory>
    requires { HasRules (sch item.now) }
    ensures { IfOk result (λ m. found m
        ≡ below (Index index) (misfit (sch item.now) (val value.now))) }
{
    below(misfit(alloc, item, value)?, Step::Index(index))
}

/// Of a structure, by the values of its fields.
#[cycle(misfit)]
fn struct_misfit(
    alloc: Global,
    body: &Body,
    values: &[Value],
) -> Result<Option<List<Step>>, NoMemory>
    requires { HaveRules (body_of body.now).0 }
    ensures { IfOk result (λ m.
        found m ≡ misfit (struct_of body.now) (Parts (vals values.now))) }
{
    if values.len() as u64 != variants(body) {
        return Ok(unless(alloc, false));
    }
    fields_misfit(alloc, body, values)
}

/// The path to the first field that doesn't fit.
#[cycle(misfit)]
fn fields_misfit(
    alloc: Global,
    body: &Body,
    values: &[Value],
) -> Result<Option<List<Step>>, NoMemory>
    requires rules { HaveRules (body_of body.now).0 }
    requires whole { count (vals values.now) ≡ variants (body_of body.now).0 }
    ensures { IfOk result (λ m. found m ≡ misfit_fields (body_of body.now).0 (vals values.now)) }
{
    let mut next = 0;
    for field in body.fields.as_slice() {
        if !field.schema.is_padding() {
            let here = named_misfit(alloc, field, &values[next])?;
            if here.is_some() {
                return Ok(here);
            }
            next += 1;
        }
    }
    Ok(None)
}

/// Of a union, by its tag and its variant's value.
#[cycle(misfit)]
fn variant_misfit(
    alloc: Global,
    body: &Body,
    tag: u32,
    value: &Value,
) -> Result<Option<List<Step>>, NoMemory>
    requires { HaveRules (body_of body.now).0 }
    ensures { IfOk result (λ m.
        found m ≡ misfit_variant (body_of body.now).0 tag (val value.now)) }
{
    let mut left = tag;
    for field in body.fields.as_slice() {
        if !field.schema.is_padding() {
            if left == 0 {
                return named_misfit(alloc, field, value);
            }
            left -= 1;
        }
    }
    Ok(unless(alloc, false))
}

/// Of a field or a variant that isn't padding.
#[cycle(misfit)]
fn named_misfit(alloc: Global, field: &Field, value: &Value) -> Result<Option<List<Step>>, NoMemory>
    requires { HasRules (type_in field.now) }
    ensures { IfOk result (λ m. found m
        ≡ below (Name (named field.now).0) (misfit (type_in field.now) (val value.now))) }
{
    let path = misfit(alloc, &field.schema, value)?;
    if path.is_none() {
        return Ok(None);
    }
    let name = field.name.copy(alloc)?;
    below(path, Step::Name(name))
}
