//! Bits as values.
ghost use Rattle.std.specs.Prelude.{◌≡◌, ◌+◌, ◌*◌, ◌^◌, ◌%◌, ◌<◌, ◌≤◌, true, OnOk};
ghost use Rattle.dsdl_types.specs.Reach.{reach, reach_fields, reach_variant};
ghost use Rattle.dsdl_types.specs.Reading.{Got, Read, and_then, fields, own, part, row, variant};
ghost use Rattle.dsdl_types.specs.Schemas.{Var, is_aligned, is_delimited, variants};
ghost use Rattle.dsdl_types.specs.Values.{More, Vals};
ghost use Rattle.dsdl_types.specs.Views.{body_of, sch, val, vals};
ghost use Rattle.wire_values.specs.Forms.{type_in, union_of};
ghost use Rattle.wire_values.specs.Reads.{Answers, Goes, IsNear, IsWhole, ReadsField, ReadsItem, StaysNear, StaysWhole, alone, named_read, part_reach, skipped, window_read, with_front};
ghost use Rattle.wire_values.specs.Rules.{HasRules, HaveRules};

use crate::parts::{is_aligned, is_delimited, length_field_bits, padding, tag_bits, variants};
use crate::simple::{read_float, read_signed, read_truth, read_unsigned};
use crate::stop::Stop;
use crate::window::window;
use cy_bits::{BitReader, Boxed, List, TryCopy};
use dsdl_types::{Body, Field, ReadWhy, Schema, Step, Value};
use std::alloc::Global;

/// Reads a type's own bits.
#[cycle(read)]
pub fn read_own(alloc: Global, schema: &Schema, at: &mut BitReader<'_>) -> Result<Value, Stop>
    requires rules { HasRules (sch schema.now) }
    requires whole { IsWhole (is_aligned (sch schema.now)) at.old }
    requires near { IsNear at.old (reach (sch schema.now)) }
    ensures reads { Answers (own (sch schema.now)) val result at.old at.new }
    ensures same { at.new.bytes ≡ at.old.bytes }
    ensures whole { StaysWhole (is_aligned (sch schema.now)) result at.new }
{
    match schema {
        Schema::Bool => Ok(read_truth(at)),
        Schema::Uint { bits, .. } => Ok(read_unsigned(*bits, at)),
        Schema::Int { bits } => Ok(read_signed(*bits, at)),
        Schema::Float { bits, .. } => Ok(read_float(*bits, at)),
        Schema::Void { .. } => Ok(read_unsigned(0, at)),
        Schema::Fixed { item, len } => {
            let values = read_row(alloc, item.get(), *len, at)?;
            Ok(Value::Items(values))
        }
        Schema::Var { item, cap } => read_var(alloc, item.get(), *cap, at),
        Schema::Struct(body) => {
            let values = read_fields(alloc, body, at)?;
            at.align();
            Ok(Value::Struct(values))
        }
        Schema::Union(body) => read_union(alloc, body, at),
    }
}

/// Reads a length field, and so many items.
#[cycle(read)]
fn read_var(alloc: Global, item: &Schema, cap: u32, at: &mut BitReader<'_>) -> Result<Value, Stop>
    requires rules { HasRules (sch item.now) }
    requires few { (1 ≤ cap) × (cap ≤ 2 ^ 20) }
    requires whole { IsWhole (is_aligned (sch item.now)) at.old }
    requires near { IsNear at.old (reach (Var (sch item.now) cap)) }
    ensures reads { Answers (own (Var (sch item.now) cap)) val result at.old at.new }
    ensures same { at.new.bytes ≡ at.old.bytes }
    ensures whole { StaysWhole (is_aligned (sch item.now)) result at.new }
{
    let number = at.take(length_field_bits(u64::from(cap)));
    if number > u64::from(cap) {
        return Err(Stop::here(alloc, ReadWhy::BadLength(number)));
    }
    let values = read_row(alloc, item, number as u32, at)?;
    Ok(Value::Items(values))
}

/// Reads a type as a part of another.
#[cycle(read)]
fn read_part(alloc: Global, schema: &Schema, at: &mut BitReader<'_>) -> Result<Value, Stop>
    requires rules { HasRules (sch schema.now) }
    requires whole { IsWhole (is_aligned (sch schema.now)) at.old }
    requires near { IsNear at.old (part_reach (sch schema.now)) }
    ensures reads { Answers (part (sch schema.now)) val result at.old at.new }
    ensures same { at.new.bytes ≡ at.old.bytes }
    ensures whole { StaysWhole (is_aligned (sch schema.now)) result at.new }
{
    if is_delimited(schema) {
        let count = at.take(32);
        read_window(alloc, schema, count, at)
    } else {
        read_own(alloc, schema, at)
    }
}

/// Reads a delimited type from the window of so many bytes that begins here, and goes behind it.
#[cycle(read)]
fn read_window(
    alloc: Global,
    schema: &Schema,
    count: u64,
    at: &mut BitReader<'_>,
) -> Result<Value, Stop>
    requires rules { HasRules (sch schema.now) }
    requires delimited { is_delimited (sch schema.now) ≡ true }
    requires small { count < 2 ^ 32 }
    requires whole { at.old.place % 8 ≡ 0 }
    requires near { IsNear at.old 0 }
    ensures reads { Answers (window_read (own (sch schema.now)) count) val result at.old at.new }
    ensures same { at.new.bytes ≡ at.old.bytes }
    ensures whole { OnOk result (at.new.place % 8 ≡ 0) }
{
    match window(at.bytes(), at.place(), count) {
        None => Err(Stop::here(alloc, ReadWhy::BadDelimiter(count))),
        Some(bytes) => {
            let mut inner = BitReader::new(bytes);
            let value = read_own(alloc, schema, &mut inner)?;
            at.go(at.place() + 8 * count);
            Ok(value)
        }
    }
}

/// Reads so many items.
#[cycle(read)]
fn read_row(
    alloc: Global,
    item: &Schema,
    count: u32,
    at: &mut BitReader<'_>,
) -> Result<List<Value>, Stop>
    requires rules { HasRules (sch item.now) }
    requires whole { IsWhole (is_aligned (sch item.now)) at.old }
    requires near { IsNear at.old (count * part_reach (sch item.now)) }
    ensures reads { Answers (row (part (sch item.now)) count 0) vals result at.old at.new }
    ensures same { at.new.bytes ≡ at.old.bytes }
    ensures whole { StaysWhole (is_aligned (sch item.now)) result at.new }
{
    let mut values = Vec::new(alloc);
    for index in 0..count {
        read_item(alloc, item, index, at, &mut values)?;
    }
    Ok(List::new(values))
}

/// Reads one item behind others.
#[cycle(read)]
fn read_item(
    alloc: Global,
    item: &Schema,
    index: u32,
    at: &mut BitReader<'_>,
    values: &mut Vec<Value>,
) -> Result<(), Stop>
    requires rules { HasRules (sch item.now) }
    requires whole { IsWhole (is_aligned (sch item.now)) at.old }
    requires near { IsNear at.old (part_reach (sch item.now)) }
    ensures goes { ReadsItem (sch item.now) index result values.old.items at.old values.new.items
        at.new }
    ensures same { at.new.bytes ≡ at.old.bytes }
    ensures whole { StaysWhole (is_aligned (sch item.now)) result at.new }
    ensures near { StaysNear (part_reach (sch item.now)) result at.old at.new }
{
    match read_part(alloc, item, at) {
        Ok(value) => push(values, value),
        Err(stop) => Err(stop.below(Step::Index(index))),
    }
}

/// One more value: what is left to read is the rest.
fn push(values: &mut Vec<Value>, value: Value) -> Result<(), Stop>
    ensures { (r : Read Vals) → Goes result
        (with_front (vals values.old.items) (and_then r (λ vs. Got (More (val value) vs))))
        (with_front (vals values.new.items) r) }
{
    match values.push(value) {
        Ok(()) => Ok(()),
        Err(_) => Err(Stop::NoMemory),
    }
}

/// Reads the fields of a structure.
#[cycle(read)]
fn read_fields(alloc: Global, body: &Body, at: &mut BitReader<'_>) -> Result<List<Value>, Stop>
    requires rules { HaveRules (body_of body.now).0 }
    requires near { IsNear at.old (reach_fields (body_of body.now).0) }
    ensures reads { Answers (fields (body_of body.now).0) vals result at.old at.new }
    ensures same { at.new.bytes ≡ at.old.bytes }
    ensures near { StaysNear (reach_fields (body_of body.now).0) result at.old at.new }
{
    let mut values = Vec::new(alloc);
    for field in body.fields.as_slice() {
        read_field(alloc, field, at, &mut values)?;
    }
    Ok(List::new(values))
}

/// Reads one field behind others.
#[cycle(read)]
fn read_field(
    alloc: Global,
    field: &Field,
    at: &mut BitReader<'_>,
    values: &mut Vec<Value>,
) -> Result<(), Stop>
    requires rules { HaveRules (alone field.now) }
    requires near { IsNear at.old (reach_fields (alone field.now)) }
    ensures goes { ReadsField field.now result values.old.items at.old values.new.items at.new }
    ensures same { at.new.bytes ≡ at.old.bytes }
    ensures near { StaysNear (reach_fields (alone field.now)) result at.old at.new }
{
    match padding(&field.schema) {
        Some(bits) => {
            at.go(at.place() + u64::from(bits));
            Ok(())
        }
        None => {
            go_to_begin(&field.schema, at);
            let value = read_named(alloc, field, at)?;
            push(values, value)
        }
    }
}

/// Goes to the next multiple of 8 bits, where a type begins at one.
fn go_to_begin(schema: &Schema, at: &mut BitReader<'_>)
    ensures place { at.new.place ≡ at.old.place + skipped
        (is_aligned (sch schema.now)) at.old.place }
    ensures same { at.new.bytes ≡ at.old.bytes }
    ensures whole { is_aligned (sch schema.now) ≡ true → at.new.place % 8 ≡ 0 }
{
    if is_aligned(schema) {
        at.align();
    }
}

/// Reads a field or a variant that isn't padding.
#[cycle(read)]
fn read_named(alloc: Global, field: &Field, at: &mut BitReader<'_>) -> Result<Value, Stop>
    requires rules { HasRules (type_in field.now) }
    requires whole { IsWhole (is_aligned (type_in field.now)) at.old }
    requires near { IsNear at.old (part_reach (type_in field.now)) }
    ensures reads { Answers (named_read field.now) val result at.old at.new }
    ensures same { at.new.bytes ≡ at.old.bytes }
    ensures whole { StaysWhole (is_aligned (type_in field.now)) result at.new }
{
    match read_part(alloc, &field.schema, at) {
        Ok(value) => Ok(value),
        Err(stop) => {
            let name = field.name.copy(alloc)?;
            Err(stop.below(Step::Name(name)))
        }
    }
}

/// Reads a tag, and the variant of it.
#[cycle(read)]
fn read_union(alloc: Global, body: &Body, at: &mut BitReader<'_>) -> Result<Value, Stop>
    requires rules { HasRules (union_of body.now) }
    requires whole { at.old.place % 8 ≡ 0 }
    requires near { IsNear at.old (reach (union_of body.now)) }
    ensures reads { Answers (own (union_of body.now)) val result at.old at.new }
    ensures same { at.new.bytes ≡ at.old.bytes }
    ensures whole { OnOk result (at.new.place % 8 ≡ 0) }
{
    let tag = at.take(tag_bits(variants(body)));
    let value = read_variant(alloc, body, tag, at)?;
    at.align();
    Ok(Value::Union {
        tag: tag as u32,
        value: Boxed::new(alloc, value)?,
    })
}

/// Reads the variant of a tag.
#[cycle(read)]
fn read_variant(alloc: Global, body: &Body, tag: u64, at: &mut BitReader<'_>) -> Result<Value, Stop>
    requires rules { HaveRules (body_of body.now).0 }
    requires whole { at.old.place % 8 ≡ 0 }
    requires near { IsNear at.old (reach_variant (body_of body.now).0) }
    ensures reads { Answers (variant (body_of body.now).0 tag tag) val result at.old at.new }
    ensures same { at.new.bytes ≡ at.old.bytes }
    ensures near { StaysNear (reach_variant (body_of body.now).0) result at.old at.new }
    ensures tag { OnOk result (tag < variants (body_of body.now).0) }
{
    let mut left = tag;
    for field in body.fields.as_slice() {
        if !field.schema.is_padding() {
            if left == 0 {
                return read_named(alloc, field, at);
            }
            left -= 1;
        }
    }
    Err(Stop::here(alloc, ReadWhy::BadTag(tag)))
}
