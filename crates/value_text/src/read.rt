//! A value from its text.
ghost use Rattle.std.specs.Prelude.{◌≡◌, ℕ, ◌^◌, ◌<◌, ◌≤◌, ◌++◌, ◌∷◌, ◌==◌, ◌&&◌, not, true, Err, IfOk, List as ListOf, MatchOption, drop, pos};
ghost use Rattle.dsdl_types.specs.Fits.{Fits};
ghost use Rattle.dsdl_types.specs.Names.{AreNamed};
ghost use Rattle.dsdl_types.specs.Rules.{IsSchema};
ghost use Rattle.dsdl_types.specs.Schemas.{variants};
ghost use Rattle.dsdl_types.specs.Values.{Num, Val};
ghost use Rattle.dsdl_types.specs.Views.{body_of, named, sch, type_of, val, vals};
ghost use Rattle.value_text.specs.Ends.{has_end, top};
ghost use Rattle.value_text.specs.Loose.{AreReadable, GivesArray, GivesBytes, GivesEntry, GivesFields, GivesItems, GivesStruct, GivesUnion, GivesValue, GivesVariant, HasNoUnion, HasNoVariant, IsReadable};
ghost use Rattle.value_text.specs.Texts.{is_byte, is_uint8, value_text};
ghost use Rattle.value_text.specs.Words.{hex_digits};
ghost use Rattle.value_text.specs.declared.read.TextError.TheVariants.{Text as NoText};

use crate::parts::is_uint8;
use crate::print_value;
use crate::scan::{has_end, is_named, peek, read_hex, read_number, read_truth, skip, skip_lead};
use cy_bits::{Boxed, List, NoMemory};
use dsdl_types::{Body, Field, Schema, Value, zero_of};
use std::alloc::Global;

/// Why a line gives no value.
#[derive(Clone, Copy, Debug, PartialEq, Eq)]
pub enum TextError {
    /// The line is the text of no value of the schema.
    Text {
        /// The number of the line.
        line: u64,
    },
    /// Want of memory.
    NoMemory,
}

/// The value of a schema of which a line is the text, as `print_value` writes it. The error `Text` says that the line
/// is the text of no value, and holds the line's number.
pub fn read_value(
    alloc: Global,
    schema: &Schema,
    line: &[u8],
    number: u64,
) -> Result<Value, TextError>
    requires { IsSchema (sch schema.now) }
    ensures read { IfOk result
        (λ v. Fits (sch schema.now) (val v) × (value_text (sch schema.now) (val v) ≡ line.now)) }
    ensures refused { (n : ℕ) → result ≡ Err (NoText n) → (n ≡ number)
        × ((v : Val) → Fits (sch schema.now) v → value_text (sch schema.now) v ≡ line.now → ⊥) }
{
    let mut at = 0;
    let Ok(value) = value_at(alloc, schema, line, &mut at) else {
        return Err(TextError::NoMemory);
    };
    let Ok(text) = print_value(alloc, schema, &value) else {
        return Err(TextError::NoMemory);
    };
    if text.as_str().as_bytes() == line {
        Ok(value)
    } else {
        Err(TextError::Text { line: number })
    }
}

/// The value whose text stands at a place of a line; some value of the schema, where no text of one stands there.
#[cycle(read)]
fn value_at(alloc: Global, schema: &Schema, line: &[u8], at: &mut usize) -> Result<Value, NoMemory>
    requires { IsReadable (sch schema.now) }
    ensures { IfOk result (λ v.
        GivesValue (sch schema.now) (drop at.old line.now) (drop at.new line.now) (val v)) }
{
    match schema {
        Schema::Bool => Ok(Value::Bool(read_truth(line, at))),
        Schema::Uint { .. } | Schema::Int { .. } | Schema::Void { .. } => {
            Ok(Value::Num(read_number(line, at)))
        }
        Schema::Float { bits, .. } => {
            skip(line, at, 2);
            Ok(Value::Bits(read_hex(line, at, *bits / 4)))
        }
        Schema::Fixed { item, len } => {
            let items = array_at(alloc, item.get(), *len, true, line, at)?;
            Ok(Value::Items(items))
        }
        Schema::Var { item, cap } => {
            let items = array_at(alloc, item.get(), *cap, false, line, at)?;
            Ok(Value::Items(items))
        }
        Schema::Struct(body) => {
            let fields = struct_at(alloc, body, line, at)?;
            Ok(Value::Struct(fields))
        }
        Schema::Union(body) => match union_at(alloc, body, line, at)? {
            Some(variant) => Ok(variant),
            None => zero_of(alloc, schema),
        },
    }
}

/// The items of an array: exactly `len` of them, or at most.
#[cycle(read)]
fn array_at(
    alloc: Global,
    item: &Schema,
    len: u32,
    exact: bool,
    line: &[u8],
    at: &mut usize,
) -> Result<List<Value>, NoMemory>
    requires { IsReadable (sch item.now) }
    ensures { IfOk result (λ vs.
        GivesArray (sch item.now) exact len (drop at.old line.now) (drop at.new line.now)
        (vals vs)) }
{
    if are_in_hex(item, line, *at) {
        skip(line, at, 1);
        return bytes_at(alloc, len, exact, line, at);
    }
    skip(line, at, 1);
    let items = items_at(alloc, item, len, exact, line, at)?;
    skip(line, at, 1);
    Ok(items)
}

/// Whether the items of an array stand there as hex digits.
fn are_in_hex(item: &Schema, line: &[u8], at: usize) -> bool
    ensures { result ≡ is_uint8 (sch item.now) && (top (drop at line.now) == 35) }
{
    is_uint8(item) && peek(line, at) == b'#'
}

/// Bytes of two hex digits each.
fn bytes_at(
    alloc: Global,
    len: u32,
    exact: bool,
    line: &[u8],
    at: &mut usize,
) -> Result<List<Value>, NoMemory>
    ensures { IfOk result (λ vs.
        GivesBytes exact len (drop at.old line.now) (drop at.new line.now) (vals vs)) }
{
    let mut values = Vec::new(alloc);
    for _ in 0..len {
        if are_all_bytes(exact, line, *at) {
            return Ok(List::new(values));
        }
        values.push(byte_at(line, at))?;
    }
    Ok(List::new(values))
}

/// The number of two hex digits.
fn byte_at(line: &[u8], at: &mut usize) -> Value
    ensures byte { is_byte (val result) ≡ true }
    ensures reads { (n : ℕ) (rest : ListOf ℕ) → n < 256
        → drop at.old line.now ≡ hex_digits 2 n ++ rest → (val result ≡ Num (pos n))
        × (drop at.new line.now ≡ rest) }
{
    Value::Num(i128::from(read_hex(line, at, 2)))
}

/// Whether no more bytes stand there, of an array of any number.
fn are_all_bytes(exact: bool, line: &[u8], at: usize) -> bool
    ensures { result ≡ not exact && has_end (drop at line.now) }
{
    !exact && has_end(line, at)
}

/// Items with a comma and a space between each two.
#[cycle(read)]
fn items_at(
    alloc: Global,
    item: &Schema,
    len: u32,
    exact: bool,
    line: &[u8],
    at: &mut usize,
) -> Result<List<Value>, NoMemory>
    requires { IsReadable (sch item.now) }
    ensures { IfOk result (λ vs.
        GivesItems (sch item.now) exact len (drop at.old line.now) (drop at.new line.now)
        (vals vs)) }
{
    let mut values = Vec::new(alloc);
    for i in 0..len {
        if are_all_items(exact, line, *at) {
            return Ok(List::new(values));
        }
        skip_lead(line, at, i == 0);
        values.push(value_at(alloc, item, line, at)?)?;
    }
    Ok(List::new(values))
}

/// Whether no more items stand there, of an array of any number.
fn are_all_items(exact: bool, line: &[u8], at: usize) -> bool
    ensures { result ≡ not exact && (top (drop at line.now) == 93) }
{
    !exact && peek(line, at) == b']'
}

/// The values of a structure's fields that aren't padding.
#[cycle(read)]
fn struct_at(
    alloc: Global,
    body: &Body,
    line: &[u8],
    at: &mut usize,
) -> Result<List<Value>, NoMemory>
    requires { AreReadable (body_of body.now).0 }
    ensures { IfOk result (λ vs.
        GivesStruct (body_of body.now).0 (drop at.old line.now) (drop at.new line.now) (vals vs)) }
{
    skip(line, at, 1);
    let fields = fields_at(alloc, body, line, at)?;
    skip(line, at, 1);
    Ok(fields)
}

/// Names and values with a comma and a space between each two.
#[cycle(read)]
fn fields_at(
    alloc: Global,
    body: &Body,
    line: &[u8],
    at: &mut usize,
) -> Result<List<Value>, NoMemory>
    requires { AreReadable (body_of body.now).0 }
    ensures { IfOk result (λ vs.
        GivesFields (body_of body.now).0 (drop at.old line.now) (drop at.new line.now) (vals vs)) }
{
    let mut values = Vec::new(alloc);
    for field in body.fields.as_slice() {
        if field.schema.is_padding() {
            continue;
        }
        skip_lead(line, at, values.len() == 0);
        values.push(entry_at(alloc, field, line, at)?)?;
    }
    Ok(List::new(values))
}

/// The value behind a field's name.
#[cycle(read)]
fn entry_at(alloc: Global, field: &Field, line: &[u8], at: &mut usize) -> Result<Value, NoMemory>
    requires { IsReadable (type_of (named field.now).1) }
    ensures { IfOk result (λ v.
        GivesEntry (named field.now).0 (type_of (named field.now).1) (drop at.old line.now)
        (drop at.new line.now) (val v)) }
{
    skip(line, at, field.name.as_str().len());
    skip(line, at, 2);
    value_at(alloc, &field.schema, line, at)
}

/// A union's variant with its tag, where the text of one stands there.
#[cycle(read)]
fn union_at(
    alloc: Global,
    body: &Body,
    line: &[u8],
    at: &mut usize,
) -> Result<Option<Value>, NoMemory>
    requires rules { AreReadable (body_of body.now).0 }
    requires apart { AreNamed (body_of body.now).0 }
    requires tags { variants (body_of body.now).0 ≤ 2 ^ 20 }
    ensures { IfOk result (λ o.
        MatchOption o (HasNoUnion (body_of body.now).0 (drop at.old line.now))
        (λ v. GivesUnion (body_of body.now).0 (drop at.old line.now) (drop at.new line.now)
        (val v))) }
{
    skip(line, at, 1);
    let variant = variant_at(alloc, body, line, at)?;
    skip(line, at, 1);
    Ok(variant)
}

/// The variant whose name stands there.
#[cycle(read)]
fn variant_at(
    alloc: Global,
    body: &Body,
    line: &[u8],
    at: &mut usize,
) -> Result<Option<Value>, NoMemory>
    requires rules { AreReadable (body_of body.now).0 }
    requires apart { AreNamed (body_of body.now).0 }
    requires tags { variants (body_of body.now).0 ≤ 2 ^ 20 }
    ensures { IfOk result (λ o.
        MatchOption o (HasNoVariant (body_of body.now).0 (drop at.old line.now))
        (λ v. GivesVariant (body_of body.now).0 (drop at.old line.now) (drop at.new line.now)
        (val v))) }
{
    let mut tag = 0;
    for field in body.fields.as_slice() {
        if field.schema.is_padding() {
            continue;
        }
        if is_named(line, *at, field.name.as_str().as_bytes()) {
            let value = entry_at(alloc, field, line, at)?;
            let value = Boxed::new(alloc, value)?;
            return Ok(Some(Value::Union { tag, value }));
        }
        tag += 1;
    }
    Ok(None)
}
