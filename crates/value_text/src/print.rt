//! A value as its text.
ghost use Rattle.std.specs.Prelude.{◌≡◌, ◌++◌, true, IfOk, OnOk, string_bytes};
ghost use Rattle.dsdl_types.specs.Fits.{Fits, FitFields, FitsVariant, AllOf};
ghost use Rattle.dsdl_types.specs.Views.{body_of, named, sch, type_of, val, vals};
ghost use Rattle.value_text.specs.Words.{entry, in_braces, lead, separated};
ghost use Rattle.value_text.specs.Texts.{array_text, are_bytes, byte_text, field_texts, in_a_row, is_byte, is_uint8, simple_text, texts, value_text, variant_text};

use crate::parts::{fields, inner, is_uint8, items, tag};
use crate::words::{push_hex, push_number, push_str};
use cy_bits::{NoMemory, Text};
use dsdl_types::{Body, Field, Schema, Value};
use std::alloc::Global;

/// The text of a value of a schema. A truth value is `true` or `false`, a number is decimal, and a float is `0x` and
/// all hex digits of its raw bits. An array of 8-bit unsigned integers, whose items all lie in 0 to 255, is `#` and two
/// hex digits for each item, and any other array is `[v, v]`. A structure is `{name: v, name: v}` without its padding,
/// and a union `{name: v}`. Hex is in upper case. The one error is want of memory.
pub fn print_value(alloc: Global, schema: &Schema, value: &Value) -> Result<Text, NoMemory>
    requires { Fits (sch schema.now) (val value.now) }
    ensures { IfOk result (λ t. t ≡ value_text (sch schema.now) (val value.now)) }
{
    let mut text = String::new(alloc);
    push_value(&mut text, schema, value)?;
    Ok(Text::new(text))
}

/// Appends the text of a value.
#[cycle(print)]
fn push_value(text: &mut String, schema: &Schema, value: &Value) -> Result<(), NoMemory>
    requires { Fits (sch schema.now) (val value.now) }
    ensures { OnOk result (string_bytes text.new ≡ string_bytes text.old
        ++ value_text (sch schema.now) (val value.now)) }
{
    match schema {
        Schema::Fixed { item, .. } | Schema::Var { item, .. } => {
            push_array(text, item.get(), items(value))
        }
        Schema::Struct(body) => push_struct(text, body, fields(value)),
        Schema::Union(body) => push_union(text, body, tag(value), inner(value)),
        Schema::Bool => push_simple(text, 1, value),
        Schema::Uint { bits, .. } | Schema::Int { bits } | Schema::Float { bits, .. } => {
            push_simple(text, *bits, value)
        }
        Schema::Void { .. } => push_simple(text, 0, value),
    }
}

/// Appends the text of an array's items.
#[cycle(print)]
fn push_array(text: &mut String, item: &Schema, items: &[Value]) -> Result<(), NoMemory>
    requires { AllOf (λ x. Fits (sch item.now) x) (vals items.now) }
    ensures { OnOk result (string_bytes text.new ≡ string_bytes text.old
        ++ array_text (is_uint8 (sch item.now)) (λ x. value_text (sch item.now) x)
        (vals items.now)) }
{
    if is_uint8(item) && are_bytes(items) {
        push_str(text, "#")?;
        return push_bytes(text, items);
    }
    push_str(text, "[")?;
    push_items(text, item, items)?;
    push_str(text, "]")
}

/// Whether each value is a number from 0 to 255.
fn are_bytes(values: &[Value]) -> bool
    ensures { result ≡ are_bytes (vals values.now) }
{
    for value in values {
        if !is_byte(value) {
            return false;
        }
    }
    true
}

/// Whether a value is a number from 0 to 255.
fn is_byte(value: &Value) -> bool
    ensures { result ≡ is_byte (val value.now) }
{
    match value {
        Value::Num(number) => *number >= 0 && *number < 256,
        _ => false,
    }
}

/// Appends two hex digits for each number.
fn push_bytes(text: &mut String, values: &[Value]) -> Result<(), NoMemory>
    requires { are_bytes (vals values.now) ≡ true }
    ensures { OnOk result (string_bytes text.new ≡ string_bytes text.old
        ++ in_a_row byte_text (vals values.now)) }
{
    for value in values {
        push_byte(text, value)?;
    }
    Ok(())
}

/// Appends two hex digits for a number from 0 to 255.
fn push_byte(text: &mut String, value: &Value) -> Result<(), NoMemory>
    requires { is_byte (val value.now) ≡ true }
    ensures { OnOk result (string_bytes text.new ≡ string_bytes text.old
        ++ byte_text (val value.now)) }
{
    match value {
        Value::Num(number) => push_hex(text, 2, *number as u64),
        _ => Ok(()),
    }
}

/// Appends the texts of items, with a comma and a space between each two.
#[cycle(print)]
fn push_items(text: &mut String, item: &Schema, items: &[Value]) -> Result<(), NoMemory>
    requires { AllOf (λ x. Fits (sch item.now) x) (vals items.now) }
    ensures { OnOk result (string_bytes text.new ≡ string_bytes text.old
        ++ separated (texts (λ x. value_text (sch item.now) x) (vals items.now))) }
{
    for i in 0..items.len() {
        push_lead(text, i == 0)?;
        push_value(text, item, &items[i])?;
    }
    Ok(())
}

/// Appends a comma and a space, but not in front of the first of several texts.
fn push_lead(text: &mut String, first: bool) -> Result<(), NoMemory>
    ensures { OnOk result (string_bytes text.new ≡ string_bytes text.old ++ lead first) }
{
    push_str(text, if first { "" } else { ", " })
}

/// Appends the text of a structure, of the values of its fields that aren't padding.
#[cycle(print)]
fn push_struct(text: &mut String, body: &Body, values: &[Value]) -> Result<(), NoMemory>
    requires { FitFields (body_of body.now).0 (vals values.now) }
    ensures { OnOk result (string_bytes text.new ≡ string_bytes text.old
        ++ in_braces (separated (field_texts (body_of body.now).0 (vals values.now)))) }
{
    push_str(text, "{")?;
    push_fields(text, body, values)?;
    push_str(text, "}")
}

/// Appends the texts of fields, with a comma and a space between each two.
#[cycle(print)]
fn push_fields(text: &mut String, body: &Body, values: &[Value]) -> Result<(), NoMemory>
    requires { FitFields (body_of body.now).0 (vals values.now) }
    ensures { OnOk result (string_bytes text.new ≡ string_bytes text.old
        ++ separated (field_texts (body_of body.now).0 (vals values.now))) }
{
    let mut next = 0;
    for field in body.fields.as_slice() {
        if !field.schema.is_padding() {
            push_lead(text, next == 0)?;
            push_entry(text, field, &values[next])?;
            next += 1;
        }
    }
    Ok(())
}

/// Appends a name and the text of its value.
#[cycle(print)]
fn push_entry(text: &mut String, field: &Field, value: &Value) -> Result<(), NoMemory>
    requires { Fits (type_of (named field.now).1) (val value.now) }
    ensures { OnOk result (string_bytes text.new ≡ string_bytes text.old
        ++ entry (named field.now).0 (value_text (type_of (named field.now).1) (val value.now))) }
{
    push_str(text, field.name.as_str())?;
    push_str(text, ": ")?;
    push_value(text, &field.schema, value)
}

/// Appends the text of a union.
#[cycle(print)]
fn push_union(text: &mut String, body: &Body, tag: u32, value: &Value) -> Result<(), NoMemory>
    requires { FitsVariant (body_of body.now).0 tag (val value.now) }
    ensures { OnOk result (string_bytes text.new ≡ string_bytes text.old
        ++ in_braces (variant_text (body_of body.now).0 tag (val value.now))) }
{
    push_str(text, "{")?;
    push_variant(text, body, tag, value)?;
    push_str(text, "}")
}

/// Appends the name and the text of a variant.
#[cycle(print)]
fn push_variant(text: &mut String, body: &Body, tag: u32, value: &Value) -> Result<(), NoMemory>
    requires { FitsVariant (body_of body.now).0 tag (val value.now) }
    ensures { OnOk result (string_bytes text.new ≡ string_bytes text.old
        ++ variant_text (body_of body.now).0 tag (val value.now)) }
{
    let mut left = tag;
    for field in body.fields.as_slice() {
        if !field.schema.is_padding() {
            if left == 0 {
                return push_entry(text, field, value);
            }
            left -= 1;
        }
    }
    Ok(())
}

/// Appends the text of a value that has no parts, for a type of so many bits.
fn push_simple(text: &mut String, width: u8, value: &Value) -> Result<(), NoMemory>
    ensures { OnOk result (string_bytes text.new ≡ string_bytes text.old
        ++ simple_text width (val value.now)) }
{
    match value {
        Value::Bool(truth) => push_str(text, if *truth { "true" } else { "false" }),
        Value::Num(number) => push_number(text, *number),
        Value::Bits(bits) => {
            push_str(text, "0x")?;
            push_hex(text, width / 4, *bits)
        }
        _ => Ok(()),
    }
}
