//! A value as its JSON text.
ghost use Rattle.std.specs.Prelude.{◌≡◌, OnErr, OnOk};
ghost use Rattle.dsdl_types.specs.Fits.{AllOf, FitFields, Fits, FitsVariant};
ghost use Rattle.dsdl_types.specs.Views.{body_of, named, sch, type_of, val, vals};
ghost use Rattle.line_text.specs.Buffer.{text_of};
ghost use Rattle.value_text.specs.Texts.{is_uint8};
ghost use Rattle.value_json.specs.Json.{array_json, field_members, json_of, texts, variant_member};
ghost use Rattle.value_json.specs.Pieces.{Begins, Puts};
ghost use Rattle.value_json.specs.Words.{in_braces, member, separated};

use crate::byte_array::{are_bytes, put_bytes};
use crate::simple::put_simple;
use crate::words::{put_lead, put_name, put_word};
use cy_bits::NoMemory;
use dsdl_types::{Body, Field, Schema, Value};
use line_text::TextBuffer;
use value_text::parts::{fields, inner, is_uint8, items, tag};

/// Appends the JSON text of a value of a schema. A truth value is `true` or `false`, a whole
/// number is decimal, and a float is a number that reads back as it, or the string `NaN`,
/// `Infinity` or `-Infinity`. An array of 8-bit unsigned integers, whose items all lie in 0 to
/// 255, is an object of their hex and, where they are printable ASCII, their text; any other
/// array is an array. A structure is an object of its fields without its padding, and a union one
/// of its variant. The one error is want of memory, which leaves the text as it was.
pub fn put_value(text: &mut TextBuffer, schema: &Schema, value: &Value) -> Result<(), NoMemory>
    requires { Fits (sch schema.now) (val value.now) }
    ensures ok { OnOk result
        (Puts (json_of (sch schema.now) (val value.now)) text.old text.new) }
    ensures err { OnErr result (text_of text.new ≡ text_of text.old) }
{
    let len = text.len();
    let put = put_any(schema, value, text);
    if put.is_err() {
        text.cut(len);
    }
    put
}

/// Puts a value. Where it fails, the text begins as it was.
#[tactic(auto, using(crate::proofs::Front::begins))]
#[cycle(json)]
fn put_any(schema: &Schema, value: &Value, text: &mut TextBuffer) -> Result<(), NoMemory>
    requires { Fits (sch schema.now) (val value.now) }
    ensures put { OnOk result
        (Puts (json_of (sch schema.now) (val value.now)) text.old text.new) }
    ensures front { Begins (text_of text.old) (text_of text.new) }
{
    match schema {
        Schema::Fixed { item, .. } | Schema::Var { item, .. } => {
            put_array(item.get(), items(value), text)
        }
        Schema::Struct(body) => put_struct(body, fields(value), text),
        Schema::Union(body) => put_union(body, tag(value), inner(value), text),
        Schema::Bool => put_simple(1, value, text),
        Schema::Uint { bits, .. } | Schema::Int { bits } | Schema::Float { bits, .. } => {
            put_simple(*bits, value, text)
        }
        Schema::Void { .. } => put_simple(0, value, text),
    }
}

/// Puts the items of an array.
#[tactic(auto, using(crate::proofs::Front::begins))]
#[cycle(json)]
fn put_array(item: &Schema, items: &[Value], text: &mut TextBuffer) -> Result<(), NoMemory>
    requires { AllOf (λ x. Fits (sch item.now) x) (vals items.now) }
    ensures put { OnOk result
        (Puts (array_json (is_uint8 (sch item.now)) (λ x. json_of (sch item.now) x)
        (vals items.now)) text.old text.new) }
    ensures front { Begins (text_of text.old) (text_of text.new) }
{
    if is_uint8(item) && are_bytes(items) {
        return put_bytes(items, text);
    }
    put_word(b"[", text)?;
    put_items(item, items, text)?;
    put_word(b"]", text)
}

/// Puts items with a comma between each two.
#[tactic(auto, using(crate::proofs::Front::begins))]
#[cycle(json)]
fn put_items(item: &Schema, items: &[Value], text: &mut TextBuffer) -> Result<(), NoMemory>
    requires { AllOf (λ x. Fits (sch item.now) x) (vals items.now) }
    ensures put { OnOk result
        (Puts (separated (texts (λ x. json_of (sch item.now) x) (vals items.now)))
        text.old text.new) }
    ensures front { Begins (text_of text.old) (text_of text.new) }
{
    for i in 0..items.len() {
        put_lead(i == 0, text)?;
        put_any(item, &items[i], text)?;
    }
    Ok(())
}

/// Puts a structure of the values of its fields that aren't padding.
#[tactic(auto, using(crate::proofs::Front::begins))]
#[cycle(json)]
fn put_struct(body: &Body, values: &[Value], text: &mut TextBuffer) -> Result<(), NoMemory>
    requires { FitFields (body_of body.now).0 (vals values.now) }
    ensures put { OnOk result
        (Puts (in_braces (separated (field_members (body_of body.now).0 (vals values.now))))
        text.old text.new) }
    ensures front { Begins (text_of text.old) (text_of text.new) }
{
    put_word(b"{", text)?;
    put_fields(body, values, text)?;
    put_word(b"}", text)
}

/// Puts the members of a structure with a comma between each two.
#[tactic(auto, using(crate::proofs::Front::begins))]
#[cycle(json)]
fn put_fields(body: &Body, values: &[Value], text: &mut TextBuffer) -> Result<(), NoMemory>
    requires { FitFields (body_of body.now).0 (vals values.now) }
    ensures put { OnOk result
        (Puts (separated (field_members (body_of body.now).0 (vals values.now)))
        text.old text.new) }
    ensures front { Begins (text_of text.old) (text_of text.new) }
{
    let mut next = 0;
    for field in body.fields.as_slice() {
        if field.schema.is_padding() {
            continue;
        }
        put_lead(next == 0, text)?;
        put_member(field, &values[next], text)?;
        next += 1;
    }
    Ok(())
}

/// Puts a field's name and its value.
#[tactic(auto, using(crate::proofs::Front::begins))]
#[cycle(json)]
fn put_member(field: &Field, value: &Value, text: &mut TextBuffer) -> Result<(), NoMemory>
    requires { Fits (type_of (named field.now).1) (val value.now) }
    ensures put { OnOk result
        (Puts (member (named field.now).0 (json_of (type_of (named field.now).1) (val value.now)))
        text.old text.new) }
    ensures front { Begins (text_of text.old) (text_of text.new) }
{
    put_name(field, text)?;
    put_any(&field.schema, value, text)
}

/// Puts a union.
#[tactic(auto, using(crate::proofs::Front::begins))]
#[cycle(json)]
fn put_union(body: &Body, tag: u32, value: &Value, text: &mut TextBuffer) -> Result<(), NoMemory>
    requires { FitsVariant (body_of body.now).0 tag (val value.now) }
    ensures put { OnOk result
        (Puts (in_braces (variant_member (body_of body.now).0 tag (val value.now)))
        text.old text.new) }
    ensures front { Begins (text_of text.old) (text_of text.new) }
{
    put_word(b"{", text)?;
    put_variant(body, tag, value, text)?;
    put_word(b"}", text)
}

/// Puts the variant of a tag.
#[tactic(auto, using(crate::proofs::Front::begins))]
#[cycle(json)]
fn put_variant(body: &Body, tag: u32, value: &Value, text: &mut TextBuffer) -> Result<(), NoMemory>
    requires { FitsVariant (body_of body.now).0 tag (val value.now) }
    ensures put { OnOk result
        (Puts (variant_member (body_of body.now).0 tag (val value.now)) text.old text.new) }
    ensures front { Begins (text_of text.old) (text_of text.new) }
{
    let mut left = tag;
    for field in body.fields.as_slice() {
        if !field.schema.is_padding() {
            if left == 0 {
                return put_member(field, value, text);
            }
            left -= 1;
        }
    }
    Ok(())
}
