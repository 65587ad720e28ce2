//! Structures (Cyphal Specification, section 3.4.5), as objects.
ghost use Rattle.std.specs.Prelude.{◌≡◌, IfOk, OnOk, false, true};
ghost use Rattle.dsdl_types.specs.Schemas.{PUint, Simple};
ghost use Rattle.dsdl_types.specs.Views.{Typed, body_of, is_padding, is_saturated, named};
ghost use Rattle.line_text.specs.Buffer.{text_of};
ghost use Rattle.wire_values.specs.Forms.{struct_of};
ghost use Rattle.value_put.specs.Counted.{counted};
ghost use Rattle.value_put.specs.Told.{Begins};
ghost use Rattle.json_lines.specs.Typed.{PutsField, PutsFields, PutsOwn};

use crate::name::put_name;
use crate::own::put_part;
use crate::primitive::{JsonPrimitive, put_simple};
use dsdl_types::{Body, Cast, Field, Schema};
use line_text::TextBuffer;
use value_put::parts::is_simple;
use value_put::{Bits, Stop, Unsigned, go_to_begin, put_mark};

/// Puts a structure, and goes over the padding behind its fields.
#[tactic(auto, using(value_put::proofs::Front::begins))]
#[cycle(put)]
pub fn put_struct(body: &Body, at: &mut Bits<'_>, text: &mut TextBuffer) -> Result<(), Stop>
    ensures put { OnOk result (PutsOwn (struct_of body.now)
        at.old text.old at.new text.new) }
    ensures same { counted at.new ≡ counted at.old }
    ensures front { Begins (text_of text.old) (text_of text.new) }
{
    put_mark(b'{', text)?;
    put_fields(body, at, text)?;
    at.align()?;
    put_mark(b'}', text)
}

/// Puts the members of a structure.
#[tactic(auto, using(value_put::proofs::Front::begins))]
#[cycle(put)]
#[inline(always)]
fn put_fields(body: &Body, at: &mut Bits<'_>, text: &mut TextBuffer) -> Result<(), Stop>
    ensures put { OnOk result (PutsFields true (body_of body.now).0
        at.old text.old at.new text.new) }
    ensures same { counted at.new ≡ counted at.old }
    ensures front { Begins (text_of text.old) (text_of text.new) }
{
    let mut first = true;
    for field in body.fields.as_slice() {
        first = put_field(field, first, at, text)?;
    }
    Ok(())
}

/// Puts one field, and says whether the next is still the first.
#[tactic(auto, using(value_put::proofs::Front::begins))]
#[cycle(put)]
#[inline(always)]
fn put_field(
    field: &Field,
    first: bool,
    at: &mut Bits<'_>,
    text: &mut TextBuffer,
) -> Result<bool, Stop>
    ensures put { IfOk result (λ next. PutsField field.now first next
        at.old text.old at.new text.new) }
    ensures same { counted at.new ≡ counted at.old }
    ensures front { Begins (text_of text.old) (text_of text.new) }
{
    match &field.schema {
        Schema::Void { bits } => {
            at.skip(u64::from(*bits))?;
            Ok(first)
        }
        Schema::Uint { bits, cast } => {
            put_unsigned_field(field, *bits, *cast, first, at, text)?;
            Ok(false)
        }
        _ => {
            put_named(field, first, at, text)?;
            Ok(false)
        }
    }
}

/// Puts a field that is an unsigned integer.
#[tactic(auto, using(value_put::proofs::Front::begins))]
#[inline(always)]
fn put_unsigned_field(
    field: &Field,
    bits: u8,
    cast: Cast,
    first: bool,
    at: &mut Bits<'_>,
    text: &mut TextBuffer,
) -> Result<(), Stop>
    requires { (named field.now).1 ≡ Typed (Simple (PUint bits (is_saturated cast))) }
    ensures put { OnOk result (PutsField field.now first false at.old text.old at.new text.new) }
    ensures same { counted at.new ≡ counted at.old }
    ensures front { Begins (text_of text.old) (text_of text.new) }
{
    put_name(field, first, text)?;
    Unsigned { bits, cast }.put_json(at, text)
}

/// Puts a field that isn't padding.
#[tactic(auto, using(value_put::proofs::Front::begins))]
#[cycle(put)]
#[inline(always)]
fn put_named(
    field: &Field,
    first: bool,
    at: &mut Bits<'_>,
    text: &mut TextBuffer,
) -> Result<(), Stop>
    requires { is_padding (named field.now).1 ≡ false }
    ensures put { OnOk result (PutsField field.now first false at.old text.old at.new text.new) }
    ensures same { counted at.new ≡ counted at.old }
    ensures front { Begins (text_of text.old) (text_of text.new) }
{
    put_name(field, first, text)?;
    if is_simple(&field.schema) {
        return put_simple(&field.schema, at, text);
    }
    go_to_begin(&field.schema, at)?;
    put_part(&field.schema, at, text)
}
