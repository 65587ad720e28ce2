//! Values that have no parts.
ghost use Rattle.std.specs.Prelude.{◌≡◌, ◌++◌, OnOk};
ghost use Rattle.std.specs.Fmt.{decimal, signed_decimal};
ghost use Rattle.dsdl_types.specs.Views.{val};
ghost use Rattle.line_text.specs.Buffer.{text_of};
ghost use Rattle.value_text.specs.Texts.{truth_text};
ghost use Rattle.value_json.specs.Json.{HasRawBits, plain_text, simple_json};
ghost use Rattle.value_json.specs.Pieces.{Begins, Puts};

use crate::float::put_float;
use crate::words::put_word;
use cy_bits::NoMemory;
use dsdl_types::Value;
use itoa::Buffer;
use line_text::TextBuffer;

/// Puts a value that has no parts, of a type of so many bits.
#[tactic(auto, using(crate::proofs::Front::begins))]
pub fn put_simple(width: u8, value: &Value, text: &mut TextBuffer) -> Result<(), NoMemory>
    requires { HasRawBits width (val value.now) }
    ensures put { OnOk result (Puts (simple_json width (val value.now)) text.old text.new) }
    ensures front { Begins (text_of text.old) (text_of text.new) }
{
    match value {
        Value::Bool(_) => put_plain(value, text),
        Value::Num(_) => put_plain(value, text),
        Value::Bits(bits) => put_float(width, *bits, text),
        Value::Items(_) => Ok(()),
        Value::Struct(_) => Ok(()),
        Value::Union { .. } => Ok(()),
    }
}

/// Puts a truth value or a whole number, and nothing of another value.
#[tactic(auto, using(crate::proofs::Front::begins))]
fn put_plain(value: &Value, text: &mut TextBuffer) -> Result<(), NoMemory>
    ensures text { OnOk result (text_of text.new ≡ text_of text.old ++ plain_text (val value.now)) }
    ensures front { Begins (text_of text.old) (text_of text.new) }
{
    match value {
        Value::Bool(truth) => put_truth(*truth, text),
        Value::Num(number) => put_number(*number, text),
        _ => Ok(()),
    }
}

/// Puts a truth value.
#[tactic(auto, using(crate::proofs::Front::begins))]
fn put_truth(truth: bool, text: &mut TextBuffer) -> Result<(), NoMemory>
    ensures text { OnOk result (text_of text.new ≡ text_of text.old ++ truth_text truth) }
    ensures front { Begins (text_of text.old) (text_of text.new) }
{
    put_word(if truth { b"true" } else { b"false" }, text)
}

/// Puts a whole number.
#[tactic(auto, using(crate::proofs::Front::begins))]
fn put_number(number: i128, text: &mut TextBuffer) -> Result<(), NoMemory>
    ensures text { OnOk result (text_of text.new ≡ text_of text.old ++ signed_decimal number) }
    ensures front { Begins (text_of text.old) (text_of text.new) }
{
    match u64::try_from(number) {
        Ok(number) => put_unsigned(number, text),
        Err(_) => {
            let mut buffer = Buffer::new();
            put_word(buffer.format(number).as_bytes(), text)
        }
    }
}

/// Puts a number that isn't negative.
#[tactic(auto, using(crate::proofs::Front::begins))]
fn put_unsigned(number: u64, text: &mut TextBuffer) -> Result<(), NoMemory>
    ensures text { OnOk result (text_of text.new ≡ text_of text.old ++ decimal number) }
    ensures front { Begins (text_of text.old) (text_of text.new) }
{
    text.reserve(24)?;
    text.put_number(number);
    Ok(())
}
