//! Arrays of bytes.
ghost use Rattle.std.specs.Prelude.{◌≡◌, ◌<◌, ◌++◌, ◌∷◌, ◌&&◌, [], OnOk, nat_le, true};
ghost use Rattle.hex.specs.Hex.{encode_upper};
ghost use Rattle.dsdl_types.specs.Views.{val, vals};
ghost use Rattle.line_text.specs.Buffer.{text_of};
ghost use Rattle.value_text.specs.Texts.{are_bytes, is_byte};
ghost use Rattle.value_json.specs.Json.{byte_of, bytes_of};
ghost use Rattle.value_json.specs.Pieces.{Begins};
ghost use Rattle.value_json.specs.Words.{are_printable, bytes_json, bytes_text, escaped};

use crate::words::{put_escaped, put_word};
use cy_bits::NoMemory;
use dsdl_types::Value;
use line_text::TextBuffer;

/// Whether each value is a number from 0 to 255.
pub fn are_bytes(values: &[Value]) -> bool
    ensures { result ≡ are_bytes (vals values.now) }
{
    for value in values {
        if !is_byte(value) {
            return false;
        }
    }
    true
}

/// Whether a value is a number from 0 to 255.
fn is_byte(value: &Value) -> bool
    ensures { result ≡ is_byte (val value.now) }
{
    match value {
        Value::Num(number) => *number >= 0 && *number < 256,
        _ => false,
    }
}

/// The number of a byte.
fn byte_of(value: &Value) -> u8
    requires { is_byte (val value.now) ≡ true }
    ensures { result ≡ byte_of (val value.now) }
{
    match value {
        Value::Num(number) => *number as u8,
        _ => 0,
    }
}

/// Puts an array of bytes as an object of its hex and, where its bytes are 20 to 7E hex, its text.
#[tactic(auto, using(crate::proofs::Front::begins))]
pub fn put_bytes(values: &[Value], text: &mut TextBuffer) -> Result<(), NoMemory>
    requires { are_bytes (vals values.now) ≡ true }
    ensures text { OnOk result (text_of text.new
        ≡ text_of text.old ++ bytes_json (bytes_of (vals values.now))) }
    ensures front { Begins (text_of text.old) (text_of text.new) }
{
    put_word(b"{\"hex\":\"", text)?;
    put_hex(values, text)?;
    put_word(b"\"", text)?;
    put_text(values, text)?;
    put_word(b"}", text)
}

/// Puts two hex digits for each byte.
#[tactic(auto, using(crate::proofs::Front::begins))]
fn put_hex(values: &[Value], text: &mut TextBuffer) -> Result<(), NoMemory>
    requires { are_bytes (vals values.now) ≡ true }
    ensures text { OnOk result (text_of text.new
        ≡ text_of text.old ++ encode_upper (bytes_of (vals values.now))) }
    ensures front { Begins (text_of text.old) (text_of text.new) }
{
    for value in values {
        put_hex_of(byte_of(value), text)?;
    }
    Ok(())
}

/// Puts two hex digits.
#[tactic(auto, using(crate::proofs::Front::begins))]
fn put_hex_of(byte: u8, text: &mut TextBuffer) -> Result<(), NoMemory>
    ensures text { OnOk result (text_of text.new ≡ text_of text.old ++ encode_upper (byte ∷ [])) }
    ensures front { Begins (text_of text.old) (text_of text.new) }
{
    text.reserve(18)?;
    text.put_hex(&[byte]);
    Ok(())
}

/// Puts the text of bytes that are all printable, and nothing of others.
#[tactic(auto, using(crate::proofs::Front::begins))]
fn put_text(values: &[Value], text: &mut TextBuffer) -> Result<(), NoMemory>
    requires { are_bytes (vals values.now) ≡ true }
    ensures text { OnOk result (text_of text.new
        ≡ text_of text.old ++ bytes_text (bytes_of (vals values.now))) }
    ensures front { Begins (text_of text.old) (text_of text.new) }
{
    if !are_printable(values) {
        return Ok(());
    }
    put_word(b",\"text\":\"", text)?;
    put_all_escaped(values, text)?;
    put_word(b"\"", text)
}

/// Whether all bytes are 20 to 7E hex.
fn are_printable(values: &[Value]) -> bool
    requires { are_bytes (vals values.now) ≡ true }
    ensures { result ≡ are_printable (bytes_of (vals values.now)) }
{
    for value in values {
        if !is_printable(byte_of(value)) {
            return false;
        }
    }
    true
}

/// Whether a byte is 20 to 7E hex.
pub fn is_printable(byte: u8) -> bool
    ensures { result ≡ (nat_le 32 byte && nat_le byte 126) }
{
    byte >= 0x20 && byte <= 0x7e
}

/// Puts bytes with `\` in front of `"` and of `\`.
#[tactic(auto, using(crate::proofs::Front::begins))]
fn put_all_escaped(values: &[Value], text: &mut TextBuffer) -> Result<(), NoMemory>
    requires { are_bytes (vals values.now) ≡ true }
    ensures text { OnOk result (text_of text.new
        ≡ text_of text.old ++ escaped (bytes_of (vals values.now))) }
    ensures front { Begins (text_of text.old) (text_of text.new) }
{
    for value in values {
        put_escaped(byte_of(value), text)?;
    }
    Ok(())
}
