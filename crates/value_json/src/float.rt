//! Floats.
ghost use Rattle.std.specs.Prelude.{◌≡◌, ◌<◌, ◌^◌, ◌++◌, OnOk};
ghost use Rattle.std.specs.Float.{binary32, binary64};
ghost use Rattle.line_text.specs.Buffer.{text_of};
ghost use Rattle.value_json.specs.Floats.{float_of, format_of, half};
ghost use Rattle.value_json.specs.Json.{float_json, infinity_text};
ghost use Rattle.value_json.specs.Pieces.{Begins, Puts};

use crate::half::as_single;
use crate::words::put_word;
use cy_bits::NoMemory;
use line_text::TextBuffer;
use ryu::raw::{LEN, format};
use std::num::{f32_from_bits_with_nan, f64_from_bits_with_nan};

/// Puts the float of so many raw bits, of which there are 16, 32 or 64: as a number that reads
/// back as it, or as the string `NaN`, `Infinity` or `-Infinity`. A float16 is put as a float32.
#[tactic(auto, using(crate::proofs::Front::begins))]
pub fn put_float(width: u8, bits: u64, text: &mut TextBuffer) -> Result<(), NoMemory>
    requires { bits < 2 ^ width }
    ensures put { OnOk result (Puts (float_json width (float_of width bits)) text.old text.new) }
    ensures front { Begins (text_of text.old) (text_of text.new) }
{
    if width == 16 {
        put_half(bits, text)
    } else if width == 32 {
        put_single(f32_from_bits_with_nan(bits as u32), width, text)
    } else {
        put_double(f64_from_bits_with_nan(bits), width, text)
    }
}

/// Puts a float16 as a float32.
#[tactic(auto, using(crate::proofs::Front::begins))]
fn put_half(bits: u64, text: &mut TextBuffer) -> Result<(), NoMemory>
    ensures put { OnOk result (Puts (float_json 16 (half bits)) text.old text.new) }
    ensures front { Begins (text_of text.old) (text_of text.new) }
{
    put_single(as_single(bits), 16, text)
}

/// Puts a float32.
#[tactic(auto, using(crate::proofs::Front::begins))]
fn put_single(x: f32, width: u8, text: &mut TextBuffer) -> Result<(), NoMemory>
    requires { format_of width ≡ binary32 }
    ensures put { OnOk result (Puts (float_json width x) text.old text.new) }
    ensures front { Begins (text_of text.old) (text_of text.new) }
{
    let _ = width;
    if x.is_nan() {
        return put_word(b"\"NaN\"", text);
    }
    if !x.is_finite() {
        return put_infinity(x.is_sign_negative(), text);
    }
    text.reserve(LEN)?;
    let mut digits = [0; LEN];
    let len = format(x, &mut digits);
    text.put(&digits, len);
    Ok(())
}

/// Puts a float64.
#[tactic(auto, using(crate::proofs::Front::begins))]
fn put_double(x: f64, width: u8, text: &mut TextBuffer) -> Result<(), NoMemory>
    requires { format_of width ≡ binary64 }
    ensures put { OnOk result (Puts (float_json width x) text.old text.new) }
    ensures front { Begins (text_of text.old) (text_of text.new) }
{
    let _ = width;
    if x.is_nan() {
        return put_word(b"\"NaN\"", text);
    }
    if !x.is_finite() {
        return put_infinity(x.is_sign_negative(), text);
    }
    text.reserve(LEN)?;
    let mut digits = [0; LEN];
    let len = format(x, &mut digits);
    text.put(&digits, len);
    Ok(())
}

/// Puts an infinity.
#[tactic(auto, using(crate::proofs::Front::begins))]
fn put_infinity(negative: bool, text: &mut TextBuffer) -> Result<(), NoMemory>
    ensures text { OnOk result (text_of text.new ≡ text_of text.old ++ infinity_text negative) }
    ensures front { Begins (text_of text.old) (text_of text.new) }
{
    if negative {
        put_word(b"\"-Infinity\"", text)
    } else {
        put_word(b"\"Infinity\"", text)
    }
}
