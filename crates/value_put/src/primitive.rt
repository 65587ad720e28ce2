//! Primitive types (Cyphal Specification, section 3.4.3).
ghost use Rattle.std.specs.Prelude.{◌≡◌, ◌≤◌, ◌<◌, ◌^◌, ◌/◌, ◌++◌, OnOk, decimal};
ghost use Rattle.std.specs.Fmt.{signed_decimal};
ghost use Rattle.dsdl_types.specs.Schemas.{PBool, PFloat, PInt, PUint, Prim, Simple};
ghost use Rattle.dsdl_types.specs.Views.{is_saturated, sch};
ghost use Rattle.line_text.specs.Buffer.{room_of, text_of};
ghost use Rattle.wire_values.specs.Reads.{signed_of};
ghost use Rattle.value_text.specs.Texts.{truth_text};
ghost use Rattle.value_text.specs.Words.{hex_digits};
ghost use Rattle.value_put.specs.Counted.{counted};
ghost use Rattle.value_put.specs.Parts.{own_told};
ghost use Rattle.value_put.specs.Told.{Begins, Puts};

use crate::bits::Bits;
use crate::stop::Stop;
use dsdl_types::{Cast, Schema};
use line_text::TextBuffer;

/// A primitive type.
pub trait Primitive {
    /// The type.
    ghost prim: { Self → Prim };

    /// Puts the text of the type's own bits. There is room for 40 bytes.
    fn put(&self, at: &mut Bits<'_>, text: &mut TextBuffer) -> Result<(), Stop>
        requires room { 40 ≤ room_of text.old }
        ensures told { OnOk result (Puts (own_told (Simple (prim self.now)))
            at.old text.old at.new text.new) }
        ensures same { counted at.new ≡ counted at.old }
        ensures front { Begins (text_of text.old) (text_of text.new) };
}

/// A truth value.
#[derive(Clone, Copy, Drop)]
pub struct Truth;

#[tactic(auto, using(crate::proofs::Front::begins))]
impl Primitive for Truth {
    ghost prim = { λ t. PBool };

    #[inline(always)]
    fn put(&self, at: &mut Bits<'_>, text: &mut TextBuffer) -> Result<(), Stop> {
        let truth = at.take(1)? == 1;
        put_truth(truth, text);
        Ok(())
    }
}

/// Puts a truth value.
#[inline(always)]
fn put_truth(truth: bool, text: &mut TextBuffer)
    requires room { 40 ≤ room_of text.old }
    ensures text { text_of text.new ≡ text_of text.old ++ truth_text truth }
{
    let word = if truth { b"true    " } else { b"false   " };
    text.put(word, if truth { 4 } else { 5 });
}

/// An unsigned integer.
#[derive(Clone, Copy, Drop)]
pub struct Unsigned {
    /// Its bits.
    pub bits: u8,
    /// Saturated or truncated.
    pub cast: Cast,
}

#[tactic(auto, using(crate::proofs::Front::begins))]
impl Primitive for Unsigned {
    ghost prim = { λ u. PUint u.bits (is_saturated u.cast) };

    #[inline(always)]
    fn put(&self, at: &mut Bits<'_>, text: &mut TextBuffer) -> Result<(), Stop> {
        let number = at.take(u32::from(self.bits))?;
        put_unsigned(number, text);
        Ok(())
    }
}

/// Puts a number, of which the commonest have one digit.
#[inline(always)]
fn put_unsigned(number: u64, text: &mut TextBuffer)
    requires room { 40 ≤ room_of text.old }
    ensures text { text_of text.new ≡ text_of text.old ++ decimal number }
{
    if number < 10 {
        text.put(&[b'0' + number as u8], 1);
    } else {
        text.put_number(number);
    }
}

/// A signed integer.
#[derive(Clone, Copy, Drop)]
pub struct Signed {
    /// Its bits.
    pub bits: u8,
}

#[tactic(auto, using(crate::proofs::Front::begins))]
impl Primitive for Signed {
    ghost prim = { λ s. PInt s.bits };

    #[inline(always)]
    fn put(&self, at: &mut Bits<'_>, text: &mut TextBuffer) -> Result<(), Stop> {
        if self.bits < 1 || self.bits > 64 {
            return Err(Stop::GivesUp);
        }
        let number = at.take(u32::from(self.bits))?;
        put_signed(number, self.bits, text);
        Ok(())
    }
}

/// Puts the number that so many bits are in two's complement.
#[inline(always)]
fn put_signed(number: u64, bits: u8, text: &mut TextBuffer)
    requires few { (1 ≤ bits) × (bits ≤ 64) }
    requires fits { number < 2 ^ bits }
    requires room { 40 ≤ room_of text.old }
    ensures text { text_of text.new ≡ text_of text.old
        ++ signed_decimal (signed_of bits number) }
{
    let half = 1u64 << (bits - 1);
    if number < half {
        text.put_number(number);
    } else {
        text.put(b"-", 1);
        text.put_number(half - (number - half));
    }
}

/// A floating-point number, of which the raw bits are told.
#[derive(Clone, Copy, Drop)]
pub struct Float {
    /// Its bits.
    pub bits: u8,
    /// Saturated or truncated.
    pub cast: Cast,
}

#[tactic(auto, using(crate::proofs::Front::begins))]
impl Primitive for Float {
    ghost prim = { λ f. PFloat f.bits (is_saturated f.cast) };

    #[inline(always)]
    fn put(&self, at: &mut Bits<'_>, text: &mut TextBuffer) -> Result<(), Stop> {
        let number = at.take(u32::from(self.bits))?;
        text.put(b"0x", 2);
        put_digits(number, self.bits, text)
    }
}

/// Puts the hex digits of a number of 16, 32 or 64 bits.
#[tactic(auto, using(crate::proofs::Front::begins))]
#[inline(always)]
fn put_digits(number: u64, bits: u8, text: &mut TextBuffer) -> Result<(), Stop>
    requires fits { number < 2 ^ bits }
    requires room { 38 ≤ room_of text.old }
    ensures text { OnOk result (text_of text.new
        ≡ text_of text.old ++ hex_digits (bits / 4) number) }
    ensures front { Begins (text_of text.old) (text_of text.new) }
{
    match bits {
        16 => text.put_hex(&(number as u16).to_be_bytes()),
        32 => text.put_hex(&(number as u32).to_be_bytes()),
        64 => text.put_hex(&number.to_be_bytes()),
        _ => return Err(Stop::GivesUp),
    }
    Ok(())
}

/// Puts the text of a primitive's own bits, and gives up any other type. There is room for 40 bytes.
#[tactic(auto, using(crate::proofs::Front::begins))]
#[inline(always)]
pub fn put_simple(schema: &Schema, at: &mut Bits<'_>, text: &mut TextBuffer) -> Result<(), Stop>
    requires room { 40 ≤ room_of text.old }
    ensures told { OnOk result (Puts (own_told (sch schema.now)) at.old text.old at.new text.new) }
    ensures same { counted at.new ≡ counted at.old }
    ensures front { Begins (text_of text.old) (text_of text.new) }
{
    match schema {
        Schema::Bool => Truth.put(at, text),
        Schema::Uint { bits, cast } => Unsigned {
            bits: *bits,
            cast: *cast,
        }
        .put(at, text),
        Schema::Int { bits } => Signed { bits: *bits }.put(at, text),
        Schema::Float { bits, cast } => Float {
            bits: *bits,
            cast: *cast,
        }
        .put(at, text),
        _ => Err(Stop::GivesUp),
    }
}
