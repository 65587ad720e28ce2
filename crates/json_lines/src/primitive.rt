//! Primitive types (Cyphal Specification, section 3.4.3).
ghost use Rattle.std.specs.Prelude.{◌≡◌, ◌≤◌, OnOk};
ghost use Rattle.dsdl_types.specs.Schemas.{PBool, PFloat, PInt, PUint, Prim, Simple};
ghost use Rattle.dsdl_types.specs.Views.{is_saturated, sch};
ghost use Rattle.line_text.specs.Buffer.{room_of, text_of};
ghost use Rattle.value_put.specs.Counted.{counted};
ghost use Rattle.value_put.specs.Told.{Begins};
ghost use Rattle.json_lines.specs.Typed.{PutsOwn};

use dsdl_types::{Cast, Schema};
use line_text::TextBuffer;
use value_json::put_float;
use value_put::{Bits, Primitive, Signed, Stop, Truth, Unsigned};

/// A primitive type whose JSON text can be put.
pub trait JsonPrimitive {
    /// The type.
    ghost kind: { Self → Prim };

    /// Puts the JSON text of the type's own bits. There is room for 40 bytes.
    fn put_json(&self, at: &mut Bits<'_>, text: &mut TextBuffer) -> Result<(), Stop>
        requires room { 40 ≤ room_of text.old }
        ensures put { OnOk result (PutsOwn (Simple (kind self.now))
            at.old text.old at.new text.new) }
        ensures same { counted at.new ≡ counted at.old }
        ensures front { Begins (text_of text.old) (text_of text.new) };
}

impl JsonPrimitive for Truth {
    ghost kind = { λ t. PBool };

    #[inline(always)]
    fn put_json(&self, at: &mut Bits<'_>, text: &mut TextBuffer) -> Result<(), Stop> {
        self.put(at, text)
    }
}

impl JsonPrimitive for Unsigned {
    ghost kind = { λ u. PUint u.bits (is_saturated u.cast) };

    #[inline(always)]
    fn put_json(&self, at: &mut Bits<'_>, text: &mut TextBuffer) -> Result<(), Stop> {
        self.put(at, text)
    }
}

impl JsonPrimitive for Signed {
    ghost kind = { λ s. PInt s.bits };

    #[inline(always)]
    fn put_json(&self, at: &mut Bits<'_>, text: &mut TextBuffer) -> Result<(), Stop> {
        self.put(at, text)
    }
}

/// A floating-point number, which is put as a number that reads back as it.
#[derive(Clone, Copy, Drop)]
pub struct FloatNumber {
    /// Its bits.
    pub bits: u8,
    /// Saturated or truncated.
    pub cast: Cast,
}

#[tactic(auto, using(value_put::proofs::Front::begins))]
impl JsonPrimitive for FloatNumber {
    ghost kind = { λ f. PFloat f.bits (is_saturated f.cast) };

    #[inline(always)]
    fn put_json(&self, at: &mut Bits<'_>, text: &mut TextBuffer) -> Result<(), Stop> {
        let number = at.take(u32::from(self.bits))?;
        put_float(self.bits, number, text)?;
        Ok(())
    }
}

/// Puts the JSON text of a primitive's own bits, and gives up any other type. There is room for 40
/// bytes.
#[tactic(auto, using(value_put::proofs::Front::begins))]
#[inline(always)]
pub fn put_simple(schema: &Schema, at: &mut Bits<'_>, text: &mut TextBuffer) -> Result<(), Stop>
    requires room { 40 ≤ room_of text.old }
    ensures put { OnOk result (PutsOwn (sch schema.now) at.old text.old at.new text.new) }
    ensures same { counted at.new ≡ counted at.old }
    ensures front { Begins (text_of text.old) (text_of text.new) }
{
    match schema {
        Schema::Bool => Truth.put_json(at, text),
        Schema::Uint { bits, cast } => Unsigned {
            bits: *bits,
            cast: *cast,
        }
        .put_json(at, text),
        Schema::Int { bits } => Signed { bits: *bits }.put_json(at, text),
        Schema::Float { bits, cast } => FloatNumber {
            bits: *bits,
            cast: *cast,
        }
        .put_json(at, text),
        _ => Err(Stop::GivesUp),
    }
}
