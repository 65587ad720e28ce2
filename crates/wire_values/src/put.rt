//! Primitive values, headers and padding, put into a buffer.
ghost use Rattle.std.specs.Prelude.{◌≤◌};
ghost use Rattle.cy_bits.specs.Bits.{bits_of, gap, zeros};
ghost use Rattle.dsdl_types.specs.Encoding.{lead, own_bits};
ghost use Rattle.dsdl_types.specs.Fits.{FitsSimple};
ghost use Rattle.dsdl_types.specs.Schemas.{PBool, PFloat, PInt, PUint, Simple, is_aligned};
ghost use Rattle.dsdl_types.specs.Views.{is_saturated, sch, val};
ghost use Rattle.wire_values.specs.Forms.{float_of, uint_of};
ghost use Rattle.wire_values.specs.Puts.{HasRoomAt, PutsAt};

use crate::numbers::{signed_bits, unsigned_bits};
use crate::parts::is_aligned;
use crate::value::{number, raw_bits, truth};
use cy_bits::BitWriter;
use dsdl_types::{Cast, Schema, Value};

/// Puts the low bits of a number.
pub fn put(out: &mut [u8], to: &mut BitWriter, value: u64, width: u32)
    requires few { width ≤ 64 }
    requires room { HasRoomAt out.old to.old (bits_of width value) }
    ensures { PutsAt out.old to.old out.new to.new (bits_of width value) }
{
    if to.put(out, value, width).is_err() {
        unreachable!();
    }
}

/// Puts zeros up to the next multiple of 8 bits.
pub fn put_padding(out: &mut [u8], to: &mut BitWriter)
    requires { HasRoomAt out.old to.old (zeros (gap to.old.place)) }
    ensures { PutsAt out.old to.old out.new to.new (zeros (gap to.old.place)) }
{
    to.align(out);
}

/// Puts the zeros in front of a type, if it begins at a multiple of 8 bits.
pub fn put_lead(schema: &Schema, out: &mut [u8], to: &mut BitWriter)
    requires { HasRoomAt out.old to.old (lead (is_aligned (sch schema.now)) to.old.place) }
    ensures { PutsAt out.old to.old out.new to.new
        (lead (is_aligned (sch schema.now)) to.old.place) }
{
    if is_aligned(schema) {
        put_padding(out, to);
    }
}

/// Puts a truth value.
pub fn put_truth(value: &Value, out: &mut [u8], to: &mut BitWriter)
    requires fits { FitsSimple PBool (val value.now) }
    requires room { HasRoomAt out.old to.old (own_bits (Simple PBool) (val value.now)) }
    ensures { PutsAt out.old to.old out.new to.new (own_bits (Simple PBool) (val value.now)) }
{
    put(out, to, u64::from(truth(value)), 1);
}

/// Puts an unsigned integer.
pub fn put_unsigned(bits: u8, cast: Cast, value: &Value, out: &mut [u8], to: &mut BitWriter)
    requires few { (1 ≤ bits) × (bits ≤ 64) }
    requires fits { FitsSimple (PUint bits (is_saturated cast)) (val value.now) }
    requires room { HasRoomAt out.old to.old (own_bits (uint_of bits cast) (val value.now)) }
    ensures { PutsAt out.old to.old out.new to.new (own_bits (uint_of bits cast) (val value.now)) }
{
    let bits_value = unsigned_bits(bits, cast, number(value));
    put(out, to, bits_value, u32::from(bits));
}

/// Puts a signed integer.
pub fn put_signed(bits: u8, value: &Value, out: &mut [u8], to: &mut BitWriter)
    requires few { (2 ≤ bits) × (bits ≤ 64) }
    requires fits { FitsSimple (PInt bits) (val value.now) }
    requires room { HasRoomAt out.old to.old (own_bits (Simple (PInt bits)) (val value.now)) }
    ensures { PutsAt out.old to.old out.new to.new (own_bits (Simple (PInt bits)) (val value.now)) }
{
    let bits_value = signed_bits(bits, number(value));
    put(out, to, bits_value, u32::from(bits));
}

/// Puts the raw bits of a floating-point number.
pub fn put_float(bits: u8, cast: Cast, value: &Value, out: &mut [u8], to: &mut BitWriter)
    requires few { (1 ≤ bits) × (bits ≤ 64) }
    requires fits { FitsSimple (PFloat bits (is_saturated cast)) (val value.now) }
    requires room { HasRoomAt out.old to.old (own_bits (float_of bits cast) (val value.now)) }
    ensures { PutsAt out.old to.old out.new to.new (own_bits (float_of bits cast) (val value.now)) }
{
    put(out, to, raw_bits(value), u32::from(bits));
}
