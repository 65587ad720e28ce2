//! Primitive types.
ghost use Rattle.std.specs.Prelude.{◌≡◌, ◌<◌, ◌≤◌, ◌^◌, Bool, pos};
ghost use Rattle.dsdl_types.specs.Schemas.{PBool, PFloat, PInt, PUint, Simple};
ghost use Rattle.dsdl_types.specs.Values.{Num};
ghost use Rattle.dsdl_types.specs.Views.{val};
ghost use Rattle.wire_values.specs.Reads.{IsNear, IsReadAs, signed_of};

use cy_bits::BitReader;
use dsdl_types::Value;

/// Reads a truth value.
pub fn read_truth(at: &mut BitReader<'_>) -> Value
    requires { IsNear at.old 1 }
    ensures reads { IsReadAs (Simple PBool) result at.old at.new }
    ensures same { at.new.bytes ≡ at.old.bytes }
{
    Value::Bool(at.take(1) == 1)
}

/// Reads an unsigned integer.
pub fn read_unsigned(bits: u8, at: &mut BitReader<'_>) -> Value
    requires few { bits ≤ 64 }
    requires near { IsNear at.old bits }
    ensures reads { (cast : Bool) → IsReadAs (Simple (PUint bits cast)) result at.old at.new }
    ensures same { at.new.bytes ≡ at.old.bytes }
{
    unsigned(at.take(u32::from(bits)))
}

/// Reads a signed integer.
pub fn read_signed(bits: u8, at: &mut BitReader<'_>) -> Value
    requires few { (1 ≤ bits) × (bits ≤ 64) }
    requires near { IsNear at.old bits }
    ensures reads { IsReadAs (Simple (PInt bits)) result at.old at.new }
    ensures same { at.new.bytes ≡ at.old.bytes }
{
    signed(at.take(u32::from(bits)), bits)
}

/// Reads the raw bits of a floating-point number.
pub fn read_float(bits: u8, at: &mut BitReader<'_>) -> Value
    requires few { bits ≤ 64 }
    requires near { IsNear at.old bits }
    ensures reads { (cast : Bool) → IsReadAs (Simple (PFloat bits cast)) result at.old at.new }
    ensures same { at.new.bytes ≡ at.old.bytes }
{
    Value::Bits(at.take(u32::from(bits)))
}

/// A number as a value.
fn unsigned(number: u64) -> Value
    ensures { val result ≡ Num (pos number) }
{
    Value::Num(i128::from(number))
}

/// The value of a number in two's complement.
fn signed(number: u64, bits: u8) -> Value
    requires few { (1 ≤ bits) × (bits ≤ 64) }
    requires fits { number < 2 ^ bits }
    ensures { val result ≡ Num (signed_of bits number) }
{
    Value::Num(twos_complement(number, u32::from(bits)))
}

/// The number that so many bits are in two's complement.
fn twos_complement(number: u64, bits: u32) -> i128
    requires few { (1 ≤ bits) × (bits ≤ 64) }
    requires fits { number < 2 ^ bits }
    ensures { result ≡ signed_of bits number }
{
    let half = 1u64 << (bits - 1);
    if number < half {
        i128::from(number)
    } else {
        i128::from(number) - i128::from(half) - i128::from(half)
    }
}
