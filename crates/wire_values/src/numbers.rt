//! Numbers in the range of a type, as bits.
ghost use Rattle.std.specs.Prelude.{◌≡◌, ◌≤◌, ◌-◌, ◌^◌};
ghost use Rattle.cy_bits.specs.Bits.{bits_of};
ghost use Rattle.dsdl_types.specs.Cast.{cast_int, cast_uint};
ghost use Rattle.dsdl_types.specs.Encoding.{raw};
ghost use Rattle.dsdl_types.specs.Fits.{IsNumber};
ghost use Rattle.dsdl_types.specs.Values.{Num};
ghost use Rattle.dsdl_types.specs.Views.{is_saturated};
ghost use Rattle.wire_values.specs.Numbers.{is_negative, magnitude};

use dsdl_types::Cast;

/// A number whose low bits are those of an unsigned integer of so many bits.
pub fn unsigned_bits(bits: u8, cast: Cast, number: i128) -> u64
    requires few { (1 ≤ bits) × (bits ≤ 64) }
    requires number { IsNumber number }
    ensures { bits_of bits result ≡ bits_of bits (cast_uint bits (is_saturated cast) number) }
{
    let magnitude = magnitude(number);
    match cast {
        Cast::Saturated => {
            if is_negative(number) {
                0
            } else {
                magnitude.min(most_unsigned(bits))
            }
        }
        Cast::Truncated => {
            if is_negative(number) {
                !magnitude
            } else {
                magnitude
            }
        }
    }
}

/// A number whose low bits are those of a signed integer of so many bits, in two's complement.
pub fn signed_bits(bits: u8, number: i128) -> u64
    requires few { (2 ≤ bits) × (bits ≤ 64) }
    requires number { IsNumber number }
    ensures { bits_of bits result ≡ bits_of bits (raw bits (Num (cast_int bits number))) }
{
    let magnitude = magnitude(number).min(most_signed(bits));
    if is_negative(number) {
        !magnitude
    } else {
        magnitude
    }
}

/// Whether a number is below 0.
fn is_negative(number: i128) -> bool
    ensures { result ≡ is_negative number }
{
    number < 0
}

/// n for n and for -(n + 1).
fn magnitude(number: i128) -> u64
    requires { IsNumber number }
    ensures { result ≡ magnitude number }
{
    if number < 0 {
        (-1 - number) as u64
    } else {
        number as u64
    }
}

/// The greatest unsigned integer of so many bits.
fn most_unsigned(bits: u8) -> u64
    requires { (1 ≤ bits) × (bits ≤ 64) }
    ensures { result ≡ 2 ^ bits - 1 }
{
    u64::MAX >> (64 - u32::from(bits))
}

/// The greatest signed integer of so many bits.
fn most_signed(bits: u8) -> u64
    requires { (2 ≤ bits) × (bits ≤ 64) }
    ensures { result ≡ 2 ^ (bits - 1) - 1 }
{
    (1u64 << (u32::from(bits) - 1)) - 1
}
