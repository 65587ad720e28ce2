//! Which values of constants types hold.
ghost use Rattle.std.specs.Prelude.{◌≡◌, ◌≤◌, Some};
ghost use Rattle.const_expr.specs.declared.constant.Const.{out-Const};
ghost use Rattle.dsdl_resolve.specs.Forms.{IsPrimitive};
ghost use Rattle.dsdl_resolve.specs.Rules.{fits, is_half, signed_fits, unsigned_fits};

use crate::primitive::Primitive;
use const_expr::Const;
use cy_ratio::Ratio;

/// The greatest number of a floating-point type of 16 bits.
const MOST_HALF: u128 = 65504;

/// Whether an unsigned integer of so many bits holds a whole number.
fn unsigned_fits(bits: u8, n: i128) -> bool
    requires { bits ≤ 64 }
    ensures { result ≡ unsigned_fits bits (Some n) }
{
    0 <= n && n < 1 << bits
}

/// Whether a signed integer of so many bits holds a whole number.
fn signed_fits(bits: u8, n: i128) -> bool
    requires least { 1 ≤ bits }
    requires most { bits ≤ 64 }
    ensures { result ≡ signed_fits bits (Some n) }
{
    let end = 1 << (bits - 1);
    -end <= n && n < end
}

/// Whether a floating-point type of 16 bits holds a number.
fn is_half(number: Ratio) -> bool
    ensures { result ≡ is_half number.num number.den }
{
    let size = number.num().unsigned_abs();
    let den = number.den() as u128;
    size / MOST_HALF < den || (size / MOST_HALF == den && size % MOST_HALF == 0)
}

/// Whether a type holds the value of a constant.
pub fn fits(primitive: Primitive, value: &Const) -> bool
    requires { IsPrimitive primitive }
    ensures { result ≡ fits primitive (out-Const value.now) }
{
    match (primitive, value) {
        (Primitive::Bool, Const::Truth(_)) => true,
        (Primitive::Uint { bits, .. }, Const::Number(x)) => x.den() == 1
            && unsigned_fits(bits, x.num()),
        (Primitive::Uint { bits, .. }, Const::Str(text)) => bits == 8 && text.as_str().len() == 1,
        (Primitive::Int { bits }, Const::Number(x)) => x.den() == 1 && signed_fits(bits, x.num()),
        (Primitive::Float { bits, .. }, Const::Number(x)) => bits != 16 || is_half(*x),
        _ => false,
    }
}
