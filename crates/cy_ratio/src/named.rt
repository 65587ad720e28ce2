//! The numbers that the rules name, each within i128 or refused.

ghost use Rattle.std.specs.Prelude.{◌≡◌, ◌*◌, ◌^◌, ◌<◌, ◌≤◌, pos, ◌*ℤ◌, ◌+ℤ◌, ◌-ℤ◌, int_div, if◌then◌else◌, Ok, Err};
ghost use Rattle.cy_ratio.specs.Fraction.{named, fits, gcd, signed};
ghost use Rattle.cy_ratio.specs.declared.RatioError.TheVariants.{Range};

use crate::RatioError;

/// The product of two numbers.
pub fn times(n: i128, k: i128) -> Result<i128, RatioError>
    ensures { result ≡ named (n *ℤ k) }
{
    n.checked_mul(k).ok_or(RatioError::Range)
}

/// A number times a denominator.
pub fn scaled(n: i128, k: u128) -> Result<i128, RatioError>
    requires { k < 2 ^ 127 }
    ensures { result ≡ named (n *ℤ pos k) }
{
    times(n, k as i128)
}

/// The sum of two numbers.
pub fn plus(n: i128, k: i128) -> Result<i128, RatioError>
    ensures { result ≡ named (n +ℤ k) }
{
    n.checked_add(k).ok_or(RatioError::Range)
}

/// The difference of two numbers.
pub fn minus(n: i128, k: i128) -> Result<i128, RatioError>
    ensures { result ≡ named (n -ℤ k) }
{
    n.checked_sub(k).ok_or(RatioError::Range)
}

/// A number from its sign and size.
pub fn signed(negative: bool, size: u128) -> Result<i128, RatioError>
    ensures { result ≡ named (signed negative size) }
{
    if size < 1 << 127 {
        let n = size as i128;
        Ok(if negative { -n } else { n })
    } else if negative && size == 1 << 127 {
        Ok(i128::MIN)
    } else {
        Err(RatioError::Range)
    }
}

/// A number by one of its divisors.
pub fn quotient(n: i128, g: u128) -> i128
    requires positive { 0 < g }
    requires small { g < 2 ^ 127 }
    ensures { result ≡ int_div n (pos g) }
{
    n / (g as i128)
}

/// A denominator, which stays below 2^127.
pub fn denominator(n: u128) -> Result<u128, RatioError>
    ensures { result ≡ if fits (pos n) then Ok n else Err Range }
{
    if n < 1 << 127 {
        Ok(n)
    } else {
        Err(RatioError::Range)
    }
}

/// The product of two denominators.
pub fn denominators(n: u128, k: u128) -> Result<u128, RatioError>
    ensures { result ≡ if fits (pos (n * k)) then Ok (n * k) else Err Range }
{
    match n.checked_mul(k) {
        Some(product) => denominator(product),
        None => Err(RatioError::Range),
    }
}

/// The greatest common divisor, by Euclid's algorithm. With 0 it is the other number.
pub fn gcd(a: u128, b: u128) -> u128
    ensures value { result ≡ gcd a b }
    ensures positive { 0 < b → 0 < result }
    ensures at_most { 0 < b → result ≤ b }
{
    let mut x = a;
    let mut y = b;
    while y != 0 {
        let rest = x % y;
        x = y;
        y = rest;
    }
    x
}
