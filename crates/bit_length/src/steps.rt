ghost use Rattle.std.specs.Prelude.{◌≡◌, ℕ, ◌%◌, ◌<◌, IfSome};
ghost use Rattle.bit_length.specs.Members.{lesser_of};

use crate::LONGEST;

/// A common divisor of two numbers, by Euclid's way the greatest; the other number where one is 0.
/// That it divides both is proved, and that it is the greatest isn't: another would cost steps alone.
pub fn common_divisor(a: u64, b: u64) -> u64
    ensures left { a % result ≡ 0 }
    ensures right { b % result ≡ 0 }
    ensures positive { 0 < b → 0 < result }
{
    let mut x = a;
    let mut y = b;
    while y > 0 {
        let rest = x % y;
        x = y;
        y = rest;
    }
    x
}

/// A common multiple of two steps, where it is no greater than the greatest length. It is the least
/// one if their divisor is the greatest, which isn't proved; nor is that `None` comes there alone.
pub fn common_multiple(a: u64, b: u64) -> Option<u64>
    requires left { 0 < a }
    requires right { 0 < b }
    ensures multiple { IfSome result (λ m. m % b ≡ 0) }
    ensures positive { IfSome result (λ m. 0 < m) }
{
    let multiple = (a / common_divisor(a, b)).checked_mul(b)?;
    if multiple == 0 || multiple > LONGEST {
        return None;
    }
    Some(multiple)
}

/// The lesser of two numbers that may be absent.
pub fn lesser(a: Option<u64>, b: Option<u64>) -> Option<u64>
    ensures { result ≡ lesser_of a b }
{
    match (a, b) {
        (Some(x), Some(y)) => Some(x.min(y)),
        (Some(x), None) => Some(x),
        (None, b) => b,
    }
}
