//! How two fractions compare, exactly and in 128 bits.

ghost use Rattle.std.specs.Prelude.{◌≡◌, ◌*◌, ◌^◌, ◌<◌, pos, ◌*ℤ◌};
ghost use Rattle.std.specs.Ordering.{nat_cmp, int_cmp};

use std::cmp::Ordering;

/// How a/b and c/d compare, for b and d above 0.
///
/// Where the whole parts are equal, the rests decide, and r/b against s/d is d/s against b/r.
pub fn compare_sizes(a: u128, b: u128, c: u128, d: u128) -> Ordering
    requires { (0 < b) × (0 < d) }
    ensures { result ≡ nat_cmp (a * d) (c * b) }
{
    let mut x = (a, b);
    let mut y = (c, d);
    loop {
        let whole = x.0 / x.1;
        let other = y.0 / y.1;
        if whole != other {
            return whole.cmp(&other);
        }
        let left = x.0 % x.1;
        let right = y.0 % y.1;
        if left == 0 || right == 0 {
            return left.cmp(&right);
        }
        let next = (y.1, right);
        y = (x.1, left);
        x = next;
    }
}

/// How two fractions compare, for denominators above 0.
pub fn compare(a: i128, b: u128, c: i128, d: u128) -> Ordering
    requires { (0 < b) × (0 < d) }
    ensures { result ≡ int_cmp (a *ℤ pos d) (c *ℤ pos b) }
{
    // Fractions of one denominator compare as their numerators.
    if b == d {
        return a.cmp(&c);
    }
    if a < 0 {
        if c < 0 {
            compare_sizes(c.unsigned_abs(), d, a.unsigned_abs(), b)
        } else {
            Ordering::Less
        }
    } else if c < 0 {
        Ordering::Greater
    } else {
        compare_sizes(a.unsigned_abs(), b, c.unsigned_abs(), d)
    }
}
