ghost use Rattle.std.specs.Prelude.{◌≡◌, ◌<◌, ◌≤◌, ◌++◌, ◌∷◌, [], decimal, take};

use crate::two_digits::two_digits;

/// A number of at most seven digits and a space in one block, and the length of the two.
#[inline(always)]
pub fn number_word(number: u32) -> ([u8; 8], usize)
    requires { number < 10000000 }
    ensures text { take result.1 result.0 ≡ decimal number ++ 32 ∷ [] }
    ensures few { result.1 ≤ 8 }
{
    let d = two_digits(number % 100);
    if number < 10 {
        return ([d[1], b' ', 0, 0, 0, 0, 0, 0], 2);
    }
    if number < 100 {
        return ([d[0], d[1], b' ', 0, 0, 0, 0, 0], 3);
    }
    let hundreds = number / 100;
    let c = two_digits(hundreds % 100);
    if number < 1_000 {
        return ([c[1], d[0], d[1], b' ', 0, 0, 0, 0], 4);
    }
    if number < 10_000 {
        return ([c[0], c[1], d[0], d[1], b' ', 0, 0, 0], 5);
    }
    let front = number / 10_000;
    let b = two_digits(front % 100);
    if number < 100_000 {
        return ([b[1], c[0], c[1], d[0], d[1], b' ', 0, 0], 6);
    }
    if number < 1_000_000 {
        return ([b[0], b[1], c[0], c[1], d[0], d[1], b' ', 0], 7);
    }
    let a = two_digits(front / 100);
    ([a[1], b[0], b[1], c[0], c[1], d[0], d[1], b' '], 8)
}
