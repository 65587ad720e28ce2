ghost use Rattle.std.specs.Prelude.{◌≡◌, ◌<◌, ◌≤◌, decimal, length};

/// The number of decimal digits of a number that has at most eight.
#[inline(always)]
pub fn digit_count(number: u64) -> usize
    requires { number < 100000000 }
    ensures count { result ≡ length (decimal number) }
    ensures few { result ≤ 8 }
{
    if number < 10 {
        1
    } else if number < 100 {
        2
    } else if number < 1_000 {
        3
    } else if number < 10_000 {
        4
    } else if number < 100_000 {
        5
    } else if number < 1_000_000 {
        6
    } else if number < 10_000_000 {
        7
    } else {
        8
    }
}
