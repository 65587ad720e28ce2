//! Numbers in texts.
ghost use Rattle.std.specs.Prelude.{◌≡◌, ◌<◌, ◌≤◌, ℕ, IfSome};
ghost use Rattle.dsdl_names.specs.Words.{at_most, decimal_from, number_of, number_to};

/// A number above each that is asked for.
const LARGE: u32 = 10_000;

/// The number of decimal digits; one that is large may come as any large number.
fn value_of_digits(digits: &[u8]) -> Option<u32>
    ensures { (most : ℕ) → most < LARGE
        → at_most most result ≡ at_most most (decimal_from 0 digits.now) }
{
    let mut n = 0u32;
    for b in digits {
        if *b < b'0' || *b > b'9' {
            return None;
        }
        n = (n * 10 + (*b - b'0') as u32).min(LARGE);
    }
    Some(n)
}

/// The number of decimal digits without leading zeros; one that is large may come as any large number.
fn decimal(word: &[u8]) -> Option<u32>
    ensures { (most : ℕ) → most < LARGE → at_most most result ≡ at_most most (number_of word.now) }
{
    match word {
        [] => None,
        [b'0', _, ..] => None,
        _ => value_of_digits(word),
    }
}

/// The number of a word, where it is one from 0 to `most`.
pub fn number_to(most: u32, word: &[u8]) -> Option<u32>
    requires { most < LARGE }
    ensures value { result ≡ number_to most word.now }
    ensures bound { IfSome result (λ n. n ≤ most) }
{
    match decimal(word) {
        None => None,
        Some(n) => if n > most { None } else { Some(n) },
    }
}
