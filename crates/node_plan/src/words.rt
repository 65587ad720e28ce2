//! Words and numbers.
ghost use Rattle.std.specs.Prelude.{◌≡◌, ◌≤◌, ◌<◌, ◌∷◌, ◌^◌, ◌-◌, [], ℕ, length, MatchOption};
ghost use Rattle.node_plan.specs.Words.{above, below, parts_of, decimal_from, number_of, number_in, ranged, whole_in, IsWithin};

/// What a word is where a number of a range stands.
#[derive(Clone, Copy, Debug, PartialEq, Eq)]
pub enum Number {
    /// It isn't decimal digits without leading zeros.
    NoNumber,
    /// A number outside the range.
    Outside,
    /// A number of the range.
    Within(u32),
}

/// What a word is where a whole number from -2^63 to 2^64 - 1 stands.
#[derive(Clone, Copy, Debug, PartialEq, Eq)]
pub enum Whole {
    /// It isn't decimal digits without leading zeros, with or without a `-` in front.
    NoNumber,
    /// A number outside the range.
    Outside,
    /// A number of the range.
    Within(i128),
}

/// A number above each range.
pub const LARGE: u128 = 100_000_000_000_000_000_000;

/// What stands before the first byte `b`, and behind it.
pub fn cut(b: u8, text: &[u8]) -> Option<(&[u8], &[u8])>
    ensures parts { MatchOption result (parts_of b text.now ≡ text.now ∷ [])
        (λ p. parts_of b text.now ≡ p.0.now ∷ parts_of b p.1.now) }
    ensures shorter { MatchOption result (0 ≤ length text.now)
        (λ p. length p.1.now < length text.now) }
{
    for i in 0..text.len() {
        if text[i] == b {
            return Some((&text[..i], &text[i + 1..]));
        }
    }
    None
}

/// The number of decimal digits; one that is large may come as any large number.
fn value_of_digits(digits: &[u8]) -> Option<u128>
    ensures { (low high : ℕ) → high < LARGE
        → ranged low high result ≡ ranged low high (decimal_from 0 digits.now) }
{
    let mut n = 0u128;
    for b in digits {
        if *b < b'0' || *b > b'9' {
            return None;
        }
        n = (n * 10 + (*b - b'0') as u128).min(LARGE);
    }
    Some(n)
}

/// The number of decimal digits without leading zeros; one that is large may come as any large
/// number.
fn decimal(word: &[u8]) -> Option<u128>
    ensures { (low high : ℕ) → high < LARGE
        → ranged low high result ≡ ranged low high (number_of word.now) }
{
    match word {
        [] => None,
        [b'0', _, ..] => None,
        _ => value_of_digits(word),
    }
}

/// What a word is where a number from `low` to `high` stands.
pub fn number_in(low: u32, high: u32, word: &[u8]) -> Number
    ensures value { result ≡ number_in low high word.now }
    ensures within { IsWithin low high result }
{
    match decimal(word) {
        None => Number::NoNumber,
        Some(n) => {
            if n < low as u128 || n > high as u128 {
                Number::Outside
            } else {
                Number::Within(n as u32)
            }
        }
    }
}

/// A number with a `-` in front: at most 2^63.
fn below(number: Option<u128>) -> Whole
    ensures { result ≡ below (ranged 0 (2 ^ 63) number) }
{
    match number {
        None => Whole::NoNumber,
        Some(n) => {
            if n > 1 << 63 {
                Whole::Outside
            } else {
                Whole::Within(-(n as i128))
            }
        }
    }
}

/// A number without a `-`: below 2^64.
fn above(number: Option<u128>) -> Whole
    ensures { result ≡ above (ranged 0 (2 ^ 64 - 1) number) }
{
    match number {
        None => Whole::NoNumber,
        Some(n) => {
            if n > u64::MAX as u128 {
                Whole::Outside
            } else {
                Whole::Within(n as i128)
            }
        }
    }
}

/// What a word is where a whole number from -2^63 to 2^64 - 1 stands.
pub fn whole_in(word: &[u8]) -> Whole
    ensures { result ≡ whole_in word.now }
{
    match word {
        [] => Whole::NoNumber,
        [b'-', ..] => below(decimal(&word[1..])),
        _ => above(decimal(word)),
    }
}
