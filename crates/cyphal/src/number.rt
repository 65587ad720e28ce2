//! The number of a word.
ghost use Rattle.std.specs.Prelude.{◌≡◌, ◌<◌, ◌≤◌, ℕ, IfSome, option_map};
ghost use Rattle.dsdl_names.specs.Words.{at_most, decimal_from, number_of, number_to};
ghost use Rattle.cyphal.specs.Words.{number_given, node_given, window_given};

use crate::node_id::NodeId;

/// A number above each that a word may be.
const LARGE: u64 = 10_000_000_000;

/// The number of a word of decimal digits without leading zeros, where it is below 2^32.
pub fn number_of(word: &[u8]) -> Option<u32>
    ensures { result ≡ number_given word.now }
{
    number_to(word, 4_294_967_295)
}

/// The window of such a word, in microseconds, where it is at most a minute.
pub fn window_of(word: &[u8]) -> Option<u32>
    ensures { result ≡ window_given word.now }
{
    number_to(word, 60_000_000)
}

/// The node-ID of such a word, where it is at most 127.
pub fn node_of(word: &[u8]) -> Option<NodeId>
    ensures { option_map (λ node. node.number) result ≡ node_given word.now }
{
    match number_to(word, 127) {
        None => None,
        Some(number) => Some(NodeId {
            number: number as u8,
        }),
    }
}

/// The number of such a word, where it is at most the greatest one.
fn number_to(word: &[u8], most: u32) -> Option<u32>
    ensures is { result ≡ number_to most word.now }
    ensures within { IfSome result (λ number. number ≤ most) }
{
    match decimal(word) {
        None => None,
        Some(number) => if number > u64::from(most) {
            None
        } else {
            Some(number as u32)
        },
    }
}

/// The number of decimal digits without leading zeros; one that is large may come as any large
/// number.
fn decimal(word: &[u8]) -> Option<u64>
    ensures { (most : ℕ) → most < LARGE → at_most most result ≡ at_most most (number_of word.now) }
{
    match word {
        [] => None,
        [b'0', _, ..] => None,
        _ => value_of_digits(word),
    }
}

/// The number of decimal digits; one that is large may come as any large number.
fn value_of_digits(digits: &[u8]) -> Option<u64>
    ensures { (most : ℕ) → most < LARGE
        → at_most most result ≡ at_most most (decimal_from 0 digits.now) }
{
    let mut n = 0u64;
    for b in digits {
        if *b < b'0' || *b > b'9' {
            return None;
        }
        n = (n * 10 + (*b - b'0') as u64).min(LARGE);
    }
    Some(n)
}
