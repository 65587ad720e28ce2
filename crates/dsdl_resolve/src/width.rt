//! Widths of types as they are written.
ghost use Rattle.std.specs.Prelude.{◌≡◌, ◌≤◌, ◌∷◌, [], true, Some, IfSome};
ghost use Rattle.dsdl_names.specs.Words.{at_most, number_to};
ghost use Rattle.dsdl_types.specs.Rules.{is_float_width};
ghost use Rattle.dsdl_resolve.specs.Forms.{float_width, width_in};

/// The most bits of a primitive type.
const WIDEST: u8 = 64;

/// A number that is at most 64.
fn within(bits: u8) -> Option<u8>
    ensures value { result ≡ at_most 64 (Some bits) }
    ensures bound { IfSome result (λ n. n ≤ 64) }
{
    if bits <= WIDEST { Some(bits) } else { None }
}

/// The number of a decimal digit.
fn one_digit(d: u8) -> Option<u8>
    ensures value { result ≡ number_to 64 (d ∷ []) }
    ensures bound { IfSome result (λ n. n ≤ 64) }
{
    match d {
        b'0'..=b'9' => within(d - b'0'),
        _ => None,
    }
}

/// The number of two decimal digits without leading zeros, where it is at most 64.
fn two_digits(c: u8, d: u8) -> Option<u8>
    ensures value { result ≡ number_to 64 (c ∷ d ∷ []) }
    ensures bound { IfSome result (λ n. n ≤ 64) }
{
    if c < b'1' || b'9' < c || d < b'0' || b'9' < d {
        return None;
    }
    within((c - b'0') * 10 + (d - b'0'))
}

/// The number of decimal digits without leading zeros, where it is at most 64.
#[tactic(auto, using(crate::proofs::NumberTo::long_none))]
fn width(digits: &[u8]) -> Option<u8>
    ensures value { result ≡ number_to 64 digits.now }
    ensures bound { IfSome result (λ bits. bits ≤ 64) }
{
    match digits {
        [d] => one_digit(*d),
        [c, d] => two_digits(*c, *d),
        _ => None,
    }
}

/// A width from `least` to 64, as decimal digits without leading zeros.
pub fn width_in(least: u8, digits: &[u8]) -> Option<u8>
    ensures value { result ≡ width_in least 64 digits.now }
    ensures bounds { IfSome result (λ bits. (least ≤ bits) × (bits ≤ 64)) }
{
    match width(digits) {
        Some(bits) if bits >= least => Some(bits),
        _ => None,
    }
}

/// The width of a floating-point type: 16, 32 or 64.
pub fn float_width(digits: &[u8]) -> Option<u8>
    ensures value { result ≡ float_width (number_to 64 digits.now) }
    ensures width { IfSome result (λ bits. is_float_width bits ≡ true) }
{
    match width(digits) {
        Some(16) => Some(16),
        Some(32) => Some(32),
        Some(64) => Some(64),
        _ => None,
    }
}
