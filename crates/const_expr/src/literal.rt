//! Numbers as they are written.
ghost use Rattle.std.specs.Prelude.{◌≡◌, ◌≢◌, ℕ, ◌<◌, ◌≤◌, ◌^◌, ◌*◌, length, ◌++◌, take, drop, ◌+◌, pos, unsigned_abs, SomeIff, MatchOption, IfOk, Err};
ghost use Rattle.std.specs.Char.{digit_value};
ghost use Rattle.std.specs.List.{position_or_len};
ghost use Rattle.std.specs.Str.Parse.{digits_value, digits_value_after};
ghost use Rattle.const_expr.specs.Constants.{IsConst};
ghost use Rattle.const_expr.specs.Literal.{base_of, decimal_of, digits, exponent_of, in_base, is_exponent_sign, is_point, literal, natural_within, scaled_within};

use crate::constant::Const;
use crate::whole::whole;
use crate::why::Why;
use cy_ratio::Ratio;

/// A number above each that is asked for.
const FAR: u128 = 1 << 100;

/// The first number that leaves the range.
const END: u128 = 1 << 127;

/// The value of a digit or a letter, and 36 of another byte.
fn digit_value(b: u8) -> u8
    ensures { result ≡ digit_value b }
{
    match b {
        b'0'..=b'9' => b - b'0',
        b'A'..=b'Z' => b - b'A' + 10,
        b'a'..=b'z' => b - b'a' + 10,
        _ => 36,
    }
}

/// The number that a digit writes behind those of another number, where 128 bits hold it.
fn with_digit(base: u32, number: u128, digit: u8) -> Option<u128>
    ensures { SomeIff result (number * base + digit_value digit < 2 ^ 128)
        (number * base + digit_value digit) }
{
    match number.checked_mul(u128::from(base)) {
        Some(shifted) => shifted.checked_add(u128::from(digit_value(digit))),
        None => None,
    }
}

/// The number that digits write behind those of another number, where 128 bits hold it. `_` is no digit.
fn more_digits(base: u32, number: u128, text: &[u8]) -> Option<u128>
    requires { 1 ≤ base }
    ensures { SomeIff result (digits_value_after base number (digits text.now) < 2 ^ 128)
        (digits_value_after base number (digits text.now)) }
{
    let mut sum = number;
    for b in text {
        if *b != b'_' {
            match with_digit(base, sum, *b) {
                Some(next) => sum = next,
                None => return None,
            }
        }
    }
    Some(sum)
}

/// How many digits there are.
fn count_digits(text: &[u8]) -> usize
    ensures value { result ≡ length (digits text.now) }
{
    let mut count = 0;
    for b in text {
        if *b != b'_' {
            count += 1;
        }
    }
    count
}

/// A whole number, where it is in the range.
#[tactic(auto, using(crate::proofs::Keeps::number_keeps))]
fn natural_within(number: Option<u128>) -> Result<Const, Why>
    ensures value { (n : ℕ) → SomeIff number (n < 2 ^ 128) n → result ≡ natural_within n }
    ensures kept { IfOk result IsConst }
{
    match number {
        Some(n) => {
            if n < END {
                Ok(Const::Number(whole(n as i128)))
            } else {
                Err(Why::Range)
            }
        }
        None => Err(Why::Range),
    }
}

/// The place of the point, or the number of bytes where there is none.
#[tactic(auto, using(std::proofs::lemmas::List::Sums::position_or_len_is))]
fn point_in(text: &[u8]) -> usize
    ensures value { result ≡ position_or_len is_point text.now }
    ensures bound { result ≤ length text.now }
{
    for (i, b) in text.iter().enumerate() {
        if *b == b'.' {
            return i;
        }
    }
    text.len()
}

/// The place of the `e` or `E`, or the number of bytes where there is none.
#[tactic(auto, using(std::proofs::lemmas::List::Sums::position_or_len_is))]
fn exponent_sign_in(text: &[u8]) -> usize
    ensures value { result ≡ position_or_len is_exponent_sign text.now }
    ensures bound { result ≤ length text.now }
{
    for (i, b) in text.iter().enumerate() {
        if *b == b'e' || *b == b'E' {
            return i;
        }
    }
    text.len()
}

/// What stands before a place and behind the byte there.
fn cut(text: &[u8], place: usize) -> (&[u8], &[u8])
    requires { place ≤ length text.now }
    ensures front { result.0.now ≡ take place text.now }
    ensures back { result.1.now ≡ drop (place + 1) text.now }
{
    if place < text.len() {
        (&text[..place], &text[place + 1..])
    } else {
        (text, &[])
    }
}

/// An exponent, unless it is far outside the range.
#[tactic(auto, unfolding(crate::specs::Literal::exponent_of))]
fn exponent_of(text: &[u8]) -> Option<i128>
    ensures { MatchOption result (2 ^ 100 ≤ unsigned_abs (exponent_of text.now))
        (λ z. (z ≡ exponent_of text.now) × (unsigned_abs z < 2 ^ 100)) }
{
    match text {
        [b'-', text @ ..] => size_of(text).map(|size| -size),
        [b'+', text @ ..] => size_of(text),
        _ => size_of(text),
    }
}

/// The number of decimal digits, unless it is far outside the range.
fn size_of(text: &[u8]) -> Option<i128>
    ensures { MatchOption result (2 ^ 100 ≤ digits_value 10 (digits text.now))
        (λ z. (z ≡ pos (digits_value 10 (digits text.now)))
        × (digits_value 10 (digits text.now) < 2 ^ 100)) }
{
    match more_digits(10, 0, text) {
        Some(size) => if size < FAR { Some(size as i128) } else { None },
        None => None,
    }
}

/// The digits before and behind a point as one number, where 128 bits hold it.
#[tactic(auto, using(crate::proofs::LiteralLemmas::behind_others, crate::proofs::LiteralLemmas::front_too_great))]
fn mantissa_of(front: &[u8], back: &[u8]) -> Option<u128>
    ensures { SomeIff result (digits_value 10 (digits front.now ++ digits back.now) < 2 ^ 128)
        (digits_value 10 (digits front.now ++ digits back.now)) }
{
    match more_digits(10, 0, front) {
        Some(number) => more_digits(10, number, back),
        None => None,
    }
}

/// m times 10 to the x.
#[tactic(auto, using(crate::proofs::Keeps::number_keeps))]
fn scaled(m: u128, x: i128) -> Result<Const, Why>
    ensures value { result ≡ scaled_within m x }
    ensures kept { IfOk result IsConst }
{
    if m >= END || x < -38 || x > 38 {
        return Err(Why::Range);
    }
    let power = ten_to(x.unsigned_abs() as u32);
    if x < 0 {
        Ok(Const::Number(Ratio::new(m as i128, power as i128)?))
    } else {
        natural_within(m.checked_mul(power))
    }
}

/// 10 to the x.
fn ten_to(x: u32) -> u128
    requires { x ≤ 38 }
    ensures value { result ≡ 10 ^ x }
    ensures small { result < 2 ^ 127 }
{
    let mut power = 1;
    for _ in 0..x {
        power *= 10;
    }
    power
}

/// The value of decimal digits with a point and an exponent.
#[tactic(auto, using(crate::proofs::LiteralLemmas::large_scaled))]
fn decimal_of(text: &[u8]) -> Result<Const, Why>
    ensures value { result ≡ decimal_of text.now }
    ensures kept { IfOk result IsConst }
{
    let (mantissa, exponent) = cut(text, exponent_sign_in(text));
    let (front, back) = cut(mantissa, point_in(mantissa));
    let decimals = count_digits(back);
    match (mantissa_of(front, back), exponent_of(exponent)) {
        (Some(m), Some(exponent)) => scaled(m, exponent - decimals as i128),
        (Some(_), None) => Err(Why::Range),
        (None, _) => Err(Why::Range),
    }
}

/// The base that the letter behind the first `0` stands for.
fn base_of(text: &[u8]) -> u32
    ensures { result ≡ base_of text.now }
{
    match text {
        [b'0', b'b' | b'B', ..] => 2,
        [b'0', b'o' | b'O', ..] => 8,
        [b'0', b'x' | b'X', ..] => 16,
        _ => 10,
    }
}

/// The value of a number as it is written (Cyphal Specification, section 3.2): digits of the base
/// 2, 8 or 16 behind `0b`, `0o` or `0x`, else decimal digits with a point and an exponent. Range
/// where a number on the way leaves i128, or the exponent with the point in it leaves -38 to 38.
#[tactic(auto, unfolding(crate::specs::Literal::literal))]
pub fn literal(text: &str) -> Result<Const, Why>
    ensures value { result ≡ literal text.now }
    ensures kept { IfOk result IsConst }
{
    let text = text.as_bytes();
    let base = base_of(text);
    if base == 10 {
        decimal_of(text)
    } else {
        let digits = if text.len() < 2 { text } else { &text[2..] };
        natural_within(more_digits(base, 0, digits))
    }
}
