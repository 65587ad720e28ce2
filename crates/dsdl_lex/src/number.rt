//! Numbers (Cyphal Specification, section 3.2), read byte by byte.
ghost use Rattle.std.specs.Prelude.{◌≡◌};
ghost use Rattle.dsdl_lex.specs.NumberText as text;
ghost use Rattle.dsdl_lex.specs.Numbers as spec;

use crate::bytes::is_digit;
use crate::state::State;
use crate::token::TokenKind;

/// Which digits of a number are read.
#[derive(Clone, Copy)]
pub enum Digits {
    /// Decimal ones before a point.
    Whole,
    /// Decimal ones behind a point.
    Fraction,
    /// Decimal ones of an exponent.
    Exponent,
    /// Those behind `0b`.
    Binary,
    /// Those behind `0o`.
    Octal,
    /// Those behind `0x`.
    Hexadecimal,
}

/// How far into a number a scan is.
#[derive(Clone, Copy)]
pub enum NumberState {
    /// Behind a first 0.
    Zero,
    /// Behind `0b` and the like.
    Prefix(Digits),
    /// Behind a digit.
    Digit(Digits),
    /// Behind a `_`.
    Underscore(Digits),
    /// Behind digits and their point.
    WholePoint,
    /// Behind `e`.
    ExponentLetter,
    /// Behind `e+` or `e-`.
    ExponentSign,
}

fn is_hexadecimal(b: u8) -> bool
    ensures { result ≡ text.is_hexadecimal b }
{
    is_digit(b) || (b >= b'a' && b <= b'f') || (b >= b'A' && b <= b'F')
}

/// Whether a byte is such a digit.
fn is_digit_of(digits: Digits, b: u8) -> bool
    ensures { result ≡ spec.is_digit_of digits b }
{
    match digits {
        Digits::Whole => is_digit(b),
        Digits::Fraction => is_digit(b),
        Digits::Exponent => is_digit(b),
        Digits::Binary => b >= b'0' && b <= b'1',
        Digits::Octal => b >= b'0' && b <= b'7',
        Digits::Hexadecimal => is_hexadecimal(b),
    }
}

/// A byte behind digits that may have an exponent.
fn letter_step(b: u8) -> State
    ensures { result ≡ spec.letter_step b }
{
    if b == b'e' || b == b'E' {
        State::Number(NumberState::ExponentLetter)
    } else {
        State::Dead
    }
}

/// A byte behind digits that is neither such a digit nor `_`.
fn end_step(digits: Digits, b: u8) -> State
    ensures { result ≡ spec.end_step digits b }
{
    match digits {
        Digits::Whole => {
            if b == b'.' {
                State::Number(NumberState::WholePoint)
            } else {
                letter_step(b)
            }
        }
        Digits::Fraction => letter_step(b),
        Digits::Exponent => State::Dead,
        Digits::Binary => State::Dead,
        Digits::Octal => State::Dead,
        Digits::Hexadecimal => State::Dead,
    }
}

/// A byte where a digit has to come.
fn digit_step(digits: Digits, b: u8) -> State
    ensures { result ≡ spec.digit_step digits b }
{
    if is_digit_of(digits, b) {
        State::Number(NumberState::Digit(digits))
    } else {
        State::Dead
    }
}

/// A byte behind a digit.
fn more_step(digits: Digits, b: u8) -> State
    ensures { result ≡ spec.more_step digits b }
{
    if is_digit_of(digits, b) {
        State::Number(NumberState::Digit(digits))
    } else if b == b'_' {
        State::Number(NumberState::Underscore(digits))
    } else {
        end_step(digits, b)
    }
}

/// A byte directly behind the prefix of a base.
fn prefix_step(digits: Digits, b: u8) -> State
    ensures { result ≡ spec.prefix_step digits b }
{
    if b == b'_' {
        State::Number(NumberState::Underscore(digits))
    } else {
        digit_step(digits, b)
    }
}

/// A byte behind a first 0.
fn zero_step(b: u8) -> State
    ensures { result ≡ spec.zero_step b }
{
    if b == b'b' || b == b'B' {
        State::Number(NumberState::Prefix(Digits::Binary))
    } else if b == b'o' || b == b'O' {
        State::Number(NumberState::Prefix(Digits::Octal))
    } else if b == b'x' || b == b'X' {
        State::Number(NumberState::Prefix(Digits::Hexadecimal))
    } else {
        more_step(Digits::Whole, b)
    }
}

/// A byte behind `e`.
fn exponent_step(b: u8) -> State
    ensures { result ≡ spec.exponent_step b }
{
    if b == b'+' || b == b'-' {
        State::Number(NumberState::ExponentSign)
    } else {
        digit_step(Digits::Exponent, b)
    }
}

/// What a byte makes of a number so far.
pub fn number_step(state: NumberState, b: u8) -> State
    ensures { result ≡ spec.number_step state b }
{
    match state {
        NumberState::Zero => zero_step(b),
        NumberState::Prefix(digits) => prefix_step(digits, b),
        NumberState::Digit(digits) => more_step(digits, b),
        NumberState::Underscore(digits) => digit_step(digits, b),
        NumberState::WholePoint => digit_step(Digits::Fraction, b),
        NumberState::ExponentLetter => exponent_step(b),
        NumberState::ExponentSign => digit_step(Digits::Exponent, b),
    }
}

/// The kind of token that a scan stands behind.
pub fn number_kind(state: NumberState) -> Option<TokenKind>
    ensures { result ≡ spec.number_kind state }
{
    match state {
        NumberState::Zero => Some(TokenKind::Number),
        NumberState::Digit(_) => Some(TokenKind::Number),
        NumberState::WholePoint => Some(TokenKind::Number),
        _ => None,
    }
}
