//! Tokens of any kind (Cyphal Specification, section 3.2), read byte by byte.
ghost use Rattle.std.specs.Prelude.{◌≡◌};
ghost use Rattle.dsdl_lex.specs.Steps as spec;
ghost use Rattle.dsdl_lex.specs.Scans.{is_in_name};

use crate::bytes::{is_digit, is_inside, is_letter, is_quote};
use crate::number::{Digits, NumberState, number_kind, number_step};
use crate::token::TokenKind;
use crate::word::{WordState, word_kind, word_step};

/// How far into a token a scan is.
#[derive(Clone, Copy)]
pub enum State {
    /// At a token's first byte.
    Start,
    /// At a token's first byte, where no reference begins.
    Plain,
    /// Behind bytes that begin no token.
    Dead,
    /// In a name or a reference.
    Word(WordState),
    /// In a number.
    Number(NumberState),
    /// In a string between such quotes.
    Inside(u8),
    /// Behind a string.
    Closed,
    /// Behind a first point.
    Point,
    /// Behind a sign.
    Sign,
    /// Behind a sign that makes another sign with this byte.
    Pair(u8),
}

/// The signs of one byte that begin no other token.
const SINGLES: &[u8] = b"@[](){},^+-/%";

/// The signs that make another sign with `=`.
const COMPARISONS: &[u8] = b"<>=!";

/// The signs that may stand twice.
const DOUBLES: &[u8] = b"|&*";

/// A sign's first byte.
fn begin_sign(b: u8) -> State
    ensures { result ≡ spec.begin_sign b }
{
    if SINGLES.contains(&b) {
        State::Sign
    } else if COMPARISONS.contains(&b) {
        State::Pair(b'=')
    } else if DOUBLES.contains(&b) {
        State::Pair(b)
    } else {
        State::Dead
    }
}

/// A first byte that is no letter.
fn begin_other(b: u8) -> State
    ensures { result ≡ spec.begin_other b }
{
    if b == b'0' {
        State::Number(NumberState::Zero)
    } else if is_digit(b) {
        State::Number(NumberState::Digit(Digits::Whole))
    } else if is_quote(b) {
        State::Inside(b)
    } else if b == b'.' {
        State::Point
    } else {
        begin_sign(b)
    }
}

/// A first byte; a letter begins such a word.
fn begin(word: WordState, b: u8) -> State
    ensures { result ≡ spec.begin word b }
{
    if is_letter(b) {
        State::Word(word)
    } else {
        begin_other(b)
    }
}

/// A byte behind an opening quote.
fn inside_step(quote: u8, b: u8) -> State
    ensures { result ≡ spec.inside_step quote b }
{
    if b == quote {
        State::Closed
    } else if is_inside(quote, b) {
        State::Inside(quote)
    } else {
        State::Dead
    }
}

/// A byte behind a first point.
fn point_step(b: u8) -> State
    ensures { result ≡ spec.point_step b }
{
    if is_digit(b) {
        State::Number(NumberState::Digit(Digits::Fraction))
    } else {
        State::Dead
    }
}

fn pair_step(second: u8, b: u8) -> State
    ensures { result ≡ spec.pair_step second b }
{
    if second == b {
        State::Sign
    } else {
        State::Dead
    }
}

/// What a byte makes of a token so far.
pub fn step(state: State, b: u8) -> State
    ensures { result ≡ spec.step state b }
{
    match state {
        State::Start => begin(WordState::First, b),
        State::Plain => begin(WordState::Plain, b),
        State::Dead => State::Dead,
        State::Word(word) => word_step(word, b),
        State::Number(number) => number_step(number, b),
        State::Inside(quote) => inside_step(quote, b),
        State::Closed => State::Dead,
        State::Point => point_step(b),
        State::Sign => State::Dead,
        State::Pair(second) => pair_step(second, b),
    }
}

/// The kind of token that a scan stands behind, if it is one.
pub fn kind_of(state: State) -> Option<TokenKind>
    ensures { result ≡ spec.kind_of state }
{
    match state {
        State::Word(word) => word_kind(word),
        State::Number(number) => number_kind(number),
        State::Closed => Some(TokenKind::Str),
        State::Point => Some(TokenKind::Sign),
        State::Sign => Some(TokenKind::Sign),
        State::Pair(_) => Some(TokenKind::Sign),
        _ => None,
    }
}

/// Whether no text that begins so is a token.
pub fn is_dead(state: State) -> bool
    ensures { result ≡ spec.is_dead state }
{
    match state {
        State::Dead => true,
        _ => false,
    }
}

/// Whether a scan stands behind digits and their point.
pub fn is_pointed(state: State) -> bool
    ensures { result ≡ spec.is_pointed state }
{
    match state {
        State::Number(NumberState::WholePoint) => true,
        _ => false,
    }
}

/// Whether a scan stands in a name that more bytes of names leave a name.
pub fn is_in_name(state: State) -> bool
    ensures { result ≡ is_in_name state }
{
    match state {
        State::Word(WordState::Plain | WordState::First) => true,
        _ => false,
    }
}
