//! Names and references (Cyphal Specification, section 3.2), read byte by byte.
ghost use Rattle.std.specs.Prelude.{◌≡◌};
ghost use Rattle.dsdl_lex.specs.Words as spec;

use crate::bytes::{is_digit, is_letter, is_word};
use crate::state::State;
use crate::token::TokenKind;

/// How far into a name or a reference a scan is. Versions are numbers so far.
#[derive(Clone, Copy)]
pub enum WordState {
    /// In a name that begins no reference.
    Plain,
    /// In the first name.
    First,
    /// In a later name.
    Later,
    /// Behind a point and a name.
    Point,
    /// In the major number of a version, which is this so far.
    Major(u8),
    /// Behind the point between the versions.
    MajorPoint(u8),
    /// In the minor number of a version: the major one, and what this is so far.
    Minor(u8, u8),
}

/// A digit more of a number that stays below 256 and doesn't begin with 0.
fn digit_more(n: u8, b: u8) -> Option<u8>
    ensures { result ≡ spec.digit_more n b }
{
    if !is_digit(b) || n == 0 {
        return None;
    }
    let more = n as u32 * 10 + (b - b'0') as u32;
    if more < 256 { Some(more as u8) } else { None }
}

/// A byte of a name, or the point behind it.
fn name_step(state: WordState, b: u8) -> State
    ensures { result ≡ spec.name_step state b }
{
    if is_word(b) {
        State::Word(state)
    } else if b == b'.' {
        State::Word(WordState::Point)
    } else {
        State::Dead
    }
}

/// A byte behind a point.
fn point_step(b: u8) -> State
    ensures { result ≡ spec.point_step b }
{
    if is_letter(b) {
        State::Word(WordState::Later)
    } else if is_digit(b) {
        State::Word(WordState::Major(b - b'0'))
    } else {
        State::Dead
    }
}

fn major_step(major: u8, b: u8) -> State
    ensures { result ≡ spec.major_step major b }
{
    if b == b'.' {
        return State::Word(WordState::MajorPoint(major));
    }
    match digit_more(major, b) {
        Some(n) => State::Word(WordState::Major(n)),
        None => State::Dead,
    }
}

fn minor_step(major: u8, minor: u8, b: u8) -> State
    ensures { result ≡ spec.minor_step major minor b }
{
    match digit_more(minor, b) {
        Some(n) => State::Word(WordState::Minor(major, n)),
        None => State::Dead,
    }
}

fn major_point_step(major: u8, b: u8) -> State
    ensures { result ≡ spec.major_point_step major b }
{
    if is_digit(b) {
        State::Word(WordState::Minor(major, b - b'0'))
    } else {
        State::Dead
    }
}

fn plain_step(b: u8) -> State
    ensures { result ≡ spec.plain_step b }
{
    if is_word(b) {
        State::Word(WordState::Plain)
    } else {
        State::Dead
    }
}

/// What a byte makes of a name or a reference so far.
pub fn word_step(state: WordState, b: u8) -> State
    ensures { result ≡ spec.word_step state b }
{
    match state {
        WordState::Plain => plain_step(b),
        WordState::First => name_step(WordState::First, b),
        WordState::Later => name_step(WordState::Later, b),
        WordState::Point => point_step(b),
        WordState::Major(major) => major_step(major, b),
        WordState::MajorPoint(major) => major_point_step(major, b),
        WordState::Minor(major, minor) => minor_step(major, minor, b),
    }
}

/// The kind of token that a scan stands behind.
pub fn word_kind(state: WordState) -> Option<TokenKind>
    ensures { result ≡ spec.word_kind state }
{
    match state {
        WordState::Plain => Some(TokenKind::Name),
        WordState::First => Some(TokenKind::Name),
        WordState::Minor(major, minor) => {
            if major == 0 && minor == 0 {
                None
            } else {
                Some(TokenKind::Reference)
            }
        }
        _ => None,
    }
}
