//! Lines of a plan that say a register or its limits.
ghost use Rattle.std.specs.Prelude.{◌≡◌, IfOk, IfSome, MatchOption, None, Some, true, false};
ghost use Rattle.std.specs.List.{list_all};
ghost use Rattle.dsdl_types.specs.Fits.{Fits};
ghost use Rattle.dsdl_types.specs.Views.{sch, val};
ghost use Rattle.node_plan.specs.Line.{IsSaid, SaysRegister, access_in, register_in, said_of_between, said_of_limits, said_of_register};
ghost use Rattle.node_plan.specs.Registers.{Reads, can_limit, is_register_byte, is_register_name};
ghost use Rattle.node_plan.specs.Words.{words_of};
ghost use Rattle.std_types.specs.RegisterValues.{FitsRegisterValue};
ghost use Rattle.std_types.specs.Schemas.{register_value};
ghost use Rattle.value_text.specs.Texts.{value_text};

use crate::line::Said;
use crate::words::{Whole, cut};
use cy_bits::{NoMemory, Text};
use dsdl_types::{Schema, Value};
use std::alloc::Global;
use std_types::limits::{is_whole, lie_within};
use std_types::register_value::RegisterValue;
use std_types::registers::{Limits, Register};
use std_types::{Standard, StdName, std_type};
use value_text::{TextError, print_value, read_value};

/// The greatest number of bytes of a register's name.
const MAX_NAME: usize = 255;

/// The words behind `register`; the text is all that stands behind the others.
#[derive(Clone, Copy)]
pub struct RegisterWords<'a> {
    pub name: &'a [u8],
    pub access: &'a [u8],
    pub text: &'a [u8],
}

/// The words of a line that says a register.
pub fn register_words(line: &[u8]) -> Option<RegisterWords<'_>>
    ensures { MatchOption result (register_in (words_of line.now) ≡ None)
        (λ w. register_in (words_of line.now) ≡ Some (record {
          name = w.name.now;
          access = w.access.now;
          text = w.text.now;
        })) }
{
    let Some((word, behind)) = cut(b' ', line) else {
        return None;
    };
    let Some((name, behind)) = cut(b' ', behind) else {
        return None;
    };
    let Some((access, text)) = cut(b' ', behind) else {
        return None;
    };
    if word != b"register".as_slice() {
        return None;
    }
    Some(RegisterWords { name, access, text })
}

fn is_register_byte(b: u8) -> bool
    ensures { result ≡ is_register_byte b }
{
    b >= b'!' && b <= b'~'
}

fn has_register_bytes(name: &[u8]) -> bool
    ensures { result ≡ list_all is_register_byte name.now }
{
    name.iter().all(|b| is_register_byte(*b))
}

/// Whether limits can be set to a value: it is of an integer or natural variant, and each of its
/// items lies within them.
pub fn can_limit(limits: Limits, value: &RegisterValue) -> bool
    ensures { result ≡ can_limit limits value.now }
{
    is_whole(value) && lie_within(limits, value)
}

/// A name of a register, where these bytes are one.
fn register_name(alloc: Global, name: &[u8]) -> Result<Option<Text>, NoMemory>
    ensures { IfOk result (λ found. MatchOption found (is_register_name name.now ≡ false)
        (λ n. (n ≡ name.now) × (is_register_name name.now ≡ true))) }
{
    if name.len() > MAX_NAME {
        return Ok(None);
    }
    if !has_register_bytes(name) {
        return Ok(None);
    }
    match str::from_utf8(name) {
        Ok(text) => Ok(Some(Text::from_str(alloc, text)?)),
        Err(_) => Ok(None),
    }
}

/// The value of which this is the text, where there is one whose numbers lie in the ranges of their
/// types.
fn value_in(alloc: Global, text: &[u8]) -> Result<Option<RegisterValue>, NoMemory>
    ensures { IfOk result (Reads text.now) }
{
    let standard = std_type(alloc, StdName::RegisterValue)?;
    match read_value(alloc, &standard.schema, text, 0) {
        Ok(value) => kept_value(alloc, &standard.schema, &value, text),
        Err(TextError::Text { .. }) => Ok(None),
        Err(TextError::NoMemory) => Err(NoMemory),
    }
}

/// The value of a register of a value that was read, where its numbers lie in the ranges of their
/// types.
fn kept_value(
    alloc: Global,
    schema: &Schema,
    value: &Value,
    text: &[u8],
) -> Result<Option<RegisterValue>, NoMemory>
    requires schema { sch schema.now ≡ register_value }
    requires fits { Fits (sch schema.now) (val value.now) }
    requires text { value_text (sch schema.now) (val value.now) ≡ text.now }
    ensures { IfOk result (Reads text.now) }
{
    let kept = RegisterValue::of_value(alloc, value)?;
    let again = kept.to_value(alloc)?;
    let printed = print_value(alloc, schema, &again)?;
    if printed.as_str().as_bytes() == text {
        Ok(Some(kept))
    } else {
        Ok(None)
    }
}

/// Whether others can write a register, by the word that says so.
fn access_in(word: &[u8]) -> Option<bool>
    ensures { result ≡ access_in word.now }
{
    if word == b"rw".as_slice() {
        Some(true)
    } else if word == b"ro".as_slice() {
        Some(false)
    } else {
        None
    }
}

/// `register NAME rw VALUE`, or `ro`.
pub fn register(alloc: Global, words: &RegisterWords) -> Result<Said, NoMemory>
    ensures value { IfOk result (SaysRegister (record {
      name = words.now.name.now;
      access = words.now.access.now;
      text = words.now.text.now;
    })) }
    ensures sound { IfOk result IsSaid }
{
    let value = value_in(alloc, words.text)?;
    register_with(alloc, words, value)
}

/// `register NAME rw VALUE`, or `ro`, where VALUE is the text of this value, if any.
fn register_with(
    alloc: Global,
    words: &RegisterWords,
    value: Option<RegisterValue>,
) -> Result<Said, NoMemory>
    requires { IfSome value FitsRegisterValue }
    ensures value { IfOk result (λ said. said ≡ said_of_register words.now.name.now
        words.now.access.now words.now.text.now value) }
    ensures sound { IfOk result IsSaid }
{
    if words.name.is_empty() || words.text.is_empty() {
        return Ok(Said::NoForm);
    }
    let Some(mutable) = access_in(words.access) else {
        return Ok(Said::NoForm);
    };
    match (register_name(alloc, words.name)?, value) {
        (Some(name), Some(value)) => Ok(Said::Register(Register {
            name,
            mutable,
            value,
            limits: None,
        })),
        _ => Ok(Said::Outside),
    }
}

/// `limits NAME LOW HIGH`.
pub fn limits(alloc: Global, name: &[u8], low: Whole, high: Whole) -> Result<Said, NoMemory>
    ensures value { IfOk result (λ said. said ≡ said_of_limits name.now low high) }
    ensures sound { IfOk result IsSaid }
{
    if name.is_empty() {
        return Ok(Said::NoForm);
    }
    match (low, high) {
        (Whole::NoNumber, _) | (_, Whole::NoNumber) => Ok(Said::NoForm),
        (Whole::Within(low), Whole::Within(high)) => {
            limits_between(alloc, name, Limits { low, high })
        }
        _ => Ok(Said::Outside),
    }
}

/// Limits of a register of this name, where these bytes are one.
fn limits_between(alloc: Global, name: &[u8], limits: Limits) -> Result<Said, NoMemory>
    ensures value { IfOk result (λ said. said ≡ said_of_between name.now limits) }
    ensures sound { IfOk result IsSaid }
{
    if limits.low > limits.high {
        return Ok(Said::Outside);
    }
    match register_name(alloc, name)? {
        Some(name) => Ok(Said::Limits { name, limits }),
        None => Ok(Said::Outside),
    }
}
