//! The type of one value (Cyphal Specification, section 3.4).
ghost use Rattle.std.specs.Prelude.{◌≡◌, ◌∷◌, IfOk, IfSome, option_map};
ghost use Rattle.std.specs.Char.{is_ascii_digit};
ghost use Rattle.std.specs.List.{list_all};
ghost use Rattle.std.specs.Str.{IsAscii};
ghost use Rattle.dsdl_lex.specs.Tokens.{IsKind};
ghost use Rattle.dsdl_parse.specs.Answers.{Gives};
ghost use Rattle.dsdl_parse.specs.Statement.{are_digits};
ghost use Rattle.dsdl_parse.specs.StatementReading.{digits_behind, is_primitive, prefix_of, primitive_of, void_of, plain_of, behind_prefix, read_scalar};
ghost use Rattle.dsdl_parse.specs.Words.{seen};

use crate::read_error::ReadError;
use crate::reference::reference_of;
use crate::statement::{Prefix, Scalar};
use crate::words::{WordRef, Words};
use cy_bits::{NoMemory, Text};
use dsdl_lex::TokenKind;
use std::alloc::Global;

fn all_digits(text: &[u8]) -> bool
    ensures { result ≡ list_all is_ascii_digit text.now }
{
    text.iter().all(|b| b.is_ascii_digit())
}

/// Whether a text is decimal digits, at least one.
fn are_digits(text: &[u8]) -> bool
    ensures { result ≡ are_digits text.now }
{
    text.len() > 0 && all_digits(text)
}

/// The digits behind a word, where a text is that word with digits behind it.
fn digits_behind<'a>(word: &[u8], text: &'a [u8]) -> Option<&'a [u8]>
    ensures value { option_map (λ d. d.now) result ≡ digits_behind word.now text.now }
    ensures ascii { IfSome result (λ d. IsAscii d.now) }
{
    let digits = text.strip_prefix(word)?;
    if are_digits(digits) {
        Some(digits)
    } else {
        None
    }
}

/// Whether a name is `bool`, or `uint`, `int` or `float` with digits.
fn is_primitive(name: &[u8]) -> bool
    ensures { result ≡ is_primitive name.now }
{
    name == b"bool".as_slice()
        || digits_behind(b"uint", name).is_some()
        || digits_behind(b"int", name).is_some()
        || digits_behind(b"float", name).is_some()
}

/// The prefix that a word is, where it is one.
fn prefix_of(word: WordRef<'_>) -> Option<Prefix>
    ensures { result ≡ prefix_of word.entry.kind word.entry.text.now }
{
    match word.kind {
        TokenKind::Name => {
            if word.text == b"saturated".as_slice() {
                Some(Prefix::Saturated)
            } else if word.text == b"truncated".as_slice() {
                Some(Prefix::Truncated)
            } else {
                None
            }
        }
        _ => None,
    }
}

/// The primitive type with this prefix that a word is, where it is one.
fn primitive(
    alloc: Global,
    prefix: Option<Prefix>,
    word: WordRef<'_>,
) -> Result<Option<Scalar>, NoMemory>
    requires { IsKind word.kind word.text.now }
    ensures { IfOk result (λ s. s ≡ primitive_of prefix word.entry.kind word.entry.text.now) }
{
    match word.kind {
        TokenKind::Name => {
            if !is_primitive(word.text) {
                return Ok(None);
            }
            let name = word.to_text(alloc)?;
            Ok(Some(Scalar::Primitive { prefix, name }))
        }
        _ => Ok(None),
    }
}

/// The void that a name is, where it is one.
fn void(alloc: Global, text: &[u8]) -> Result<Option<Scalar>, NoMemory>
    ensures { IfOk result (λ s. s ≡ void_of text.now) }
{
    let Some(digits) = digits_behind(b"void", text) else {
        return Ok(None);
    };
    let digits = Text::from_ascii(alloc, digits)?;
    Ok(Some(Scalar::Void { digits }))
}

/// The type that a word alone is, where it is one.
fn plain(alloc: Global, word: WordRef<'_>) -> Result<Option<Scalar>, NoMemory>
    requires { IsKind word.kind word.text.now }
    ensures { IfOk result (λ s. s ≡ plain_of word.entry.kind word.entry.text.now) }
{
    match word.kind {
        TokenKind::Name => {
            if is_primitive(word.text) {
                let name = word.to_text(alloc)?;
                return Ok(Some(Scalar::Primitive { prefix: None, name }));
            }
            void(alloc, word.text)
        }
        TokenKind::Reference => Ok(Some(Scalar::Reference(reference_of(alloc, word.text)?))),
        _ => Ok(None),
    }
}

/// Reads the primitive type behind a prefix.
fn behind_prefix(alloc: Global, prefix: Prefix, words: &mut Words<'_>) -> Result<Scalar, ReadError>
    ensures { Gives (behind_prefix prefix words.old) result words.new }
{
    let Some(name) = words.next() else {
        return Err(ReadError::Syntax);
    };
    match primitive(alloc, Some(prefix), name)? {
        Some(scalar) => Ok(scalar),
        None => Err(ReadError::Syntax),
    }
}

/// Reads the type of one value, which begins with this word.
pub fn scalar(alloc: Global, first: WordRef<'_>, words: &mut Words<'_>) -> Result<Scalar, ReadError>
    requires { IsKind first.kind first.text.now }
    ensures { Gives (read_scalar (seen first.entry ∷ words.old)) result words.new }
{
    if let Some(prefix) = prefix_of(first) {
        return behind_prefix(alloc, prefix, words);
    }
    match plain(alloc, first)? {
        Some(scalar) => Ok(scalar),
        None => Err(ReadError::Syntax),
    }
}
