//! Types as they are written (Cyphal Specification, section 3.4).
ghost use Rattle.std.specs.Prelude.{◌≡◌, ◌∷◌};
ghost use Rattle.dsdl_lex.specs.Tokens.{IsKind};
ghost use Rattle.dsdl_parse.specs.Answers.{Gives};
ghost use Rattle.dsdl_parse.specs.StatementReading.{read_sign, read_bound, read_form};
ghost use Rattle.dsdl_parse.specs.Words.{seen};

use crate::descent::expression;
use crate::read_error::ReadError;
use crate::scalar::scalar;
use crate::statement::{Bound, BoundSign, Form};
use crate::words::{WordRef, Words};
use std::alloc::Global;

/// Takes `<=` or `<`, where one of them is next.
fn bound_sign(words: &mut Words<'_>) -> BoundSign
    ensures { (result, words.new) ≡ read_sign words.old }
{
    if let Some(_) = words.take_sign(b"<=") {
        BoundSign::AtMost
    } else if let Some(_) = words.take_sign(b"<") {
        BoundSign::Below
    } else {
        BoundSign::Exact
    }
}

/// Reads the number of items of an array behind its `[`.
fn bound(alloc: Global, words: &mut Words<'_>) -> Result<Bound, ReadError>
    ensures { Gives (read_bound words.old) result words.new }
{
    let sign = bound_sign(words);
    let expr = expression(alloc, words)?;
    match words.take_sign(b"]") {
        Some(_) => Ok(Bound { sign, expr }),
        None => Err(ReadError::Syntax),
    }
}

/// Reads the type that begins with this word.
pub fn form(alloc: Global, first: WordRef<'_>, words: &mut Words<'_>) -> Result<Form, ReadError>
    requires { IsKind first.kind first.text.now }
    ensures { Gives (read_form (seen first.entry ∷ words.old)) result words.new }
{
    let scalar = scalar(alloc, first, words)?;
    let array = match words.take_sign(b"[") {
        Some(_) => Some(bound(alloc, words)?),
        None => None,
    };
    Ok(Form { scalar, array })
}
