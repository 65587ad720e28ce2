//! The statement of a line (Cyphal Specification, section 3.2).
ghost use Rattle.std.specs.Prelude.{◌≡◌, ◌∷◌, ◌<◌, ◌^◌, IfOk, Err, length};
ghost use Rattle.dsdl_lex.specs.Tokens.{IsKind};
ghost use Rattle.dsdl_parse.specs.declared.read_error.ReadError.TheVariants as error;
ghost use Rattle.dsdl_parse.specs.declared.statement.Statement.{Statement as Said};
ghost use Rattle.dsdl_parse.specs.Answers.{Gives};
ghost use Rattle.dsdl_parse.specs.Ast.{IsLine};
ghost use Rattle.dsdl_parse.specs.Reading.{Reader};
ghost use Rattle.dsdl_parse.specs.StatementReading.{read_name, read_directive, alone_of, read_attribute, read_statement};
ghost use Rattle.dsdl_parse.specs.Words.{seen};

use crate::descent::{expression, is_name};
use crate::form::form;
use crate::read_error::ReadError;
use crate::statement::{Form, Scalar, Statement};
use crate::words::{WordRef, Words};
use cy_bits::{List, Text};
use dsdl_lex::{Token, TokenKind, lex_line, one_reading};
use std::alloc::Global;

/// Reads a name.
fn name(alloc: Global, words: &mut Words<'_>) -> Result<Text, ReadError>
    ensures { Gives (read_name words.old) result words.new }
{
    let Some(word) = words.next() else {
        return Err(ReadError::Syntax);
    };
    if is_name(word.kind) {
        Ok(word.to_text(alloc)?)
    } else {
        Err(ReadError::Syntax)
    }
}

/// Reads a directive behind its `@`.
fn directive(alloc: Global, words: &mut Words<'_>) -> Result<Statement, ReadError>
    ensures { Gives (read_directive words.old) result words.new }
{
    let name = name(alloc, words)?;
    if words.len() == 0 {
        return Ok(Statement::Directive { name, expr: None });
    }
    let expr = expression(alloc, words)?;
    Ok(Statement::Directive {
        name,
        expr: Some(expr),
    })
}

/// What a type without a name is: a void alone is padding.
fn alone(form: Form) -> Option<Statement>
    ensures { result ≡ alone_of form.scalar form.array }
{
    let Form { scalar, array } = form;
    match (scalar, array) {
        (Scalar::Void { digits }, None) => Some(Statement::Padding { digits }),
        _ => None,
    }
}

/// Reads a constant, a field or padding, which begins with this word.
fn attribute(
    alloc: Global,
    first: WordRef<'_>,
    words: &mut Words<'_>,
) -> Result<Statement, ReadError>
    requires { IsKind first.kind first.text.now }
    ensures { Gives (read_attribute (seen first.entry ∷ words.old)) result words.new }
{
    let form = form(alloc, first, words)?;
    if words.len() == 0 {
        return alone(form).ok_or(ReadError::Syntax);
    }
    let name = name(alloc, words)?;
    match words.take_sign(b"=") {
        Some(_) => {
            let expr = expression(alloc, words)?;
            Ok(Statement::Constant { form, name, expr })
        }
        None => Ok(Statement::Field { form, name }),
    }
}

/// Reads a statement.
fn statement(alloc: Global, words: &mut Words<'_>) -> Result<Statement, ReadError>
    ensures { Gives (read_statement words.old) result words.new }
{
    let Some(first) = words.next() else {
        return Ok(Statement::Empty);
    };
    match first.kind {
        TokenKind::Split => Ok(Statement::Split),
        TokenKind::Name | TokenKind::Reference => attribute(alloc, first, words),
        TokenKind::Sign if first.text == b"@".as_slice() => directive(alloc, words),
        _ => Err(ReadError::Syntax),
    }
}

/// The statement of a line; `Syntax` exactly where it is no line of the grammar. The line's tokens
/// stand in the list for so long, in place of what it held.
pub fn line_of(alloc: Global, line: &[u8], tokens: &mut List<Token>) -> Result<Statement, ReadError>
    requires { length line.now < 2 ^ 32 }
    ensures statement { IfOk result (λ s. IsLine line.now s) }
    ensures refused { result ≡ Err error.Syntax → (s : Said) → IsLine line.now s → ⊥ }
{
    one_reading();
    lex_line(line, tokens)?;
    let mut words = Words::new(line, tokens.as_slice());
    let statement = statement(alloc, &mut words)?;
    if words.len() == 0 {
        Ok(statement)
    } else {
        Err(ReadError::Syntax)
    }
}
