//! The statements of a text.
ghost use Rattle.std.specs.Prelude.{◌≡◌, ◌<◌, ◌^◌, ℕ, IfOk, Err, length};
ghost use Rattle.dsdl_parse.specs.declared.syntax.SyntaxError.TheVariants.{Syntax};
ghost use Rattle.dsdl_parse.specs.Ast.{IsAst, FirstBad};
ghost use Rattle.dsdl_parse.specs.LineAnswers.{at_line};

use crate::line::line_of;
use crate::read_error::ReadError;
use crate::statement::Statement;
use crate::text::first_line;
use cy_bits::{List, NoMemory};
use std::alloc::Global;

/// The statements of a definition's text (Cyphal Specification, section 3.2).
#[derive(Drop)]
pub struct Ast {
    /// One statement a line, in order; an empty line has one too.
    pub lines: List<Statement>,
}

/// Why a text has no statements (Cyphal Specification, section 3.2).
#[derive(Clone, Copy, Debug, Drop, PartialEq, Eq)]
pub enum SyntaxError {
    /// This line, counted from 1, is the first that is no line of the grammar.
    Syntax { line: u32 },
    /// The memory for the statements was refused.
    NoMemory,
}

impl From<NoMemory> for SyntaxError {
    ghost use Rattle.std.specs.Prelude.{◌≡◌};
    ghost use Rattle.dsdl_parse.specs.declared.syntax.SyntaxError.TheVariants as error;

    ghost from_gives = { λ _ e. e ≡ error.NoMemory };

    fn from(_: NoMemory) -> SyntaxError {
        SyntaxError::NoMemory
    }
}

/// What a line that isn't read is answered.
fn at_line(error: ReadError, line: u32) -> SyntaxError
    ensures { result ≡ at_line error line }
{
    match error {
        ReadError::Syntax => SyntaxError::Syntax { line },
        ReadError::NoMemory => SyntaxError::NoMemory,
    }
}

/// The same statements without room for more: they are kept until all files are valued.
fn without_room(lines: List<Statement>) -> List<Statement>
    ensures { result ≡ lines }
{
    let mut lines = lines.into_vec();
    lines.shrink_to_fit();
    List::new(lines)
}

/// The statements of a text, one a line (Cyphal Specification, section 3.2). Lines end with a
/// newline, which the last one may lack; one `\r` before it isn't part of the line, and nothing
/// behind the last newline is no line.
///
/// `Syntax` comes exactly where a line is no line of the grammar, and names the first one; no
/// expression of the grammar nests more than 64 levels deep. A text of 2^32 bytes or more may not
/// be given.
pub fn parse(alloc: Global, text: &[u8]) -> Result<Ast, SyntaxError>
    requires { length text.now < 2 ^ 32 }
    ensures ast { IfOk result (λ ast. IsAst text.now ast.lines) }
    ensures refused { (line : ℕ) → result ≡ Err (Syntax line) → FirstBad text.now line }
{
    let mut lines = List::empty(alloc);
    let mut tokens = List::empty(alloc);
    let mut rest = text;
    while let Some((line, behind)) = first_line(rest) {
        match line_of(alloc, line, &mut tokens) {
            Ok(statement) => lines.push(statement)?,
            Err(error) => return Err(at_line(error, lines.len() as u32 + 1)),
        }
        rest = behind;
    }
    Ok(Ast {
        lines: without_room(lines),
    })
}
