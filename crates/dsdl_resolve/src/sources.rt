//! The pass on syntax: each line is one of the grammar. What the statements refer to is kept, and
//! the statements themselves as long as they are few.
ghost use Rattle.std.specs.Prelude.{
  ◌≡◌,
  ◌<◌,
  ◌^◌,
  ℕ,
  [],
  None,
  Ok,
  Err,
  length,
  IfOk,
  OnOk,
  IfErr,
  IfSome,
};
ghost use Rattle.std.specs.List.{All};
ghost use Rattle.dsdl_names.specs.Names.{file_name_of};
ghost use Rattle.dsdl_parse.specs.Ast.{FirstBad, IsAst};
ghost use Rattle.dsdl_parse.specs.declared.syntax.SyntaxError.TheVariants.{Syntax};
ghost use Rattle.dsdl_resolve.specs.Kept.{AreKept};
ghost use Rattle.dsdl_resolve.specs.Passes.{SyntaxRefuses, IsFirst};
ghost use Rattle.dsdl_resolve.specs.Refusals.{IsRefusal};
ghost use Rattle.dsdl_resolve.specs.Sources.{AreNamed, AreSources, IsSource};

use crate::at::at;
use crate::{DsdlError, DsdlWhy};
use cy_bits::{List, TryCopy};
use dsdl_files::{DsdlFile, MAX_FILE};
use dsdl_links::{Source, mentions_of};
use dsdl_names::FileName;
use dsdl_parse::{Ast, SyntaxError, one_parsing, parse};
use std::alloc::Global;

/// What a text says.
#[derive(Drop)]
struct Parsed {
    /// What its file defines and refers to.
    source: Source,
    /// Its statements.
    ast: Ast,
}

/// What files define and refer to, or the first file that has a line which is none. The statements
/// of files that have together no more bytes than one file may have are kept.
pub fn sources_of(
    alloc: Global,
    files: &[DsdlFile],
    names: &[FileName],
    kept: &mut List<Option<Ast>>,
) -> Result<List<Source>, DsdlError>
    requires sizes { All (λ file. length file.text < 2 ^ 32) files.now }
    requires named { AreNamed files.now names.now }
    requires none { kept.old ≡ [] }
    ensures kept { OnOk result (AreKept files.now kept.new) }
    ensures sources { IfOk result (AreSources files.now names.now) }
    ensures refused { IfErr result (IsRefusal (IsFirst SyntaxRefuses files.now)) }
{
    one_parsing();
    let mut sources = List::empty(alloc);
    let mut left = MAX_FILE;
    for i in 0..files.len() {
        let file = &files[i];
        match source_of(alloc, file, &names[i]) {
            Ok(parsed) => {
                let Parsed { source, ast } = parsed;
                sources.push(source)?;
                kept.push(keep(ast, file.text.len(), &mut left))?;
            }
            Err(error) => return Err(refused(alloc, file, error)),
        }
    }
    Ok(sources)
}

/// The statements of a text of so many bytes, where these are no more than those that are left.
fn keep(ast: Ast, bytes: usize, left: &mut usize) -> Option<Ast>
    ensures kept { IfSome result (λ kept. kept ≡ ast) }
    ensures dropped { result ≡ None → left.old < bytes }
{
    if bytes > *left {
        return None;
    }
    *left -= bytes;
    Some(ast)
}

/// The refusal of a file whose text has no statements.
fn refused(alloc: Global, file: &DsdlFile, error: SyntaxError) -> DsdlError
    ensures { IsRefusal (λ path line why. (error ≡ SyntaxError.Syntax line) ×
        (path ≡ file.now.path) × (why ≡ DsdlWhy.Syntax)) result }
{
    match error {
        SyntaxError::Syntax { line } => at(alloc, file, line, DsdlWhy::Syntax),
        SyntaxError::NoMemory => DsdlError::NoMemory,
    }
}

/// What a file defines and refers to, and its statements.
fn source_of(alloc: Global, file: &DsdlFile, name: &FileName) -> Result<Parsed, SyntaxError>
    requires short { length file.now.text < 2 ^ 32 }
    requires named { file_name_of file.now.path ≡ Ok name.now }
    ensures source { IfOk result (λ parsed. IsSource file.now name.now parsed.source) }
    ensures ast { IfOk result (λ parsed. IsAst file.now.text parsed.ast.lines) }
    ensures refused { (line : ℕ) →
        result ≡ Err (Syntax line) → FirstBad file.now.text line }
{
    let ast = parse(alloc, file.text.as_slice())?;
    let source = Source {
        id: name.id.copy(alloc)?,
        mentions: mentions_of(alloc, &name.id.name, ast.lines.as_slice())?,
    };
    Ok(Parsed { source, ast })
}
