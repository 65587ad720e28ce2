//! The pass that values files, each with what those before it define.
ghost use Rattle.std.specs.Prelude.{◌≡◌, ◌<◌, ◌^◌, ℕ, List as ListOf, Ok, length, slice_index, IfOk, IfErr, All};
ghost use Rattle.const_expr.specs.Member.{AreConstants};
ghost use Rattle.dsdl_links.specs.Links.{first_numbers};
ghost use Rattle.dsdl_names.specs.Names.{file_name_of};
ghost use Rattle.dsdl_parse.specs.Ast.{IsAst};
ghost use Rattle.dsdl_types.specs.Definitions.{IsDefinition};
ghost use Rattle.dsdl_resolve.specs.Answers.{Answers};
ghost use Rattle.dsdl_resolve.specs.Judged.{outcome};
ghost use Rattle.dsdl_resolve.specs.Kept.{AreKept, IsKept};
ghost use Rattle.dsdl_resolve.specs.Passes.{StopsAt};
ghost use Rattle.dsdl_resolve.specs.Places.{AreCountsIn, ArePlacesIn};
ghost use Rattle.dsdl_resolve.specs.Progressing.{IsSound};
ghost use Rattle.dsdl_resolve.specs.Reads.{Read, IsRead, AreRead, sources_of};
ghost use Rattle.dsdl_resolve.specs.Refusals.{IsRefusal};
ghost use Rattle.dsdl_resolve.specs.Reread.{HasStatements, WereRead, scope_in, IsValuedTo};

use crate::DsdlError;
use crate::at::at;
use crate::file::value_file;
use crate::finding::Places;
use crate::outcome::{FileError, Refused, Valued};
use crate::progress::Progress;
use const_expr::{Constants, Scope};
use cy_bits::{NoMemory, TryCopy};
use dsdl_files::DsdlFile;
use dsdl_names::FileName;
use dsdl_parse::{Ast, Statement, SyntaxError, one_parsing, parse, well_spelled};
use std::alloc::Global;

/// The greatest number of fields and paddings in all types of a namespace together, counted through
/// nested types. More are want of memory.
const MAX_FIELDS: u32 = 1 << 24;

/// The files of these numbers valued in this order, or the first that is refused. `firsts` has for
/// each file the number of the first one that defines the same type, and `kept` the statements of
/// some.
pub fn value_files(
    alloc: Global,
    files: &[DsdlFile],
    names: &[FileName],
    kept: &[Option<Ast>],
    firsts: &[usize],
    order: &[usize],
) -> Result<Progress, DsdlError>
    requires sizes { All (λ file. length file.text < 2 ^ 32) files.now }
    requires read { WereRead files.now names.now }
    requires kept { AreKept files.now kept.now }
    requires firsts { (reads : ListOf Read) → AreRead files.now reads →
        firsts.now ≡ first_numbers (sources_of reads) }
    requires within { (k : ℕ) → k < length order.now →
        slice_index order.now k < length files.now }
    ensures valued { IfOk result (λ p. (reads : ListOf Read) → AreRead files.now reads →
        IsValuedTo reads order.now p) }
    ensures sound { IfOk result IsSound }
    ensures refused { IfErr result (IsRefusal (λ path line why. (reads : ListOf Read) →
        AreRead files.now reads → StopsAt files.now reads order.now path line why)) }
{
    let mut progress = Progress::start(alloc)?;
    let mut room = MAX_FIELDS;
    for k in 0..order.len() {
        let number = order[k];
        let file = &files[number];
        let (name, kept) = (&names[number], &kept[number]);
        match value_one(
            alloc,
            file,
            name,
            kept,
            &mut progress.scope,
            &progress.places,
            &mut room,
        ) {
            Ok(done) => progress.add(alloc, number, firsts[number] == number, done)?,
            Err(error) => return Err(refused(alloc, file, error)),
        }
    }
    Ok(progress)
}

/// The refusal of a file.
fn refused(alloc: Global, file: &DsdlFile, error: FileError) -> DsdlError
    ensures { IsRefusal (λ path line why.
        (error ≡ FileError.Refused (record { line = line; why = why })) ×
        (path ≡ file.now.path)) result }
{
    match error {
        FileError::Refused(Refused { line, why }) => at(alloc, file, line, why),
        FileError::NoMemory => DsdlError::NoMemory,
    }
}

/// A file valued with the types of a scope. Where its statements aren't kept, its text is read once
/// more.
fn value_one(
    alloc: Global,
    file: &DsdlFile,
    name: &FileName,
    kept: &Option<Ast>,
    scope: &mut Scope,
    places: &Places,
    room: &mut u32,
) -> Result<Valued, FileError>
    requires short { length file.now.text < 2 ^ 32 }
    requires named { file_name_of file.now.path ≡ Ok name.now }
    requires text { HasStatements file.now.text }
    requires kept { IsKept file.now kept.now }
    requires types { All IsDefinition scope.old.namespace.definitions }
    requires places { ArePlacesIn scope.old places.now }
    requires members { All (λ t. AreConstants t.constants) scope.old.members }
    ensures value { (r : Read) → IsRead file.now r →
        Answers (outcome (scope_in scope.old r) r.path r.name r.lines) result }
    ensures sound { IfOk result (λ done. IsDefinition done.outcome.definition) }
    ensures constants { IfOk result (λ done. AreConstants done.outcome.constants) }
    ensures counts { IfOk result (λ done.
        AreCountsIn done.counts done.outcome.definition.parts) }
    ensures namespace { scope.new.namespace ≡ scope.old.namespace }
    ensures members { scope.new.members ≡ scope.old.members }
{
    match kept {
        Some(ast) => value_lines(alloc, file, name, ast.lines.as_slice(), scope, places, room),
        None => {
            let ast = statements_of(alloc, file)?;
            value_lines(alloc, file, name, ast.lines.as_slice(), scope, places, room)
        }
    }
}

/// A file of these statements valued with the types of a scope.
fn value_lines(
    alloc: Global,
    file: &DsdlFile,
    name: &FileName,
    lines: &[Statement],
    scope: &mut Scope,
    places: &Places,
    room: &mut u32,
) -> Result<Valued, FileError>
    requires short { length file.now.text < 2 ^ 32 }
    requires named { file_name_of file.now.path ≡ Ok name.now }
    requires text { IsAst file.now.text lines.now }
    requires types { All IsDefinition scope.old.namespace.definitions }
    requires places { ArePlacesIn scope.old places.now }
    requires members { All (λ t. AreConstants t.constants) scope.old.members }
    ensures value { (r : Read) → IsRead file.now r →
        Answers (outcome (scope_in scope.old r) r.path r.name r.lines) result }
    ensures sound { IfOk result (λ done. IsDefinition done.outcome.definition) }
    ensures constants { IfOk result (λ done. AreConstants done.outcome.constants) }
    ensures counts { IfOk result (λ done.
        AreCountsIn done.counts done.outcome.definition.parts) }
    ensures namespace { scope.new.namespace ≡ scope.old.namespace }
    ensures members { scope.new.members ≡ scope.old.members }
{
    one_parsing();
    well_spelled();
    scope.own = name.id.name.copy(alloc)?;
    scope.constants = Constants::new(alloc);
    scope.offset = None;
    value_file(alloc, &file.path, name, lines, scope, places, room)
}

/// The statements of a file, which has only such.
fn statements_of(alloc: Global, file: &DsdlFile) -> Result<Ast, NoMemory>
    requires short { length file.now.text < 2 ^ 32 }
    requires text { HasStatements file.now.text }
    ensures { IfOk result (λ ast. IsAst file.now.text ast.lines) }
{
    one_parsing();
    match parse(alloc, file.text.as_slice()) {
        Ok(ast) => Ok(ast),
        Err(SyntaxError::NoMemory) => Err(NoMemory),
        Err(SyntaxError::Syntax { .. }) => unreachable!(),
    }
}
