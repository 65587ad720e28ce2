//! The passes on references: each means a file, and no file reaches itself.
ghost use Rattle.std.specs.Prelude.{◌≡◌, ◌<◌, ◌^◌, ℕ, [], length, IfOk, OnOk, IfErr, All};
ghost use Rattle.dsdl_links.specs.Links.{AreLinks};
ghost use Rattle.dsdl_links.specs.Order.{IsOrder};
ghost use Rattle.dsdl_resolve.specs.Kept.{AreKept};
ghost use Rattle.dsdl_resolve.specs.Ordering.{IsOrdering};
ghost use Rattle.dsdl_resolve.specs.Passes.{AreWithinLimits, FirstRefusal, IsUnresolvedAt, IsCycleAt};
ghost use Rattle.dsdl_resolve.specs.Refusals.{IsRefusal};
ghost use Rattle.dsdl_resolve.specs.Sources.{AreNamed};

use crate::at::at_number;
use crate::sources::sources_of;
use crate::{DsdlError, DsdlWhy};
use cy_bits::List;
use dsdl_files::DsdlFile;
use dsdl_links::{CycleError, LinkError, Links, Source, first_numbers, links_of, order_of};
use dsdl_names::FileName;
use dsdl_parse::{Ast, one_parsing};
use std::alloc::Global;

/// How files are valued.
#[derive(Drop)]
pub struct FileOrder {
    /// The numbers of all files in the order in which they are valued.
    pub files: List<usize>,
    /// For each file in path order the number of the first one that defines the same type.
    pub firsts: List<usize>,
}

/// The order in which files are valued, or the first refusal of the passes on syntax and on
/// references. Statements of files are kept as `sources_of` does.
pub fn order_of_files(
    alloc: Global,
    files: &[DsdlFile],
    names: &[FileName],
    kept: &mut List<Option<Ast>>,
) -> Result<FileOrder, DsdlError>
    requires sizes { All (λ file. length file.text < 2 ^ 32) files.now }
    requires within { AreWithinLimits files.now }
    requires named { AreNamed files.now names.now }
    requires none { kept.old ≡ [] }
    ensures kept { OnOk result (AreKept files.now kept.new) }
    ensures ordered { IfOk result (IsOrdering files.now names.now) }
    ensures refused { IfErr result (IsRefusal (FirstRefusal files.now)) }
{
    one_parsing();
    let sources = sources_of(alloc, files, names, kept)?;
    let links = links_between(alloc, files, sources.as_slice())?;
    Ok(FileOrder {
        files: order_between(alloc, files, &links)?,
        firsts: first_numbers(alloc, sources.as_slice())?,
    })
}

/// The files that files refer to.
fn links_between(alloc: Global, files: &[DsdlFile], sources: &[Source]) -> Result<Links, DsdlError>
    requires { length sources.now ≡ length files.now }
    ensures linked { IfOk result (AreLinks sources.now) }
    ensures refused { IfErr result (IsRefusal (IsUnresolvedAt files.now sources.now)) }
{
    match links_of(alloc, sources) {
        Ok(links) => Ok(links),
        Err(LinkError::Unresolved { file, line, id }) => {
            Err(at_number(alloc, files, file, line, DsdlWhy::Unresolved(id)))
        }
        Err(LinkError::NoMemory) => Err(DsdlError::NoMemory),
    }
}

/// The order of files.
fn order_between(alloc: Global, files: &[DsdlFile], links: &Links) -> Result<List<usize>, DsdlError>
    requires { length links.now ≡ length files.now }
    ensures order { IfOk result (IsOrder links.now) }
    ensures refused { IfErr result (IsRefusal (IsCycleAt files.now links.now)) }
{
    match order_of(alloc, links) {
        Ok(order) => Ok(order),
        Err(CycleError::Cycle { file }) => Err(at_number(alloc, files, file, 0, DsdlWhy::Cycle)),
        Err(CycleError::NoMemory) => Err(DsdlError::NoMemory),
    }
}
