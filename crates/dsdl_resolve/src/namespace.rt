//! The passes over the files.
ghost use Rattle.std.specs.Prelude.{◌≡◌, ◌<◌, ◌^◌, None, length, List as ListOf, IfOk, IfErr, All};
ghost use Rattle.dsdl_types.specs.Definitions.{IsNamespace};
ghost use Rattle.dsdl_resolve.specs.Kept.{AreKept};
ghost use Rattle.dsdl_resolve.specs.Ordering.{IsOrdering};
ghost use Rattle.dsdl_resolve.specs.Namespaces.{IsValuedNamespace};
ghost use Rattle.dsdl_resolve.specs.Passes.{AreWithinLimits, FirstRefusal, Compiled};
ghost use Rattle.dsdl_resolve.specs.Refusals.{IsRefusal};

use crate::DsdlError;
use crate::clashes::{check_ports, check_versions};
use crate::in_order::namespace_of;
use crate::names::names_of;
use crate::order::{FileOrder, order_of_files};
use crate::size::check_sizes;
use crate::valuing::value_files;
use cy_bits::List;
use dsdl_files::DsdlFile;
use dsdl_names::FileName;
use dsdl_parse::{Ast, one_parsing};
use dsdl_types::Namespace;
use std::alloc::Global;

/// The namespace of the types that files define, each the definition of its file, in the order of
/// the files, which is that of their paths.
///
/// The refusals come in passes: the number and the sizes of the files; then the names of all files;
/// the lines of all files; references to types that no file defines; files that reach themselves
/// through references; then the rules, file by file in the order in which files are valued, and
/// line by line; then versions that clash; then ports that clash. `At` is the first of all.
///
/// Want of memory is `NoMemory`; so are more than 2^24 fields and paddings in all types together,
/// counted through nested types (which is tested, not proved).
pub fn resolve(alloc: Global, files: &[DsdlFile]) -> Result<Namespace, DsdlError>
    ensures compiled { IfOk result (Compiled files.now) }
    ensures sound { IfOk result IsNamespace }
    ensures refused { IfErr result (IsRefusal (FirstRefusal files.now)) }
{
    check_sizes(alloc, files)?;
    let names = names_of(alloc, files)?;
    let mut kept = List::empty(alloc);
    let order = order_of_files(alloc, files, names.as_slice(), &mut kept)?;
    let namespace = valued_namespace(alloc, files, names.as_slice(), kept.as_slice(), order)?;
    check_versions(alloc, files, namespace.definitions.as_slice())?;
    check_ports(alloc, files, namespace.definitions.as_slice())?;
    Ok(namespace)
}

/// The namespace of files that are valued in this order, or the first that is refused.
fn valued_namespace(
    alloc: Global,
    files: &[DsdlFile],
    names: &[FileName],
    kept: &[Option<Ast>],
    order: FileOrder,
) -> Result<Namespace, DsdlError>
    requires sizes { All (λ file. length file.text < 2 ^ 32) files.now }
    requires within { AreWithinLimits files.now }
    requires kept { AreKept files.now kept.now }
    requires ordered { IsOrdering files.now names.now order }
    ensures valued { IfOk result (IsValuedNamespace files.now) }
    ensures sound { IfOk result IsNamespace }
    ensures refused { IfErr result (IsRefusal (FirstRefusal files.now)) }
{
    one_parsing();
    let valued = value_files(
        alloc,
        files,
        names,
        kept,
        order.firsts.as_slice(),
        order.files.as_slice(),
    )?;
    Ok(namespace_of(alloc, files.len(), valued)?)
}
