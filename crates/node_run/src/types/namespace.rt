//! The namespace of a root.
ghost use Rattle.std.specs.Prelude.{◌≡◌, ◌≤◌, ◌+◌, ◌⊎◌, IfOk, IfErr, IfSome, codes};
ghost use Rattle.dsdl_types.specs.Definitions.{IsNamespace};
ghost use Rattle.node_run.specs.Loaded.{AreFilesOf, IsLoaded, IsNotLoaded, calls_of, not_read, not_resolved};
ghost use Rattle.node_run.specs.Loaded.{HasLoadCause};

use crate::status::Status;
use cy_bits::{List, Text};
use cy_outside::Tree;
use dsdl_files::{DsdlFile, FolderError, read_folder};
use dsdl_resolve::{DsdlError, DsdlWhy, resolve};
use dsdl_types::Namespace;
use std::alloc::Global;

/// The root that stands for an empty namespace.
const NONE: &str = "none";

/// The namespace of the DSDL files below a root. The root `none` stands for the empty namespace:
/// nothing is listed then.
///
/// `NoFile` comes exactly where the root is no folder, and `Dsdl` exactly where its files are
/// refused, with the first refusal. `ReadFault` comes only where the tree failed in this call. No
/// other status comes but `NoMemory`.
pub fn load<T: Tree>(alloc: Global, tree: &mut T, root: &str) -> Result<Namespace, Status>
    ensures loaded { IfOk result (IsLoaded root.now (T.files tree.old)) }
    ensures sound { IfOk result IsNamespace }
    ensures refused { IfErr result (IsNotLoaded root.now (T.files tree.old)) }
    ensures cause { HasLoadCause (T.faults tree.old) (T.faults tree.new) result }
    ensures files { T.files tree.new ≡ T.files tree.old }
    ensures unlisted { root.now ≡ codes "none" → tree.new ≡ tree.old }
    ensures calls { IfSome (T.files tree.old)
        (λ files. T.calls tree.new ≤ T.calls tree.old + calls_of root.now files) }
{
    let files = match files_of(alloc, tree, root) {
        Ok(files) => files,
        Err(status) => return Err(status),
    };
    match resolve(alloc, files.as_slice()) {
        Ok(names) => Ok(names),
        Err(error) => Err(not_resolved(error)),
    }
}

/// The files that a root stands for.
#[tactic(auto, using(crate::proofs::Roots::none_called, crate::proofs::Roots::folder_called))]
fn files_of<T: Tree>(alloc: Global, tree: &mut T, root: &str) -> Result<List<DsdlFile>, Status>
    ensures are { IfOk result (AreFilesOf root.now (T.files tree.old)) }
    ensures refused { IfErr result (IsNotLoaded root.now (T.files tree.old)) }
    ensures cause { HasLoadCause (T.faults tree.old) (T.faults tree.new) result }
    ensures files { T.files tree.new ≡ T.files tree.old }
    ensures unlisted { root.now ≡ codes "none" → tree.new ≡ tree.old }
    ensures calls { IfSome (T.files tree.old)
        (λ files. T.calls tree.new ≤ T.calls tree.old + calls_of root.now files) }
{
    if root == NONE {
        return Ok(List::empty(alloc));
    }
    match read_folder(alloc, tree, root) {
        Ok(files) => Ok(files),
        Err(error) => Err(not_read(alloc, root, error)),
    }
}

/// The status of a folder whose files were not read.
fn not_read(alloc: Global, root: &str, error: FolderError) -> Status
    ensures { (result ≡ not_read root.now error)
        ⊎ ((error ≡ FolderError.NotFolder) × (result ≡ Status.NoMemory)) }
{
    match error {
        FolderError::NotFolder => match Text::from_str(alloc, root) {
            Ok(path) => Status::NoFile { path },
            Err(_) => Status::NoMemory,
        },
        FolderError::TooBig { path } => Status::Dsdl {
            file: path,
            line: 0,
            why: DsdlWhy::TooBig,
        },
        FolderError::Failed => Status::ReadFault,
        FolderError::NoMemory => Status::NoMemory,
    }
}

/// The status of files that are refused.
fn not_resolved(error: DsdlError) -> Status
    ensures { result ≡ not_resolved error }
{
    match error {
        DsdlError::At { file, line, why } => Status::Dsdl { file, line, why },
        DsdlError::NoMemory => Status::NoMemory,
    }
}
