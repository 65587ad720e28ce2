ghost use Rattle.std.specs.Prelude.{◌≡◌, ◌≤◌, ◌+◌, ◌⊎◌, length, map, IfOk, IfSome};
ghost use Rattle.cy_outside.specs.Outside.{Rose};
ghost use Rattle.std.specs.List.{All};
ghost use Rattle.dsdl_files.specs.Causes.{HasFolderCause};
ghost use Rattle.dsdl_files.specs.Order.{IsAscending};
ghost use Rattle.dsdl_files.specs.Folders.{IsAnswer, calls_of_folder, calls_within, files_of_folder, files_within};

use crate::files::read_files;
use crate::found::find_files;
use crate::limits::{LIMITS, Limits, MAX_FILE, MAX_FILES};
use crate::{DsdlFile, FolderError};
use cy_bits::List;
use cy_outside::Tree;
use std::alloc::Global;

/// The files below a folder whose path ends in `.dsdl`, in byte order of their path below it, each
/// with all its bytes.
///
/// Folders are listed in byte order of their path below the root, the root first. `TooBig` names
/// the folder whose listing brings the entries of all folders together past `MAX_ENTRIES`; else the
/// first file in the order of paths that is past the count of `MAX_FILES` or has more than
/// `MAX_FILE` bytes. `NotFolder` comes exactly where the root is no folder of the tree. `Failed`
/// comes only where the tree failed in this call. The tree is called at most once for the root and
/// for each folder below it, and for each file as often as `read_file` says.
///
/// A listed file that the tree then answers as absent or as a folder counts as an empty file, and a
/// listed folder that is then absent or no folder as an empty one. A name that a listing repeats
/// counts as its first entry.
pub fn read_folder<T: Tree>(
    alloc: Global,
    tree: &mut T,
    root: &str,
) -> Result<List<DsdlFile>, FolderError>
    ensures files { T.files tree.new ≡ T.files tree.old }
    ensures answer { IfSome (T.files tree.old)
        (λ files. IsAnswer (files_of_folder files root.now) result) }
    ensures complete { ¬ Rose (T.faults tree.old) (T.faults tree.new)
        → IfSome (T.files tree.old)
        (λ files. (result ≡ files_of_folder files root.now) ⊎ (result ≡ Err FolderError.NoMemory)) }
    ensures ascending { IfOk result (λ files. IsAscending (map (λ file. file.path) files)) }
    ensures count_limit { IfOk result (λ files. length files ≤ MAX_FILES) }
    ensures size_limit { IfOk result (All (λ file. length file.text ≤ MAX_FILE)) }
    ensures cause { HasFolderCause (T.faults tree.old) (T.faults tree.new) result }
    ensures count { T.faults tree.old ≤ T.faults tree.new }
    ensures calls { IfSome (T.files tree.old)
        (λ files. T.calls tree.new ≤ T.calls tree.old + calls_of_folder files root.now) }
{
    read_within(alloc, tree, root, LIMITS)
}

/// The same within other limits.
pub fn read_within<T: Tree>(
    alloc: Global,
    tree: &mut T,
    root: &str,
    limits: Limits,
) -> Result<List<DsdlFile>, FolderError>
    ensures files { T.files tree.new ≡ T.files tree.old }
    ensures answer { IfSome (T.files tree.old)
        (λ files. IsAnswer (files_within limits files root.now) result) }
    ensures ascending { IfOk result (λ files. IsAscending (map (λ file. file.path) files)) }
    ensures count_limit { IfOk result (λ files. length files ≤ limits.files) }
    ensures size_limit { IfOk result (All (λ file. length file.text ≤ limits.bytes)) }
    ensures cause { HasFolderCause (T.faults tree.old) (T.faults tree.new) result }
    ensures count { T.faults tree.old ≤ T.faults tree.new }
    ensures calls { IfSome (T.files tree.old)
        (λ files. T.calls tree.new ≤ T.calls tree.old + calls_within limits files root.now) }
{
    let paths = find_files(alloc, tree, root, limits.entries)?;
    read_files(alloc, tree, root, &paths, limits)
}
