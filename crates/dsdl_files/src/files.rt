ghost use Rattle.std.specs.Prelude.{◌≡◌, ◌≤◌, ◌+◌, length, map, IfOk, IfSome};
ghost use Rattle.std.specs.List.{All};
ghost use Rattle.cy_outside.specs.Files.{front_length, reads_of};
ghost use Rattle.dsdl_files.specs.Causes.{HasFolderCause, RefusesNothing};
ghost use Rattle.dsdl_files.specs.Folders.{name_below, reads_within};
ghost use Rattle.dsdl_files.specs.Steps.{ReadsAt, ReadsAll};

use crate::limits::Limits;
use crate::places::name_below;
use crate::{DsdlFile, FolderError};
use cy_bits::{Bytes, List, Text};
use cy_outside::{Tree, read_file};
use std::alloc::Global;

/// The files at these paths, in their order.
pub fn read_files<T: Tree>(
    alloc: Global,
    tree: &mut T,
    root: &str,
    paths: &List<Text>,
    limits: Limits,
) -> Result<List<DsdlFile>, FolderError>
    ensures files { T.files tree.new ≡ T.files tree.old }
    ensures read { IfSome (T.files tree.old)
        (λ files. ReadsAll files root.now limits paths.now result) }
    ensures names { IfOk result
        (λ files. map (λ file. file.path) files ≡ map (name_below root.now) paths.now) }
    ensures count_limit { IfOk result (λ files. length files ≤ limits.files) }
    ensures size_limit { IfOk result (All (λ file. length file.text ≤ limits.bytes)) }
    ensures cause { HasFolderCause (T.faults tree.old) (T.faults tree.new) result }
    ensures count { T.faults tree.old ≤ T.faults tree.new }
    ensures calls { IfSome (T.files tree.old) (λ files. T.calls tree.new
        ≤ T.calls tree.old + reads_within (limits.bytes + 1) files paths.now) }
{
    let mut files = List::empty(alloc);
    for path in paths.as_slice() {
        let path = path.as_str();
        if files.len() == limits.files {
            let path = Text::from_str(alloc, name_below(root, path))?;
            return Err(FolderError::TooBig { path });
        }
        let file = read(alloc, tree, root, path, limits.bytes as usize + 1)?;
        if file.text.len() > limits.bytes as usize {
            return Err(FolderError::TooBig { path: file.path });
        }
        files.push(file)?;
    }
    Ok(files)
}

/// The first bytes of the file at a path, and none where no file is there.
fn read<T: Tree>(
    alloc: Global,
    tree: &mut T,
    root: &str,
    path: &str,
    most: usize,
) -> Result<DsdlFile, FolderError>
    ensures files { T.files tree.new ≡ T.files tree.old }
    ensures path { IfOk result (λ file. file.path ≡ name_below root.now path.now) }
    ensures text { IfOk result (λ file. ReadsAt (T.files tree.old) path.now most file.text) }
    ensures refused { RefusesNothing result }
    ensures cause { HasFolderCause (T.faults tree.old) (T.faults tree.new) result }
    ensures count { T.faults tree.old ≤ T.faults tree.new }
    ensures calls { T.calls tree.new
        ≤ T.calls tree.old + reads_of (front_length (T.files tree.old) path.now most) }
{
    let name = Text::from_str(alloc, name_below(root, path))?;
    let text = match read_file(alloc, tree, path, most)? {
        Some(text) => text,
        None => Bytes::new(Vec::new(alloc)),
    };
    Ok(DsdlFile { path: name, text })
}
