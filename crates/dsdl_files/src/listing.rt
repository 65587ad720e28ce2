ghost use Rattle.std.specs.Prelude.{◌≡◌, ◌≤◌, ◌+◌, IfOk, IfSome};
ghost use Rattle.dsdl_files.specs.Causes.{HasFolderCause, RefusesNothing};
ghost use Rattle.dsdl_files.specs.Steps.{ListsFolder, NamesDiffer, first_of_each};

use crate::FolderError;
use crate::paths::Paths;
use cy_bits::{List, NoMemory};
use cy_outside::{Entry, Listing, Tree};
use std::alloc::Global;

/// The direct members of a folder, of each name the first; `None` where there is no folder.
pub fn list_folder<T: Tree>(
    alloc: Global,
    tree: &mut T,
    path: &str,
) -> Result<Option<List<Entry>>, FolderError>
    ensures files { T.files tree.new ≡ T.files tree.old }
    ensures lists { IfOk result (λ members. ListsFolder (T.files tree.old) path.now members) }
    ensures differ { IfOk result (λ members. IfSome members NamesDiffer) }
    ensures refused { RefusesNothing result }
    ensures cause { HasFolderCause (T.faults tree.old) (T.faults tree.new) result }
    ensures count { T.faults tree.old ≤ T.faults tree.new }
    ensures calls { T.calls tree.new ≤ T.calls tree.old + 1 }
{
    match tree.list(alloc, path)? {
        Listing::Entries(entries) => Ok(Some(first_of_each(alloc, entries)?)),
        Listing::Absent | Listing::NotFolder => Ok(None),
    }
}

/// The first entry of each name, in their order. Where no name stands twice these are all.
fn first_of_each(alloc: Global, entries: List<Entry>) -> Result<List<Entry>, NoMemory>
    ensures firsts { IfOk result (λ firsts. firsts ≡ first_of_each entries) }
    ensures differ { IfOk result NamesDiffer }
    ensures same { IfOk result (λ firsts. NamesDiffer entries → firsts ≡ entries) }
{
    let mut names = Paths::new(alloc);
    let mut firsts = List::empty(alloc);
    for entry in entries.into_vec() {
        let name = String::from_str(alloc, entry.name.as_str())?;
        if names.insert(name)? {
            firsts.push(entry)?;
        }
    }
    Ok(firsts)
}
