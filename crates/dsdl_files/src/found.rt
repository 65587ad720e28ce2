ghost use Rattle.std.specs.Prelude.{◌≡◌, ◌≤◌, ◌+◌, true, length, IfOk, IfErr, OnOk, IfSome};
ghost use Rattle.std.specs.List.{All};
ghost use Rattle.dsdl_files.specs.Causes.{HasFolderCause};
ghost use Rattle.dsdl_files.specs.Order.{IsAscending};
ghost use Rattle.dsdl_files.specs.Folders.{is_below, listings_of};
ghost use Rattle.dsdl_files.specs.Steps.{Adds, Finds, IsRefused, is_subfolder, is_dsdl_member};

use crate::FolderError;
use crate::listing::list_folder;
use crate::paths::Paths;
use crate::places::{inside, is_dsdl, name_below};
use cy_bits::{List, NoMemory, Text};
use cy_outside::{Entry, Tree};
use std::alloc::Global;

/// What was found of a folder so far.
#[derive(Drop)]
pub struct Found {
    /// How many more entries there may be.
    pub room: usize,
    /// The folders that are still to be listed.
    pub folders: Paths,
    /// The DSDL files.
    pub files: Paths,
}

impl Found {
    /// Takes the direct members of a folder in, where there is room for them: else it is too big.
    pub fn take(
        &mut self,
        alloc: Global,
        root: &str,
        folder: &str,
        members: List<Entry>,
    ) -> Result<(), FolderError>
        ensures room { OnOk result (self.new.room + length members ≡ self.old.room) }
        ensures folders { OnOk result
            (Adds (is_subfolder folder.now) members self.old.folders self.new.folders) }
        ensures files { OnOk result
            (Adds (is_dsdl_member folder.now) members self.old.files self.new.files) }
        ensures len { OnOk result
            (length self.new.folders ≤ length self.old.folders + length members) }
        ensures refused { IfErr result (IsRefused root.now folder.now self.old.room members) }
    {
        if members.len() > self.room {
            let path = Text::from_str(alloc, name_below(root, folder))?;
            return Err(FolderError::TooBig { path });
        }
        self.room -= members.len();
        self.add(alloc, folder, members)?;
        Ok(())
    }

    /// Adds the direct members of a folder.
    fn add(&mut self, alloc: Global, folder: &str, members: List<Entry>) -> Result<(), NoMemory>
        ensures room { OnOk result (self.new.room ≡ self.old.room) }
        ensures folders { OnOk result
            (Adds (is_subfolder folder.now) members self.old.folders self.new.folders) }
        ensures files { OnOk result
            (Adds (is_dsdl_member folder.now) members self.old.files self.new.files) }
        ensures len { OnOk result
            (length self.new.folders ≤ length self.old.folders + length members) }
    {
        for member in members.as_slice() {
            let path = inside(alloc, folder, member.name.as_str())?;
            if member.folder {
                self.folders.insert(path)?;
            } else if is_dsdl(&path) {
                self.files.insert(path)?;
            }
        }
        Ok(())
    }
}

/// The paths of the DSDL files below a folder, in byte order.
pub fn find_files<T: Tree>(
    alloc: Global,
    tree: &mut T,
    root: &str,
    entries: usize,
) -> Result<List<Text>, FolderError>
    ensures files { T.files tree.new ≡ T.files tree.old }
    ensures ascending { IfOk result IsAscending }
    ensures below { IfOk result (All (λ path. is_below root.now path ≡ true)) }
    ensures found { IfSome (T.files tree.old) (λ files. Finds files root.now entries result) }
    ensures cause { HasFolderCause (T.faults tree.old) (T.faults tree.new) result }
    ensures count { T.faults tree.old ≤ T.faults tree.new }
    ensures calls { IfSome (T.files tree.old)
        (λ files. T.calls tree.new ≤ T.calls tree.old + listings_of files root.now) }
{
    let Some(members) = list_folder(alloc, tree, root)? else {
        return Err(FolderError::NotFolder);
    };
    let mut found = Found {
        room: entries,
        folders: Paths::new(alloc),
        files: Paths::new(alloc),
    };
    found.take(alloc, root, root, members)?;
    while let Some(folder) = found.folders.pop_first() {
        if let Some(members) = list_folder(alloc, tree, &folder)? {
            found.take(alloc, root, &folder, members)?;
        }
    }
    Ok(found.files.into_texts(alloc)?)
}
