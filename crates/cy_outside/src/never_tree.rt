ghost use Rattle.std.specs.Prelude.{◌≡◌, ◌-◌, true, false, length, take, drop, min, MatchOption, IfOk};
ghost use Rattle.std.specs.Option.{option_copied};
ghost use Rattle.std.specs.FinMap as map;
ghost use Rattle.cy_outside.specs.Files.{is_folder, has_clash, ListsMembers};
ghost use Rattle.cy_outside.specs.Memory.{files_of};

use crate::paths::{first_name, has_name, is_below, rest_in};
use crate::{Entry, File, Got, Listing, Size, Tree, TreeError};
use cy_bits::{List, NoMemory, Text};
use std::alloc::Global;

/// Files in memory, of which no call fails. No file's path is a folder. It doesn't count its calls.
#[derive(Drop)]
pub struct NeverTree {
    /// The files, in any order. Where a path stands twice, the first counts.
    pub files: List<File>,
    ghost apart: { has_clash (files_of files) ≡ false },
}

impl NeverTree {
    /// A tree of these files, or `None` where some file's path is a folder.
    pub fn new(files: List<File>) -> Option<NeverTree>
        ensures { MatchOption result (has_clash (files_of files) ≡ true)
            (λ tree. tree.files ≡ files) }
    {
        if has_clash(files.as_slice()) {
            None
        } else {
            Some(NeverTree { files })
        }
    }
}

impl Tree for NeverTree {
    ghost use Rattle.std.specs.Prelude.{Some, ◌^◌};

    ghost files = { λ t. Some (files_of t.files) };

    ghost faults = { λ _. 0 };

    ghost calls = { λ _. 2 ^ 64 - 1 };

    fn list(&mut self, alloc: Global, path: &str) -> Result<Listing, TreeError> {
        let files = self.files.as_slice();
        if is_folder(files, path) {
            match members(files, alloc, path) {
                Ok(entries) => Ok(Listing::Entries(entries)),
                Err(NoMemory) => Err(TreeError::NoMemory),
            }
        } else if find(files, path).is_some() {
            Ok(Listing::NotFolder)
        } else {
            Ok(Listing::Absent)
        }
    }

    fn read_at(&mut self, path: &str, offset: u64, buf: &mut [u8]) -> Result<Got, TreeError> {
        let files = self.files.as_slice();
        match find(files, path) {
            Some(bytes) => Ok(Got::Bytes(copy_from(bytes, offset, buf))),
            None if is_folder(files, path) => Ok(Got::Folder),
            None => Ok(Got::Absent),
        }
    }

    fn size(&mut self, path: &str) -> Result<Size, TreeError> {
        let files = self.files.as_slice();
        match find(files, path) {
            Some(bytes) => Ok(Size::File(bytes.len() as u64)),
            None if is_folder(files, path) => Ok(Size::Folder),
            None => Ok(Size::Absent),
        }
    }
}

/// The bytes of the file at a path.
fn find<'a>(files: &'a [File], path: &str) -> Option<&'a [u8]>
    ensures { option_copied result ≡ map.get (files_of files.now) path.now }
{
    for file in files {
        if file.path.as_str() == path {
            return Some(file.bytes.as_slice());
        }
    }
    None
}

/// Whether some file's path begins with this path and `/`.
fn is_folder(files: &[File], path: &str) -> bool
    ensures { result ≡ is_folder (files_of files.now) path.now }
{
    files.iter().any(|file| is_below(path, file.path.as_str()))
}

/// Whether some file's path is a folder.
fn has_clash(files: &[File]) -> bool
    ensures { result ≡ has_clash (files_of files.now) }
{
    files
        .iter()
        .any(|file| is_folder(files, file.path.as_str()))
}

/// Puts as many bytes from an offset on at the buffer's front as there are and the buffer takes.
fn copy_from(bytes: &[u8], offset: u64, buf: &mut [u8]) -> usize
    ensures count { result ≡ min (length buf.old) (length bytes.now - offset) }
    ensures front { take result buf.new ≡ take result (drop offset bytes.now) }
    ensures behind { drop result buf.new ≡ drop result buf.old }
{
    if offset >= bytes.len() as u64 {
        return 0;
    }
    let rest = &bytes[offset as usize..];
    let n = buf.len().min(rest.len());
    buf[..n].copy_from_slice(&rest[..n]);
    n
}

/// The direct members of a folder. No file's path is a folder.
fn members(files: &[File], alloc: Global, path: &str) -> Result<List<Entry>, NoMemory>
    requires { has_clash (files_of files.now) ≡ false }
    ensures { IfOk result (ListsMembers (files_of files.now) path.now) }
{
    let mut entries = List::empty(alloc);
    for file in files {
        let Some(rest) = rest_in(path, file.path.as_str()) else {
            continue;
        };
        let (name, folder) = first_name(rest);
        if !has_name(entries.as_slice(), name) {
            let name = Text::from_str(alloc, name)?;
            entries.push(Entry { name, folder })?;
        }
    }
    Ok(entries)
}
