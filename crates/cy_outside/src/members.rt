//! What a folder of the system holds.
ghost use Rattle.std.specs.Prelude.{◌≡◌};
ghost use Rattle.std.specs.IoError.{error_kind};
ghost use Rattle.cy_outside.specs.Absence.{is_absence};

use crate::retried::{metadata_retried, open_dir_retried, read_retried};
use crate::{Entry, Listing, PIECE, Size};
use cy_bits::{List, Text};
use std::alloc::Global;
use std::fs::Metadata;
use std::io::{self, ErrorKind};
use std::os::unix::fs::MetadataExt;
use std::rt::Files;

/// Whether an error says that nothing stands at a path.
pub fn is_absence(error: &io::Error) -> bool
    ensures { result ≡ is_absence (error_kind error.now) }
{
    matches!(error.kind(), ErrorKind::NotFound | ErrorKind::NotADirectory)
}

/// What stands at a path: nothing, where it is neither a regular file nor a folder.
pub fn standing<R: Files>(rt: &R, path: &str) -> io::Result<Size> {
    match metadata_retried(rt, path) {
        Ok(metadata) if metadata.is_dir() => Ok(Size::Folder),
        Ok(metadata) if metadata.is_file() => Ok(Size::File(metadata.len())),
        Ok(_) => Ok(Size::Absent),
        Err(error) if is_absence(&error) => Ok(Size::Absent),
        Err(error) => Err(error),
    }
}

/// Whether a folder is one of those on a path: the one that it leads to, or one that it goes
/// through. What stands in front of a `..` isn't asked: the path leaves it again.
pub fn is_on_path<R: Files>(rt: &R, path: &str, folder: &Metadata) -> bool {
    let mut front = path;
    for _ in 0..=path.len() {
        let above = if front.is_empty() { "/" } else { front };
        if let Ok(above) = metadata_retried(rt, above) {
            if above.dev() == folder.dev() && above.ino() == folder.ino() {
                return true;
            }
        }
        match front.rsplit_once('/') {
            Some((rest, name)) if name != ".." => front = rest,
            _ => return false,
        }
    }
    false
}

/// The direct members of a folder that are regular files or folders. One that can't be looked at is
/// told as a file, and so is a folder that is one of those on the path.
pub fn members<R: Files>(rt: &R, alloc: Global, path: &str) -> io::Result<Listing> {
    match standing(rt, path)? {
        Size::Folder => {}
        Size::File(_) => return Ok(Listing::NotFolder),
        Size::Absent => return Ok(Listing::Absent),
    }
    let mut inside = String::from_str(alloc, path)?;
    inside.push('/')?;
    let names = names_in(rt, alloc, inside.as_str())?;
    let mut entries = List::empty(alloc);
    for name in names.as_slice().split(|byte| *byte == 0) {
        if let Some(entry) = entry_of(rt, alloc, inside.as_str(), name)? {
            let Ok(()) = entries.push(entry) else {
                return Err(io::Error::from(ErrorKind::OutOfMemory));
            };
        }
    }
    Ok(Listing::Entries(entries))
}

/// The names in a folder, each with a zero behind it. The path ends in `/`, so that a link to a
/// folder is followed.
fn names_in<R: Files>(rt: &R, alloc: Global, path: &str) -> io::Result<Vec<u8>> {
    let mut folder = open_dir_retried(rt, path)?;
    let mut names = Vec::new(alloc);
    let mut piece = [0u8; PIECE];
    for _ in 0..u64::MAX {
        let n = read_retried(&mut folder, &mut piece)?;
        if n == 0 {
            return Ok(names);
        }
        names.extend_from_slice(&piece[..n])?;
    }
    Err(io::Error::from(ErrorKind::OutOfMemory))
}

/// The entry of a name in a folder, whose path ends in `/`. A name that isn't UTF-8 can't be looked
/// at; in it U+FFFD stands for what is none.
fn entry_of<R: Files>(
    rt: &R,
    alloc: Global,
    inside: &str,
    name: &[u8],
) -> io::Result<Option<Entry>> {
    if name.is_empty() || name == b".".as_slice() || name == b"..".as_slice() {
        return Ok(None);
    }
    let folder = match std::str::from_utf8(name) {
        Ok(name) => {
            let mut path = String::from_str(alloc, inside)?;
            path.push_str(name)?;
            let Some(folder) = is_folder(rt, inside, path.as_str()) else {
                return Ok(None);
            };
            folder
        }
        Err(_) => false,
    };
    let name = Text::new(String::from_utf8_lossy(alloc, name)?);
    Ok(Some(Entry { name, folder }))
}

/// Whether a member of a folder is to be listed as a folder, or as a file; `None` where it isn't to
/// be listed.
fn is_folder<R: Files>(rt: &R, inside: &str, path: &str) -> Option<bool> {
    match metadata_retried(rt, path) {
        Ok(metadata) if metadata.is_dir() => Some(!is_on_path(rt, inside, &metadata)),
        Ok(metadata) if metadata.is_file() => Some(false),
        Ok(_) => None,
        Err(error) if is_absence(&error) => None,
        Err(_) => Some(false),
    }
}
