ghost use Rattle.std.specs.Prelude.{◌≡◌, ◌≢◌, ◌≤◌, ◌+◌, ◌==◌, [], IfOk, OnErr};
ghost use Rattle.std_types.specs.Files.{FitsInfoReply};
ghost use Rattle.std_types.specs.Held.{HoldsBytes};
ghost use Rattle.file_service.specs.Paths.{place_of};
ghost use Rattle.file_service.specs.Causes.{IsKnown, TellsFault};
ghost use Rattle.file_service.specs.Replies.{IsInfo, IsListing, IsRead, ListsFolder, info, io_error, no_name, read_of};

use crate::codes::{INVALID, IO_ERROR, IS_DIRECTORY, NOT_FOUND, OK};
use crate::done::{ListDone, ReadDone};
use crate::listed::name_in;
use crate::place::{Place, place_of};
use cy_bits::{NoMemory, Text};
use cy_outside::{Got, Size, Tree, TreeError};
use std::alloc::Global;
use std_types::file::{FileError, InfoReply};

/// The files below a folder that a node serves.
///
/// A path is asked for as it stands below the root. One leading `/` is dropped; the empty path is
/// the root, a folder. A path is invalid where it holds a byte outside 20 to 7E hex, or a name that
/// is empty, `.` or `..`. Nothing is asked of the tree for an invalid path, nor by `read` and
/// `info` for the root, and else the tree is called once at most. No memory is kept between calls.
#[derive(Clone, Copy)]
pub struct Served<'a> {
    /// The path of the folder in the tree. There need not be such a folder.
    pub root: &'a str,
}

impl Served<'_> {
    /// Puts the bytes of a file from an offset on at the buffer's front, at most 256, and none past
    /// its end. The code is the first that holds: 22 for an invalid path, 5 where the tree failed,
    /// 2 where there is nothing, 21 where there is a folder, else 0.
    ///
    /// The buffer stays as it was for an invalid path, for the root and at want of memory; where
    /// the tree failed it may hold anything. Memory is never wanting for an invalid path, nor for
    /// the root.
    pub fn read<T: Tree>(
        &self,
        alloc: Global,
        tree: &mut T,
        path: &[u8],
        offset: u64,
        buf: &mut [u8; 256],
    ) -> Result<ReadDone, NoMemory>
        ensures files { T.files tree.new ≡ T.files tree.old }
        ensures answer { IfOk result (λ done. IsRead (T.files tree.old)
            (place_of self.now.root.now path.now) offset (read_of done buf.new)) }
        ensures within { IfOk result (λ done. done.count ≤ 256) }
        ensures cause { IfOk result (λ done.
            TellsFault (done.code == io_error) (T.faults tree.old) (T.faults tree.new)) }
        ensures unasked { IsKnown (place_of self.now.root.now path.now)
            → (tree.new ≡ tree.old) × (buf.new ≡ buf.old) }
        ensures memory { OnErr result ((tree.new ≡ tree.old) × (buf.new ≡ buf.old)) }
        ensures wanted { OnErr result (IsKnown (place_of self.now.root.now path.now) → ⊥) }
        ensures count { T.faults tree.old ≤ T.faults tree.new }
        ensures calls { T.calls tree.new ≤ T.calls tree.old + 1 }
    {
        let path = match place_of(alloc, self.root, path)? {
            Place::Invalid => return Ok(no_bytes(INVALID)),
            Place::Root => return Ok(no_bytes(IS_DIRECTORY)),
            Place::At(path) => path,
        };
        Ok(match tree.read_at(path.as_str(), offset, buf) {
            Ok(Got::Bytes(count)) => ReadDone { code: OK, count },
            Ok(Got::Folder) => no_bytes(IS_DIRECTORY),
            Ok(Got::Absent) => no_bytes(NOT_FOUND),
            Err(_) => no_bytes(IO_ERROR),
        })
    }

    /// The name with this number among those of a folder, in byte order and counted from 0. Names
    /// of more than 255 bytes, or with a byte outside 20 to 7E hex, are left out. It is empty past
    /// the last name, for an invalid path, and where there is no folder; where the tree failed it
    /// is empty too, and `failed` says so.
    ///
    /// Memory is never wanting for an invalid path.
    pub fn list<T: Tree>(
        &self,
        alloc: Global,
        tree: &mut T,
        path: &[u8],
        index: u32,
    ) -> Result<ListDone, NoMemory>
        ensures files { T.files tree.new ≡ T.files tree.old }
        ensures answer { IfOk result (λ done. IsListing (T.files tree.old) self.now.root.now
            (place_of self.now.root.now path.now) index done) }
        ensures fits { IfOk result (λ done. HoldsBytes 255 done.name) }
        ensures cause { IfOk result (λ done.
            TellsFault done.failed (T.faults tree.old) (T.faults tree.new)) }
        ensures unasked { place_of self.now.root.now path.now ≡ Place.Invalid
            → tree.new ≡ tree.old }
        ensures memory { OnErr result (T.faults tree.new ≡ T.faults tree.old) }
        ensures wanted { OnErr result (place_of self.now.root.now path.now ≢ Place.Invalid) }
        ensures count { T.faults tree.old ≤ T.faults tree.new }
        ensures calls { T.calls tree.new ≤ T.calls tree.old + 1 }
    {
        match place_of(alloc, self.root, path)? {
            Place::Invalid => Ok(no_name(alloc, false)),
            Place::Root => list_folder(alloc, tree, self.root, index),
            Place::At(folder) => list_folder(alloc, tree, folder.as_str(), index),
        }
    }

    /// What stands at a path. Of a file its size in bytes, kept to 2^40 - 1. The code is the first
    /// that holds: 22 for an invalid path, 5 where the tree failed, 2 where there is nothing, else
    /// 0.
    ///
    /// Memory is never wanting for an invalid path, nor for the root.
    pub fn info<T: Tree>(
        &self,
        alloc: Global,
        tree: &mut T,
        path: &[u8],
    ) -> Result<InfoReply, NoMemory>
        ensures files { T.files tree.new ≡ T.files tree.old }
        ensures answer { IfOk result (λ reply. IsInfo (T.files tree.old)
            (place_of self.now.root.now path.now) reply) }
        ensures fits { IfOk result (λ reply. FitsInfoReply reply) }
        ensures cause { IfOk result (λ reply.
            TellsFault (reply.error.value == io_error) (T.faults tree.old) (T.faults tree.new)) }
        ensures unasked { IsKnown (place_of self.now.root.now path.now) → tree.new ≡ tree.old }
        ensures memory { OnErr result (tree.new ≡ tree.old) }
        ensures wanted { OnErr result (IsKnown (place_of self.now.root.now path.now) → ⊥) }
        ensures count { T.faults tree.old ≤ T.faults tree.new }
        ensures calls { T.calls tree.new ≤ T.calls tree.old + 1 }
    {
        let path = match place_of(alloc, self.root, path)? {
            Place::Invalid => return Ok(info(INVALID, 0, false, false)),
            Place::Root => return Ok(info(OK, 0, false, true)),
            Place::At(path) => path,
        };
        Ok(match tree.size(path.as_str()) {
            Ok(Size::File(size)) => info(OK, size.min(GREATEST_SIZE), true, true),
            Ok(Size::Folder) => info(OK, 0, false, true),
            Ok(Size::Absent) => info(NOT_FOUND, 0, false, false),
            Err(_) => info(IO_ERROR, 0, false, false),
        })
    }
}

/// The greatest size that is told.
const GREATEST_SIZE: u64 = (1 << 40) - 1;

/// No bytes, for a reason.
fn no_bytes(code: u16) -> ReadDone
    ensures { result ≡ record { code = code; count = 0 } }
{
    ReadDone { code, count: 0 }
}

/// No name, and whether the tree failed.
fn no_name(alloc: Global, failed: bool) -> ListDone
    ensures { result ≡ no_name failed }
{
    let name = Text::new(String::new(alloc));
    ListDone { name, failed }
}

/// What is told of a file or a folder, or why nothing is.
fn info(code: u16, size: u64, file: bool, readable: bool) -> InfoReply
    ensures { result ≡ info code size file readable }
{
    InfoReply {
        error: FileError { value: code },
        size,
        unix_timestamp_of_last_modification: 0,
        is_file_not_directory: file,
        is_link: false,
        is_readable: readable,
        is_writeable: false,
    }
}

/// The name with a number among those of a folder.
fn list_folder<T: Tree>(
    alloc: Global,
    tree: &mut T,
    folder: &str,
    index: u32,
) -> Result<ListDone, NoMemory>
    ensures files { T.files tree.new ≡ T.files tree.old }
    ensures answer { IfOk result (λ done. ListsFolder (T.files tree.old) folder.now index done) }
    ensures fits { IfOk result (λ done. HoldsBytes 255 done.name) }
    ensures cause { IfOk result (λ done.
        TellsFault done.failed (T.faults tree.old) (T.faults tree.new)) }
    ensures memory { OnErr result (T.faults tree.new ≡ T.faults tree.old) }
    ensures count { T.faults tree.old ≤ T.faults tree.new }
    ensures calls { T.calls tree.new ≤ T.calls tree.old + 1 }
{
    match tree.list(alloc, folder) {
        Ok(listing) => {
            let name = name_in(alloc, listing, index)?;
            Ok(ListDone {
                name,
                failed: false,
            })
        }
        Err(TreeError::Failed) => Ok(no_name(alloc, true)),
        Err(TreeError::NoMemory) => Err(NoMemory),
    }
}
