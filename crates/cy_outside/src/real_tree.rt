ghost use Rattle.std.specs.Prelude.{◌≡◌, ◌≤◌, ◌⊎◌, None, length, IfOk, IfErr, IfSome};
ghost use Rattle.cy_outside.specs.Calls.{one_more};
ghost use Rattle.cy_outside.specs.Causes.{CountsFault, HasTreeCause, IsWithin, IsLeft};

use crate::members::{is_absence, is_on_path, members, standing};
use crate::opened::{Found, Opened, open_at};
use crate::retried::metadata_retried;
use crate::{Got, Listing, Size, Tree, TreeError};
use arrayvec::ArrayString;
use std::alloc::Global;
use std::fs::Metadata;
use std::io::{self, ErrorKind};
use std::rt::Files;

/// The longest path that the system takes, in bytes.
const LONGEST_PATH: usize = 4096;

/// The files of the system. It tells nothing of them. Paths are taken as the system takes them,
/// relative to the current folder, and links are followed.
///
/// Where the system finds no such file, or a file where a path has a folder, nothing stands at the
/// path; and so it is where something else than a regular file or a folder stands, as a pipe or a
/// device, which isn't opened. None of these is listed. Every other error counts as a fault, but
/// for want of memory where a folder is listed.
///
/// A member of a folder that can't be looked at is listed as a file, and is a fault where it is
/// read: for want of rights, at a link that leads back to itself, or whose path is too long. So is
/// a folder that is one of those on the path to it, as far as the path names them: behind its last
/// `..`, if it has one. A name that isn't UTF-8 is listed too, with U+FFFD for what is none; no
/// path leads there.
///
/// A file is the one that its path leads to when it is opened. The one that was read last is kept
/// open until it was read to its end, and a read that goes on where one of a whole piece of 8,192
/// bytes ended reads that file, also where another has come to its path: pieces in a row are of one
/// file. Behind any other read it is taken only where its path still leads to it and its bytes stand
/// as they did. That it is written while it is read in pieces is a fault. Its size, the time of its
/// last write and that of its last change tell both: a write that leaves all three as they were isn't
/// seen. Where the file got or lost a name meanwhile, the time of its last change tells nothing.
#[derive(Drop)]
pub struct RealTree<'a, R: Files> {
    /// The runtime, which reaches the files.
    pub rt: &'a R,
    /// How many calls answered `TreeError::Failed`, up to 2^64 - 1.
    pub faults: u64,
    /// How many calls there were, up to 2^64 - 1.
    pub calls: u64,
    /// The file that was read last.
    opened: Option<Opened<R::File>>,
    /// The path that it was opened at.
    path: ArrayString<LONGEST_PATH>,
}

impl<'a, R: Files> RealTree<'a, R> {
    /// The files that this runtime reaches.
    pub fn new(rt: &'a R) -> RealTree<'a, R>
        ensures rt { result.rt.now ≡ rt.now }
        ensures faults { result.faults ≡ 0 }
        ensures calls { result.calls ≡ 0 }
    {
        RealTree {
            rt,
            faults: 0,
            calls: 0,
            opened: None,
            path: ArrayString::new(),
        }
    }

    /// Counts a fault.
    fn fail(&mut self) -> TreeError
        ensures error { result ≡ TreeError.Failed }
        ensures faults { self.new.faults ≡ one_more self.old.faults }
        ensures grows { self.old.faults ≤ self.new.faults }
        ensures calls { self.new.calls ≡ self.old.calls }
    {
        self.faults = self.faults.saturating_add(1);
        TreeError::Failed
    }

    /// Counts a call.
    fn count(&mut self)
        ensures calls { self.new.calls ≡ one_more self.old.calls }
        ensures faults { self.new.faults ≡ self.old.faults }
    {
        self.calls = self.calls.saturating_add(1);
    }

    /// The open file, where a read goes on in it where the last one ended.
    fn kept(&self, path: &str, offset: u64) -> Option<&Opened<R::File>> {
        match &self.opened {
            Some(opened) if opened.goes_on(offset) && self.path.as_str() == path => Some(opened),
            _ => None,
        }
    }

    /// Whether a read goes on where one of a whole piece ended.
    fn is_in_pieces(&self, path: &str, offset: u64) -> bool {
        match self.kept(path, offset) {
            Some(opened) => opened.is_in_pieces(),
            None => false,
        }
    }

    /// Whether a read goes on where the last one ended, in the file that these data are of.
    fn is_kept(&self, path: &str, offset: u64, metadata: &Metadata) -> bool {
        match self.kept(path, offset) {
            Some(opened) => opened.is_told_by(metadata),
            None => false,
        }
    }
}

impl<'a, R: Files> RealTree<'a, R> {
    /// Lists a folder. `Tree::list` is this call.
    pub fn counted_list(&mut self, alloc: Global, path: &str) -> Result<Listing, TreeError>
        ensures calls { self.new.calls ≡ one_more self.old.calls }
        ensures faults { CountsFault self.old.faults self.new.faults result }
        ensures cause { HasTreeCause self.old.faults self.new.faults result }
        ensures count { self.old.faults ≤ self.new.faults }
    {
        self.count();
        match members(self.rt, alloc, path) {
            Ok(listing) => Ok(listing),
            Err(error) if is_absence(&error) => Ok(Listing::Absent),
            Err(error) if error.kind() == ErrorKind::OutOfMemory => Err(TreeError::NoMemory),
            Err(_) => Err(self.fail()),
        }
    }
}

impl<'a, R: Files> RealTree<'a, R> {
    /// Reads a file. `Tree::read_at` is this call.
    pub fn counted_read_at(
        &mut self,
        path: &str,
        offset: u64,
        buf: &mut [u8],
    ) -> Result<Got, TreeError>
        ensures calls { self.new.calls ≡ one_more self.old.calls }
        ensures faults { CountsFault self.old.faults self.new.faults result }
        ensures within { IfOk result (λ got. IsWithin got (length buf.old)) }
        ensures behind { IfOk result (λ got. IsLeft got buf.old buf.new) }
        ensures memory { IfErr result (λ error. error ≡ TreeError.Failed) }
        ensures cause { HasTreeCause self.old.faults self.new.faults result }
        ensures count { self.old.faults ≤ self.new.faults }
    {
        self.count();
        match self.find(path, offset) {
            Ok(None) => {}
            Ok(Some(got)) => return Ok(got),
            Err(error) if is_absence(&error) => return Ok(Got::Absent),
            Err(_) => return Err(self.fail()),
        }
        let room = buf.len();
        if let Some(opened) = &mut self.opened {
            if let Ok(n) = opened.read_on(buf) {
                if n < room || opened.is_at_end() {
                    self.opened = None;
                }
                return Ok(Got::Bytes(n));
            }
        }
        self.opened = None;
        Err(self.fail())
    }

    /// Finds the file at a path, which is open then at the offset; else answers what is there.
    ///
    /// What is no regular file isn't opened, for a pipe would be waited for.
    fn find(&mut self, path: &str, offset: u64) -> io::Result<Option<Got>>
        ensures calls { self.new.calls ≡ self.old.calls }
        ensures faults { self.new.faults ≡ self.old.faults }
        ensures no_bytes { IfOk result (λ found. IfSome found
            (λ got. (got ≡ Got.Absent) ⊎ (got ≡ Got.Folder))) }
    {
        if self.is_in_pieces(path, offset) {
            return Ok(None);
        }
        let looked = metadata_retried(self.rt, path);
        if let Ok(metadata) = &looked {
            if self.is_kept(path, offset, metadata) {
                return Ok(None);
            }
        }
        self.opened = None;
        let metadata = looked?;
        if metadata.is_dir() {
            return folder_at(self.rt, path, &metadata);
        }
        if !metadata.is_file() {
            return Ok(Some(Got::Absent));
        }
        match open_at(self.rt, path, offset)? {
            Found::File(opened) => {
                self.path.clear();
                if self.path.try_push_str(path).is_err() {
                    return Err(io::Error::from(ErrorKind::InvalidFilename));
                }
                self.opened = Some(opened);
                Ok(None)
            }
            Found::Folder => Ok(Some(Got::Folder)),
            Found::Absent => Ok(Some(Got::Absent)),
        }
    }

    /// Finds a size. `Tree::size` is this call.
    pub fn counted_size(&mut self, path: &str) -> Result<Size, TreeError>
        ensures calls { self.new.calls ≡ one_more self.old.calls }
        ensures faults { CountsFault self.old.faults self.new.faults result }
        ensures memory { IfErr result (λ error. error ≡ TreeError.Failed) }
        ensures cause { HasTreeCause self.old.faults self.new.faults result }
        ensures count { self.old.faults ≤ self.new.faults }
    {
        self.count();
        match standing(self.rt, path) {
            Ok(size) => Ok(size),
            Err(_) => Err(self.fail()),
        }
    }
}

impl<'a, R: Files> Tree for RealTree<'a, R> {
    ghost files = { λ _. None };

    ghost faults = { λ t. t.faults };

    ghost calls = { λ t. t.calls };

    fn list(&mut self, alloc: Global, path: &str) -> Result<Listing, TreeError> {
        self.counted_list(alloc, path)
    }

    fn read_at(&mut self, path: &str, offset: u64, buf: &mut [u8]) -> Result<Got, TreeError> {
        self.counted_read_at(path, offset, buf)
    }

    fn size(&mut self, path: &str) -> Result<Size, TreeError> {
        self.counted_size(path)
    }
}

/// What a read answers where a folder stands. That it is one of those on the path to it is an
/// error: it was listed as a file.
fn folder_at<R: Files>(rt: &R, path: &str, metadata: &Metadata) -> io::Result<Option<Got>>
    ensures { IfOk result (λ found. IfSome found (λ got. got ≡ Got.Folder)) }
{
    match path.rsplit_once('/') {
        Some((folder, name)) if name != ".." && is_on_path(rt, folder, metadata) => {
            Err(io::Error::from(ErrorKind::FilesystemLoop))
        }
        _ => Ok(Some(Got::Folder)),
    }
}
