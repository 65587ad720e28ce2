//! A file of the system that is kept open, so that its pieces are of one file.
ghost use Rattle.std.specs.Prelude.{◌≡◌, ◌<◌, ◌≤◌, length, take, drop, IfOk};
ghost use Rattle.std.specs.Io.KnownBytes.{Consumes, IsAtEnd};

use crate::real::{PIECE, read_piece};
use crate::retried::open_retried;
use std::fs::{Metadata, OpenFile};
use std::io::{self, ErrorKind, Read, Seek, SeekFrom};
use std::os::unix::fs::MetadataExt;
use std::rt::Files;

/// A time that the system tells, since 1970.
#[derive(Clone, Copy, PartialEq, Eq)]
struct Time {
    /// The whole seconds.
    seconds: i64,
    /// The nanoseconds behind them.
    nanos: i64,
}

/// Which file it is, and what changes where it is written.
#[derive(Clone, Copy)]
struct Version {
    /// The device that the file is on.
    device: u64,
    /// The file's number there.
    inode: u64,
    /// The file's size in bytes.
    len: u64,
    /// The time of its last write.
    written: Time,
    /// The time of the last change of what the system tells of it.
    changed: Time,
    /// How many names it has.
    links: u64,
}

impl Version {
    /// The version that these data tell.
    fn of(metadata: &Metadata) -> Version {
        Version {
            device: metadata.dev(),
            inode: metadata.ino(),
            len: metadata.len(),
            written: Time {
                seconds: metadata.mtime(),
                nanos: metadata.mtime_nsec(),
            },
            changed: Time {
                seconds: metadata.ctime(),
                nanos: metadata.ctime_nsec(),
            },
            links: metadata.nlink(),
        }
    }

    /// Whether the same bytes stand there, as far as the data tell. A file that gets or loses a
    /// name is changed at that time too, and its bytes aren't.
    fn has_bytes_of(&self, before: &Version) -> bool {
        let is_renamed = self.links != before.links || self.links == 0;
        self.device == before.device
            && self.inode == before.inode
            && self.len == before.len
            && self.written == before.written
            && (is_renamed || self.changed == before.changed)
    }
}

/// A regular file that is open, and the place in it where a read goes on.
#[derive(Drop)]
pub struct Opened<F> {
    /// The file.
    file: F,
    /// Where the next read goes on, in bytes.
    offset: u64,
    /// The version that it had right after it was opened.
    version: Version,
    /// Whether the last read filled a whole piece, as those of a file that is read in pieces do.
    in_pieces: bool,
}

/// What is found where a file is opened.
#[derive(Drop)]
pub enum Found<F> {
    /// A regular file, which is open now.
    File(Opened<F>),
    /// A folder.
    Folder,
    /// Something else than these.
    Absent,
}

/// Opens a regular file at an offset.
pub fn open_at<R: Files>(rt: &R, path: &str, offset: u64) -> io::Result<Found<R::File>> {
    let mut file = open_retried(rt, path)?;
    let metadata = file.metadata()?;
    if metadata.is_dir() {
        return Ok(Found::Folder);
    }
    if !metadata.is_file() {
        return Ok(Found::Absent);
    }
    if offset > 0 {
        file.seek(SeekFrom::Start(offset))?;
    }
    Ok(Found::File(Opened {
        file,
        offset,
        version: Version::of(&metadata),
        in_pieces: false,
    }))
}

impl<F> Opened<F> {
    /// Whether a read from this offset on goes on where the last one ended.
    pub fn goes_on(&self, offset: u64) -> bool {
        self.offset == offset
    }

    /// Whether the last read filled a whole piece, as those of a file that is read in pieces do.
    pub fn is_in_pieces(&self) -> bool {
        self.in_pieces
    }

    /// Whether these data are of this file, whose bytes stand as they did when it was opened, as far
    /// as the data tell.
    pub fn is_told_by(&self, metadata: &Metadata) -> bool {
        Version::of(metadata).has_bytes_of(&self.version)
    }

    /// Whether the next read would find the file's end, as its size tells.
    pub fn is_at_end(&self) -> bool {
        self.version.len <= self.offset
    }

    /// How much of so much room the file fills from here on, as its size tells: it isn't asked once
    /// more whether it ends where it should. A file without a size, as the system makes up, may
    /// fill all.
    fn told(&self, room: usize) -> usize
        ensures { result ≤ room }
    {
        if self.version.len == 0 {
            return room;
        }
        let left = self.version.len.saturating_sub(self.offset);
        match usize::try_from(left) {
            Ok(left) => left.min(room),
            Err(_) => room,
        }
    }
}

impl<F: Read + OpenFile> Opened<F> {
    /// Reads on until the buffer is full or the file ends. The rest of the buffer stays. That the
    /// file was written since it was opened is an error, as far as its size and its times tell.
    pub fn read_on(&mut self, buf: &mut [u8]) -> io::Result<usize>
        ensures bytes { IfOk result (λ n.
            Consumes (F.remaining self.old.file) (F.remaining self.new.file) (take n buf.new)) }
        ensures within { IfOk result (λ n. n ≤ length buf.old) }
        ensures behind { IfOk result (λ n. drop n buf.new ≡ drop n buf.old) }
    {
        let told = self.told(buf.len());
        let n = fill(&mut self.file, &mut buf[..told])?;
        self.check()?;
        self.offset = self.offset.saturating_add(n as u64);
        self.in_pieces = n == PIECE;
        Ok(n)
    }
}

impl<F: OpenFile> Opened<F> {
    /// That the file was written since it was opened is an error.
    fn check(&self) -> io::Result<()> {
        let version = Version::of(&self.file.metadata()?);
        if version.has_bytes_of(&self.version) {
            Ok(())
        } else {
            Err(io::Error::from(ErrorKind::ResourceBusy))
        }
    }
}

/// Reads on until the buffer is full or the file ends. The rest of the buffer stays.
fn fill<F: Read>(file: &mut F, buf: &mut [u8]) -> io::Result<usize>
    ensures bytes { IfOk result (λ n.
        Consumes (F.remaining file.old) (F.remaining file.new) (take n buf.new)) }
    ensures end { IfOk result (λ n. n < length buf.old → IsAtEnd (F.remaining file.new)) }
    ensures within { IfOk result (λ n. n ≤ length buf.old) }
    ensures behind { IfOk result (λ n. drop n buf.new ≡ drop n buf.old) }
{
    let mut done = 0;
    'pieces: while done < buf.len() {
        let n = read_piece(file, &mut buf[done..])?;
        if n == 0 {
            break;
        }
        done += n;
    }
    Ok(done)
}
