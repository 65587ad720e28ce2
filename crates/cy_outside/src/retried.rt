//! Calls of the system that are made again where a signal interrupts them, as std's own readers do.
ghost use Rattle.std.specs.Prelude.{◌≤◌, length, IfOk};
ghost use Rattle.std.specs.Io.KnownBytes.{ReadConsumes, WriteAppends};

use std::fs::{self, Metadata};
use std::io::{self, ErrorKind, Read, Write};
use std::rt::Files;

/// One read, made again where a signal interrupts it.
pub fn read_retried<R: Read>(reader: &mut R, buf: &mut [u8]) -> io::Result<usize>
    ensures bytes { ReadConsumes (R.remaining reader.old) (R.remaining reader.new) result buf.new }
    ensures within { IfOk result (λ n. n ≤ length buf.old) }
{
    for _ in 0..u64::MAX {
        match reader.read(buf) {
            Ok(n) => return Ok(n),
            Err(error) if error.kind() == ErrorKind::Interrupted => {}
            Err(error) => return Err(error),
        }
    }
    Err(io::Error::from(ErrorKind::Interrupted))
}

/// One write, made again where a signal interrupts it.
pub fn write_retried<W: Write>(writer: &mut W, bytes: &[u8]) -> io::Result<usize>
    ensures bytes { WriteAppends (W.contents writer.old) (W.contents writer.new) result bytes.now }
    ensures within { IfOk result (λ n. n ≤ length bytes.now) }
{
    for _ in 0..u64::MAX {
        match writer.write(bytes) {
            Ok(n) => return Ok(n),
            Err(error) if error.kind() == ErrorKind::Interrupted => {}
            Err(error) => return Err(error),
        }
    }
    Err(io::Error::from(ErrorKind::Interrupted))
}

/// A look at what a path leads to, made again where a signal interrupts it.
pub fn metadata_retried<R: Files>(rt: &R, path: &str) -> io::Result<Metadata> {
    for _ in 0..u64::MAX {
        match fs::metadata(rt, path) {
            Ok(metadata) => return Ok(metadata),
            Err(error) if error.kind() == ErrorKind::Interrupted => {}
            Err(error) => return Err(error),
        }
    }
    Err(io::Error::from(ErrorKind::Interrupted))
}

/// Opens a file for reading, once more where a signal interrupts it.
pub fn open_retried<R: Files>(rt: &R, path: &str) -> io::Result<R::File> {
    for _ in 0..u64::MAX {
        match fs::open(rt, path) {
            Ok(file) => return Ok(file),
            Err(error) if error.kind() == ErrorKind::Interrupted => {}
            Err(error) => return Err(error),
        }
    }
    Err(io::Error::from(ErrorKind::Interrupted))
}

/// Opens a folder, once more where a signal interrupts it. It reads as its names.
pub fn open_dir_retried<R: Files>(rt: &R, path: &str) -> io::Result<R::Dir> {
    for _ in 0..u64::MAX {
        match rt.open_dir(path) {
            Ok(dir) => return Ok(dir),
            Err(error) if error.kind() == ErrorKind::Interrupted => {}
            Err(error) => return Err(error),
        }
    }
    Err(io::Error::from(ErrorKind::Interrupted))
}
