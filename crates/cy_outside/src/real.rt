ghost use Rattle.std.specs.Prelude.{◌≡◌, ◌<◌, ◌≤◌, None, length, drop, IfOk, MatchResult};
ghost use Rattle.std.specs.Io.KnownBytes.{ReadConsumes, WriteAppends};
ghost use Rattle.cy_outside.specs.Calls.{one_more};
ghost use Rattle.cy_outside.specs.Outside.{HasCause};

use crate::retried::{read_retried, write_retried};
use crate::{Failed, Sink, Source};
use std::io::{self, Read, Write};

/// The most bytes that one read of a real input or file takes.
pub const PIECE: usize = 8192;

/// A real input. It tells nothing of its bytes. A read that a signal interrupts is made again; each
/// other error of a read counts as a fault, also that an input that doesn't block has nothing yet.
#[derive(Drop)]
pub struct RealSource<R> {
    /// Where the bytes come from.
    pub reader: R,
    /// How many reads gave an error, up to 2^64 - 1.
    pub faults: u64,
}

impl<R> RealSource<R> {
    /// Reads from this reader.
    pub fn new(reader: R) -> RealSource<R>
        ensures reader { result.reader ≡ reader }
        ensures faults { result.faults ≡ 0 }
    {
        RealSource { reader, faults: 0 }
    }

    /// Counts a fault.
    fn fail(&mut self) -> Failed
        ensures reader { self.new.reader ≡ self.old.reader }
        ensures faults { self.new.faults ≡ one_more self.old.faults }
        ensures grows { self.old.faults ≤ self.new.faults }
    {
        self.faults = self.faults.saturating_add(1);
        Failed
    }
}

impl<R: Read> RealSource<R> {
    /// One read, of at most a piece. The bytes at the buffer's front are those that the reader
    /// gave. `Source::read` is this call.
    pub fn counted_read(&mut self, buf: &mut [u8]) -> Result<usize, Failed>
        ensures bytes { ReadConsumes (R.remaining self.old.reader) (R.remaining self.new.reader)
            result buf.new }
        ensures faults { MatchResult result
            (λ _. self.new.faults ≡ self.old.faults)
            (λ _. self.new.faults ≡ one_more self.old.faults) }
        ensures within { IfOk result (λ n. n ≤ length buf.old) }
        ensures behind { IfOk result (λ n. drop n buf.new ≡ drop n buf.old) }
        ensures cause { HasCause self.old.faults self.new.faults result }
        ensures count { self.old.faults ≤ self.new.faults }
    {
        match read_piece(&mut self.reader, buf) {
            Ok(n) => Ok(n),
            Err(_) => Err(self.fail()),
        }
    }

    /// The same into the buffer itself, of which the rest may change. `Source::read_over` is this
    /// call.
    pub fn counted_read_over(&mut self, buf: &mut [u8]) -> Result<usize, Failed>
        ensures bytes { ReadConsumes (R.remaining self.old.reader) (R.remaining self.new.reader)
            result buf.new }
        ensures faults { MatchResult result
            (λ _. self.new.faults ≡ self.old.faults)
            (λ _. self.new.faults ≡ one_more self.old.faults) }
        ensures within { IfOk result (λ n. n ≤ length buf.old) }
        ensures cause { HasCause self.old.faults self.new.faults result }
        ensures count { self.old.faults ≤ self.new.faults }
    {
        let room = buf.len().min(PIECE);
        match read_retried(&mut self.reader, &mut buf[..room]) {
            Ok(n) => Ok(n),
            Err(_) => Err(self.fail()),
        }
    }
}

impl<R: Read> Source for RealSource<R> {
    ghost left = { λ _. None };

    ghost faults = { λ s. s.faults };

    fn read(&mut self, buf: &mut [u8]) -> Result<usize, Failed> {
        self.counted_read(buf)
    }

    fn read_over(&mut self, buf: &mut [u8]) -> Result<usize, Failed> {
        self.counted_read_over(buf)
    }
}

/// Reads once, at most a piece. Nobody says what a reader leaves behind the bytes that it gave, so
/// it reads into an array, and the rest of the buffer stays.
pub(crate) fn read_piece<R: Read>(reader: &mut R, buf: &mut [u8]) -> io::Result<usize>
    ensures bytes { ReadConsumes (R.remaining reader.old) (R.remaining reader.new) result buf.new }
    ensures within { IfOk result (λ n. n ≤ length buf.old) }
    ensures behind { IfOk result (λ n. drop n buf.new ≡ drop n buf.old) }
{
    let mut piece = [0u8; PIECE];
    let room = buf.len().min(PIECE);
    let n = read_retried(reader, &mut piece[..room])?;
    buf[..n].copy_from_slice(&piece[..n]);
    Ok(n)
}

/// A real output. It tells nothing of its bytes. A write that a signal interrupts is made again;
/// each other error of a write counts as a fault, and so does a write that takes none of some
/// bytes.
#[derive(Drop)]
pub struct RealSink<W> {
    /// Where the bytes go.
    pub writer: W,
    /// How many writes failed, up to 2^64 - 1.
    pub faults: u64,
}

impl<W> RealSink<W> {
    /// Writes to this writer.
    pub fn new(writer: W) -> RealSink<W>
        ensures writer { result.writer ≡ writer }
        ensures faults { result.faults ≡ 0 }
    {
        RealSink { writer, faults: 0 }
    }
}

impl<W: Write> RealSink<W> {
    /// One write: the number is that of the bytes that the writer took, where it tells them.
    /// `Sink::write` is this call.
    pub fn counted_write(&mut self, bytes: &[u8]) -> Result<usize, Failed>
        ensures bytes { WriteAppends (W.contents self.old.writer) (W.contents self.new.writer)
            result bytes.now }
        ensures faults { MatchResult result
            (λ _. self.new.faults ≡ self.old.faults)
            (λ _. self.new.faults ≡ one_more self.old.faults) }
        ensures within { IfOk result (λ n. n ≤ length bytes.now) }
        ensures some { IfOk result (λ n. 0 < length bytes.now → 0 < n) }
        ensures cause { HasCause self.old.faults self.new.faults result }
        ensures count { self.old.faults ≤ self.new.faults }
    {
        match write_retried(&mut self.writer, bytes) {
            Ok(n) if n > 0 || bytes.is_empty() => Ok(n),
            _ => {
                self.faults = self.faults.saturating_add(1);
                Err(Failed)
            }
        }
    }
}

impl<W: Write> Sink for RealSink<W> {
    ghost written = { λ _. None };

    ghost faults = { λ s. s.faults };

    fn write(&mut self, bytes: &[u8]) -> Result<usize, Failed> {
        self.counted_write(bytes)
    }
}
