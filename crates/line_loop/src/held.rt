//! The bytes that were taken and not yet answered.
ghost use Rattle.std.specs.Prelude.{◌≡◌, ◌≤◌, ◌<◌, length, take, IfOk, OnOk, OnErr};
ghost use Rattle.cy_outside.specs.Outside.{Rose};
ghost use Rattle.line_loop.specs.Input.{IsEnd, Took};

use cy_bits::NoMemory;
use cy_outside::{Failed, Source};
use std::alloc::Global;

/// The most bytes that one read takes.
pub const BLOCK: usize = 1 << 16;

/// Bytes in a buffer that grows.
#[derive(Drop)]
pub struct Held {
    buffer: Vec<u8>,
    start: usize,
    end: usize,
    ghost order: { start ≤ end },
    ghost within: { end ≤ length buffer.items },
}

#[tactic(auto, unfolding(crate::specs::Held::bytes_of, crate::specs::Held::room_of))]
impl Held {
    ghost use Rattle.std.specs.Prelude.{◌≡◌, ◌≤◌, ◌<◌, [], length, drop, IfOk, OnOk, OnErr};
    ghost use Rattle.cy_outside.specs.Outside.{Rose};
    ghost use Rattle.line_loop.specs.Held.{bytes_of, room_of, Fills};

    /// No bytes; takes no memory yet.
    pub fn new(alloc: Global) -> Held
        ensures { bytes_of result ≡ [] }
    {
        Held {
            buffer: Vec::new(alloc),
            start: 0,
            end: 0,
        }
    }

    /// The bytes.
    pub fn as_slice(&self) -> &[u8]
        ensures { result.now ≡ bytes_of self.now }
    {
        &self.buffer[self.start..self.end]
    }

    /// Lets the first `n` bytes go.
    pub fn skip(&mut self, n: usize)
        requires { n ≤ length (bytes_of self.old) }
        ensures { bytes_of self.new ≡ drop n (bytes_of self.old) }
    {
        self.start += n;
    }

    /// Moves the bytes to the buffer's front.
    fn to_front(&mut self)
        ensures bytes { bytes_of self.new ≡ bytes_of self.old }
        ensures front { self.new.start ≡ 0 }
    {
        let n = self.end - self.start;
        self.buffer.copy_within(self.start..self.end, 0);
        self.start = 0;
        self.end = n;
    }

    /// Takes memory for at least one byte more: for as many again, but no more than `most` bytes in
    /// all.
    fn grow(&mut self, most: usize) -> Result<(), NoMemory>
        requires { length (bytes_of self.old) < most }
        ensures bytes { bytes_of self.new ≡ bytes_of self.old }
        ensures room { OnOk result (0 < room_of self.new) }
    {
        self.to_front();
        let size = self.buffer.len();
        if self.end < size {
            return Ok(());
        }
        self.buffer.resize(larger(size, most), 0)?;
        Ok(())
    }

    /// Makes room behind the bytes, in a buffer of no more than `most` bytes.
    pub fn make_room(&mut self, most: usize) -> Result<(), NoMemory>
        requires { length (bytes_of self.old) < most }
        ensures bytes { bytes_of self.new ≡ bytes_of self.old }
        ensures room { OnOk result (0 < room_of self.new) }
    {
        if self.end < self.buffer.len() && self.start == 0 {
            return Ok(());
        }
        self.grow(most)
    }

    /// Takes at most `most` bytes of the input behind the bytes, as many as there is room for.
    pub fn read<L: Source>(&mut self, input: &mut L, most: usize) -> Result<usize, Failed>
        requires room { 0 < room_of self.old }
        ensures fills { IfOk result (Fills (bytes_of self.old) (bytes_of self.new)
            (L.left input.old) (L.left input.new) most) }
        ensures err { OnErr result ((bytes_of self.new ≡ bytes_of self.old)
            × (L.left input.new ≡ L.left input.old)) }
        ensures cause { OnErr result (Rose (L.faults input.old) (L.faults input.new)) }
        ensures kept { OnOk result (L.faults input.new ≡ L.faults input.old) }
    {
        let room = (self.buffer.len() - self.end).min(BLOCK).min(most);
        let from = self.end;
        let Ok(n) = read_some(input, &mut self.buffer[from..from + room]) else {
            return Err(Failed);
        };
        self.end = from + n;
        Ok(n)
    }
}

/// Twice as much as `size`, and at least a block, but no more than `most`.
fn larger(size: usize, most: usize) -> usize
    requires { size < most }
    ensures grows { size < result }
    ensures within { result ≤ most }
{
    size.saturating_add(size.max(BLOCK)).min(most)
}

/// Reads some bytes.
pub fn read_some<L: Source>(input: &mut L, piece: &mut [u8]) -> Result<usize, Failed>
    ensures within { IfOk result (λ n. n ≤ length piece.old) }
    ensures took { IfOk result (λ n. Took (L.left input.old) (L.left input.new)
        (take n piece.new)) }
    ensures end { IfOk result (λ n. n ≡ 0 → 0 < length piece.old → IsEnd (L.left input.new)) }
    ensures err { OnErr result (L.left input.new ≡ L.left input.old) }
    ensures cause { OnErr result (Rose (L.faults input.old) (L.faults input.new)) }
    ensures kept { OnOk result (L.faults input.new ≡ L.faults input.old) }
{
    let Ok(n) = input.read_over(piece) else {
        return Err(Failed);
    };
    Ok(n)
}
