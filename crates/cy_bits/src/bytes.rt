ghost use Rattle.std.specs.Prelude.{◌≡◌, ◌↔◌, IsTrue, ◌++◌, [], length, IfOk, OnOk, OnErr, List, ℕ, replicate};
ghost use Rattle.cy_bits.specs.Put.{put_at};

use crate::{NoMemory, TryCopy};
use std::alloc::Global;
use std::marker::Model;

/// Bytes, seen as a list.
#[derive(Drop)]
pub struct Bytes {
    bytes: Vec<u8>,
}

impl Model for Bytes {
    ghost Value = { List ℕ };

    ghost view = { λ b. b.bytes.items };
}

impl Bytes {
    /// Takes a `Vec` as it is, without memory.
    pub fn new(bytes: Vec<u8>) -> Bytes
        ensures { result ≡ bytes.items }
    {
        Bytes { bytes }
    }

    /// The same bytes, copied.
    pub fn from_slice(alloc: Global, bytes: &[u8]) -> Result<Bytes, NoMemory>
        ensures { IfOk result (λ b. b ≡ bytes.now) }
    {
        let bytes = Vec::from_slice(alloc, bytes)?;
        Ok(Bytes { bytes })
    }

    /// As many zeros.
    pub fn zeros(alloc: Global, count: usize) -> Result<Bytes, NoMemory>
        ensures { IfOk result (λ b. b ≡ replicate count 0) }
    {
        let bytes = vec![in alloc; 0u8; count]?;
        Ok(Bytes { bytes })
    }

    /// The bytes in a row.
    pub fn as_slice(&self) -> &[u8]
        ensures { result.now ≡ self.now }
    {
        self.bytes.as_slice()
    }

    /// Gives the `Vec` back, without memory.
    pub fn into_vec(self) -> Vec<u8>
        ensures { result.items ≡ self }
    {
        let Bytes { bytes } = self;
        bytes
    }

    /// The number of bytes.
    pub fn len(&self) -> usize
        ensures { result ≡ length self.now }
    {
        self.bytes.len()
    }

    /// Whether there is no byte.
    pub fn is_empty(&self) -> bool
        ensures { IsTrue result ↔ (self.now ≡ []) }
    {
        self.bytes.is_empty()
    }

    /// Appends bytes. Want of memory leaves them as they were.
    pub fn extend(&mut self, more: &[u8]) -> Result<(), NoMemory>
        ensures ok { OnOk result (self.new ≡ self.old ++ more.now) }
        ensures err { OnErr result (self.new ≡ self.old) }
    {
        self.bytes.extend_from_slice(more)?;
        Ok(())
    }

    /// Puts `piece` at a place, as far as the bytes reach. Their number stays.
    pub fn put_at(&mut self, place: usize, piece: &[u8])
        ensures bytes { self.new ≡ put_at self.old place piece.now }
        ensures len { length self.new ≡ length self.old }
    {
        put_at(self.bytes.as_mut_slice(), place, piece);
    }
}

impl TryCopy for Bytes {
    fn copy(&self, alloc: Global) -> Result<Bytes, NoMemory> {
        Bytes::from_slice(alloc, self.bytes.as_slice())
    }
}

/// Puts `piece` at a place of a buffer, as far as the buffer reaches. All other bytes stay.
pub fn put_at(buffer: &mut [u8], place: usize, piece: &[u8])
    ensures { buffer.new ≡ put_at buffer.old place piece.now }
{
    if place < buffer.len() {
        let room = buffer.len() - place;
        let n = room.min(piece.len());
        buffer[place..place + n].copy_from_slice(&piece[..n]);
    }
}
