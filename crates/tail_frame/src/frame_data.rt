//! The data of a frame.
ghost use Rattle.std.specs.Prelude.{◌≡◌, ◌≤◌, ◌<◌, ◌+◌, ◌++◌, ◌∷◌, [], length, take};

use arrayvec::ArrayVec;
use std::marker::Model;

/// The data of a frame, seen as the list of its bytes: at most 64.
///
/// Eight bytes are written as one block, so there is room for a block behind the 64. All of it holds
/// items at all times; those behind the data don't count.
#[derive(Drop)]
pub struct FrameData {
    room: ArrayVec<u8, 72>,
    size: usize,
}

impl Model for FrameData {
    ghost use Rattle.std.specs.Prelude.{◌≡◌, ◌≤◌, ℕ, List, length, take};
    ghost use Rattle.std.specs.Coded.{coded_list, coded_ℕ};

    ghost Value = { List ℕ };

    ghost coded = { coded_list coded_ℕ };

    ghost view = { λ d. take d.size d.room.items };

    ghost invariant = { λ d. (d.size ≤ 64) × (length d.room.items ≡ 72) };
}

impl FrameData {
    /// No bytes.
    pub fn new() -> FrameData
        ensures { result ≡ [] }
    {
        FrameData {
            room: ArrayVec::from_array_in((), [0; 72]),
            size: 0,
        }
    }

    /// The bytes in a row.
    #[inline(always)]
    pub fn as_slice(&self) -> &[u8]
        ensures value { result.now ≡ self.now }
        ensures short { length self.now ≤ 64 }
    {
        &self.room.as_slice()[..self.size]
    }

    /// 72 bytes that begin with the data; what stands behind it means nothing.
    #[inline(always)]
    pub fn room(&self) -> &[u8]
        ensures front { take (length self.now) result.now ≡ self.now }
        ensures length { length result.now ≡ 72 }
    {
        self.room.as_slice()
    }

    /// Drops all bytes.
    #[inline(always)]
    pub fn clear(&mut self)
        ensures { self.new ≡ [] }
    {
        self.size = 0;
    }

    /// Appends a byte. There is room for it.
    #[inline(always)]
    pub fn push(&mut self, byte: u8)
        requires { length self.old < 64 }
        ensures { self.new ≡ self.old ++ byte ∷ [] }
    {
        let size = self.size;
        self.room.as_mut_slice()[size] = byte;
        self.size = size + 1;
    }

    /// Appends the first `n` bytes of a block, at most 8. There is room for them.
    #[inline(always)]
    pub fn put(&mut self, block: &[u8; 8], n: usize)
        requires few { n ≤ 8 }
        requires room { length self.old + n ≤ 64 }
        ensures { self.new ≡ self.old ++ take n block.now }
    {
        let size = self.size;
        self.room.as_mut_slice()[size..size + 8].copy_from_slice(block);
        self.size = size + n;
    }

    /// Appends bytes. There is room for them.
    pub fn extend(&mut self, bytes: &[u8])
        requires { length self.old + length bytes.now ≤ 64 }
        ensures { self.new ≡ self.old ++ bytes.now }
    {
        let size = self.size;
        let end = size + bytes.len();
        self.room.as_mut_slice()[size..end].copy_from_slice(bytes);
        self.size = end;
    }
}
