//! Bits that are put one behind the other.
ghost use Rattle.std.specs.Prelude.{◌≤◌, ◌*◌, ◌^◌, length};

use crate::gives_up::GivesUp;
use crate::words::{all_bytes, put_word, whole_bytes};
use cy_bits::BitWriter;
use std::alloc::Global;

/// The most bytes of a buffer.
const MOST: usize = 1 << 37;

/// Bytes, of which so many bits were put, least significant first (Cyphal Specification, section 3.7.2). Their number
/// stays; bits that they have no room for are not put.
#[derive(Drop)]
pub struct BitBuffer {
    /// The bytes: those that were put, and others behind them that don't count.
    bytes: Vec<u8>,
    /// How many bits were put.
    pub place: u64,
    ghost within: { place ≤ 8 * length bytes.items },
    ghost small: { length bytes.items ≤ 2 ^ 37 },
}

impl BitBuffer {
    ghost use Rattle.std.specs.Prelude.{◌≡◌, ◌-◌, ◌++◌, ◌+◌, ◌/◌, ◌%◌, ◌≤◌, [], take, true, OnOk};
    ghost use Rattle.cy_bits.specs.Bits.{bits_of, bytes};
    ghost use Rattle.dsdl_types.specs.Encoding.{lead};
    ghost use Rattle.value_scan.specs.Written.{IsPatched, written};

    /// No bits; takes no memory yet.
    pub fn new(alloc: Global) -> BitBuffer
        ensures { written result ≡ [] }
    {
        BitBuffer {
            bytes: Vec::new(alloc),
            place: 0,
        }
    }

    /// Drops the bits, and takes memory for so many bytes where there are fewer.
    #[inline(always)]
    pub fn start(&mut self, size: usize) -> Result<(), GivesUp>
        ensures { OnOk result (written self.new ≡ []) }
    {
        self.place = 0;
        if size <= self.bytes.len() {
            Ok(())
        } else {
            self.grow(size)
        }
    }

    /// Takes memory for so many bytes, which are more than there are.
    #[cold]
    #[inline(never)]
    fn grow(&mut self, size: usize) -> Result<(), GivesUp>
        requires more { length self.old.bytes.items ≤ size }
        requires none { self.old.place ≡ 0 }
        ensures { self.new.place ≡ 0 }
    {
        if size > MOST {
            return Err(GivesUp);
        }
        match self.bytes.resize(size, 0) {
            Ok(()) => Ok(()),
            Err(_) => Err(GivesUp),
        }
    }

    /// The bytes of the bits, where they are whole bytes.
    #[inline(always)]
    pub fn as_slice(&self) -> &[u8]
        ensures { self.now.place % 8 ≡ 0 → result.now ≡ bytes (written self.now) }
    {
        whole_bytes(self.bytes.as_slice(), self.place)
    }

    /// All bytes: where the bits are whole bytes, these stand in front.
    #[inline(always)]
    pub fn room(&self) -> &[u8]
        ensures front { self.now.place % 8 ≡ 0
            → take (self.now.place / 8) result.now ≡ bytes (written self.now) }
        ensures few { length result.now ≤ 2 ^ 37 }
    {
        all_bytes(self.bytes.as_slice(), self.place)
    }

    /// Puts the low bits of a number, of which there are at most 64. They are written with all others of the number,
    /// where eight bytes are there.
    #[inline(always)]
    pub fn put(&mut self, value: u64, width: u32) -> Result<(), GivesUp>
        requires { width ≤ 64 }
        ensures bits { OnOk result (written self.new ≡ written self.old ++ bits_of width value) }
        ensures place { OnOk result (self.new.place ≡ self.old.place + width) }
    {
        let place = self.place;
        let bits = u64::from(width);
        if place % 8 + bits > 64 || place / 8 + 8 > self.bytes.len() as u64 {
            return self.put_slowly(value, width);
        }
        put_word(self.bytes.as_mut_slice(), place, value);
        self.place = place + bits;
        Ok(())
    }

    /// Puts them byte by byte.
    #[inline(never)]
    fn put_slowly(&mut self, value: u64, width: u32) -> Result<(), GivesUp>
        requires { width ≤ 64 }
        ensures bits { OnOk result (written self.new ≡ written self.old ++ bits_of width value) }
        ensures place { OnOk result (self.new.place ≡ self.old.place + width) }
    {
        let mut to = BitWriter { place: self.place };
        if to.put(self.bytes.as_mut_slice(), value, width).is_err() {
            return Err(GivesUp);
        }
        self.place = to.place;
        Ok(())
    }

    /// Puts the low bits of a number in the place of as many that were put.
    pub fn patch(&mut self, place: u64, value: u64, width: u32) -> Result<(), GivesUp>
        requires few { width ≤ 64 }
        requires there { place + width ≤ self.old.place }
        ensures bits { OnOk result
            (IsPatched (written self.old) place (bits_of width value) (written self.new)) }
        ensures place { self.new.place ≡ self.old.place }
    {
        let mut to = BitWriter { place };
        if to.put(self.bytes.as_mut_slice(), value, width).is_err() {
            return Err(GivesUp);
        }
        Ok(())
    }

    /// Puts zeros up to a multiple of 8 bits behind a start.
    #[inline(always)]
    pub fn put_gap(&mut self, start: u64) -> Result<(), GivesUp>
        requires { start ≤ self.old.place }
        ensures bits { OnOk result
            (written self.new ≡ written self.old ++ lead true (self.old.place - start)) }
        ensures place { OnOk result (start ≤ self.new.place) }
    {
        if (self.place - start) % 8 == 0 {
            Ok(())
        } else {
            self.put_zeros(start)
        }
    }

    /// Puts those zeros, also where there are none.
    #[inline(never)]
    fn put_zeros(&mut self, start: u64) -> Result<(), GivesUp>
        requires { start ≤ self.old.place }
        ensures bits { OnOk result
            (written self.new ≡ written self.old ++ lead true (self.old.place - start)) }
        ensures place { OnOk result (start ≤ self.new.place) }
    {
        self.put(0, ((self.place - start) % 8 * 7 % 8) as u32)
    }
}
