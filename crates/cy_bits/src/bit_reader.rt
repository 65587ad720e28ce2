ghost use Rattle.std.specs.Prelude.{◌≡◌, ◌≤◌, ◌<◌, ◌+◌, ◌^◌, ◌%◌, drop, take};
ghost use Rattle.cy_bits.specs.Bits.{bits, gap, number};

use std::marker::Model;

/// Bytes, and a place in them or behind them where bits are read, least significant first (Cyphal
/// Specification, section 3.7.1). Bits past the end are zeros. The place is at most 2^40. No call
/// takes memory.
#[derive(Drop)]
pub struct BitReader<'a> {
    bytes: &'a [u8],
    place: u64,
}

impl<'a> Model for BitReader<'a> {
    ghost use Rattle.std.specs.Prelude.{◌≤◌, ◌^◌};
    ghost use Rattle.cy_bits.specs.Bits.{Cursor};

    ghost Value = { Cursor };

    ghost view = { λ r. record { bytes = r.bytes.now; place = r.place } };

    ghost invariant = { λ r. r.place ≤ 2 ^ 40 };
}

impl<'a> BitReader<'a> {
    /// At the beginning of bytes.
    pub fn new(bytes: &'a [u8]) -> BitReader<'a>
        ensures bytes { result.bytes ≡ bytes.now }
        ensures place { result.place ≡ 0 }
    {
        BitReader { bytes, place: 0 }
    }

    /// The bytes.
    pub fn bytes(&self) -> &'a [u8]
        ensures { result.now ≡ self.now.bytes }
    {
        self.bytes
    }

    /// The place.
    pub fn place(&self) -> u64
        ensures is { result ≡ self.now.place }
        ensures near { result ≤ 2 ^ 40 }
    {
        self.place
    }

    /// Goes to a place.
    pub fn go(&mut self, place: u64)
        requires { place ≤ 2 ^ 40 }
        ensures bytes { self.new.bytes ≡ self.old.bytes }
        ensures place { self.new.place ≡ place }
    {
        self.place = place;
    }

    /// The number of so many bits from the place on, of at most 64, and goes behind them.
    pub fn take(&mut self, width: u32) -> u64
        requires few { width ≤ 64 }
        requires near { self.old.place + width ≤ 2 ^ 40 }
        ensures value { result ≡ number
            (take width (drop self.old.place (bits self.old.bytes))) }
        ensures small { result < 2 ^ width }
        ensures place { self.new.place ≡ self.old.place + width }
        ensures bytes { self.new.bytes ≡ self.old.bytes }
    {
        let value = bits_from(self.bytes, self.place, width);
        self.place += u64::from(width);
        value
    }

    /// Goes to the next multiple of 8 bits.
    pub fn align(&mut self)
        ensures place { self.new.place ≡ self.old.place + gap self.old.place }
        ensures bytes { self.new.bytes ≡ self.old.bytes }
    {
        self.place += self.place * 7 % 8;
    }
}

/// The number of so many bits from a place on, of at most 64.
fn bits_from(bytes: &[u8], place: u64, width: u32) -> u64
    requires few { width ≤ 64 }
    requires near { place + width ≤ 2 ^ 40 }
    ensures value { result ≡ number (take width (drop place (bits bytes.now))) }
    ensures small { result < 2 ^ width }
{
    let mut value = 0;
    let mut done = 0;
    while done < width {
        let at = place + u64::from(done);
        let count = (width - done).min(8 - (at % 8) as u32);
        value += bits_in_byte(bytes, at, count) << done;
        done += count;
    }
    value
}

/// The number of so many bits within one byte, 0 past the end.
fn bits_in_byte(bytes: &[u8], place: u64, count: u32) -> u64
    requires few { place % 8 + count ≤ 8 }
    ensures value { result ≡ number (take count (drop place (bits bytes.now))) }
    ensures small { result < 2 ^ count }
{
    let at = place / 8;
    if at < bytes.len() as u64 {
        u64::from(bytes[at as usize] >> (place % 8) as u32) % (1 << count)
    } else {
        0
    }
}
