ghost use Rattle.std.specs.Prelude.{◌≡◌, ◌≤◌, ◌<◌, ◌+◌, ◌*◌, ◌^◌, ◌%◌, length, OnOk, OnErr};
ghost use Rattle.cy_bits.specs.Bits.{bits, bits_of, gap, zeros};
ghost use Rattle.cy_bits.specs.Put.{put_bits};

/// A buffer that has no room for the bits that were to be put.
#[derive(Clone, Copy, Debug, PartialEq, Eq)]
pub struct Full;

/// A place in a buffer where bits are written, least significant first (Cyphal Specification,
/// section 3.7.1). The buffer is handed in at each call. No call takes memory.
#[derive(Clone, Copy, Debug, PartialEq, Eq)]
pub struct BitWriter {
    /// The place in bits from the beginning of the buffer.
    pub place: u64,
}

impl BitWriter {
    /// At the beginning of a buffer.
    pub fn new() -> BitWriter
        ensures { result.place ≡ 0 }
    {
        BitWriter { place: 0 }
    }

    /// The number of bits in front of the place.
    pub fn len_bits(&self) -> u64
        ensures { result ≡ self.now.place }
    {
        self.place
    }

    /// Writes the low `width` bits of a number, of which there are at most 64, and goes behind
    /// them. All other bits of the buffer stay. The error says that they would pass the buffer's
    /// end; then nothing changes.
    pub fn put(&mut self, buf: &mut [u8], value: u64, width: u32) -> Result<(), Full>
        requires few { width ≤ 64 }
        requires within { self.old.place ≤ 8 * length buf.old }
        requires small { length buf.old ≤ 2 ^ 37 }
        ensures room { OnOk result (self.old.place + width ≤ 8 * length buf.old) }
        ensures place { OnOk result (self.new.place ≡ self.old.place + width) }
        ensures written { OnOk result (bits buf.new
            ≡ put_bits (bits buf.old) self.old.place (bits_of width value)) }
        ensures full { OnErr result (8 * length buf.old < self.old.place + width) }
        ensures kept { OnErr result ((self.new ≡ self.old) × (buf.new ≡ buf.old)) }
    {
        if u64::from(width) > 8 * buf.len() as u64 - self.place {
            return Err(Full);
        }
        self.put_bits(buf, value, width);
        Ok(())
    }

    /// Writes the low bits of a number, for which there is room, byte by byte.
    fn put_bits(&mut self, buf: &mut [u8], value: u64, width: u32)
        requires few { width ≤ 64 }
        requires room { self.old.place + width ≤ 8 * length buf.old }
        requires small { length buf.old ≤ 2 ^ 37 }
        ensures place { self.new.place ≡ self.old.place + width }
        ensures written { bits buf.new
            ≡ put_bits (bits buf.old) self.old.place (bits_of width value) }
    {
        let mut rest = value;
        let mut left = width;
        while left > 0 {
            let count = left.min(8 - (self.place % 8) as u32);
            put_in_byte(buf, self.place, rest, count);
            self.place += u64::from(count);
            rest >>= count;
            left -= count;
        }
    }

    /// Writes zeros up to the next multiple of 8 bits, and goes there. All other bits of the buffer
    /// stay.
    pub fn align(&mut self, buf: &mut [u8])
        requires within { self.old.place ≤ 8 * length buf.old }
        requires small { length buf.old ≤ 2 ^ 37 }
        ensures place { self.new.place ≡ self.old.place + gap self.old.place }
        ensures written { bits buf.new
            ≡ put_bits (bits buf.old) self.old.place (zeros (gap self.old.place)) }
    {
        self.put_bits(buf, 0, (self.place * 7 % 8) as u32);
    }
}

/// Writes the low bits of a number within one byte. All other bits stay.
fn put_in_byte(buf: &mut [u8], place: u64, value: u64, count: u32)
    requires few { place % 8 + count ≤ 8 }
    requires some { 1 ≤ count }
    requires room { place + count ≤ 8 * length buf.old }
    ensures { bits buf.new ≡ put_bits (bits buf.old) place (bits_of count value) }
{
    let at = (place / 8) as usize;
    let from = (place % 8) as u32;
    buf[at] = with_bits(buf[at], from, value, count);
}

/// A byte with other bits from a place on.
fn with_bits(byte: u8, from: u32, value: u64, count: u32) -> u8
    requires few { from + count ≤ 8 }
    requires some { 1 ≤ count }
    ensures { bits_of 8 result ≡ put_bits (bits_of 8 byte) from (bits_of count value) }
{
    let old = u64::from(byte);
    let low = old % (1 << from);
    let high = old >> (from + count) << (from + count);
    let middle = value % (1 << count) << from;
    (low + middle + high) as u8
}
