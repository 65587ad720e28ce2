ghost use Rattle.std.specs.Prelude.{◌≤◌, ◌+◌, ◌^◌, length};

use crate::stop::Stop;
use crate::word::{bits_at, bytes_from};
use cy_bits::BitReader;

/// Places beyond are given up: then no sum wraps.
const FAR: u64 = 1 << 39;

/// The first `size` bytes of some, and a place in them or behind them where bits are read, least significant first
/// (Cyphal Specification, section 3.7.2). Behind them stand at least sixteen bytes more, so that a number is read by
/// one look at eight bytes. Bits past the end are zeros.
#[derive(Clone, Copy, Drop)]
pub struct Bits<'a> {
    /// The bytes, and those behind.
    pub bytes: &'a [u8],
    /// How many count.
    pub size: u64,
    /// The place in bits from the beginning.
    pub place: u64,
    pub ghost slack: { size + 16 ≤ length bytes.now },
    pub ghost small: { size ≤ 2 ^ 37 },
    pub ghost near: { place ≤ 2 ^ 42 },
}

#[tactic(auto, unfolding(crate::specs::Counted::counted))]
impl<'a> Bits<'a> {
    ghost use Rattle.std.specs.Prelude.{◌≡◌, ◌≤◌, ◌<◌, ◌+◌, ◌*◌, ◌^◌, ◌%◌, IfOk, IfSome, OnOk, drop, length, take};
    ghost use Rattle.cy_bits.specs.Bits.{bits, gap, number};
    ghost use Rattle.value_put.specs.Counted.{counted, IsWindowOf};

    /// At the beginning of the first `size` bytes.
    pub fn new(bytes: &'a [u8], size: u64) -> Bits<'a>
        requires slack { size + 16 ≤ length bytes.now }
        requires small { size ≤ 2 ^ 37 }
        ensures bytes { counted result ≡ take size bytes.now }
        ensures place { result.place ≡ 0 }
    {
        Bits {
            bytes,
            size,
            place: 0,
        }
    }

    /// The number of so many bits from the place on, and goes behind them. It gives up more than 64 bits, and may give up
    /// places beyond 2^39 bits.
    #[inline(always)]
    pub fn take(&mut self, width: u32) -> Result<u64, Stop>
        ensures value { IfOk result (λ n. n ≡ number
            (take width (drop self.old.place (bits (counted self.old))))) }
        ensures small { IfOk result (λ n. n < 2 ^ width) }
        ensures place { OnOk result (self.new.place ≡ self.old.place + width) }
        ensures bytes { counted self.new ≡ counted self.old }
    {
        let number = self.number(width)?;
        self.place += u64::from(width);
        Ok(number)
    }

    /// The number of so many bits from the place on.
    #[inline(always)]
    fn number(&self, width: u32) -> Result<u64, Stop>
        ensures value { IfOk result (λ n. n ≡ number
            (take width (drop self.now.place (bits (counted self.now))))) }
        ensures small { IfOk result (λ n. n < 2 ^ width) }
        ensures near { OnOk result (self.now.place + width ≤ 2 ^ 41) }
    {
        let place = self.place;
        if place + u64::from(width) <= 8 * self.size && place % 8 + u64::from(width) <= 64 {
            Ok(bits_at(self.bytes, place, width))
        } else {
            self.slow_number(width)
        }
    }

    /// The same of bits of which some are past the end, or which lie in nine bytes.
    #[cold]
    #[inline(never)]
    fn slow_number(&self, width: u32) -> Result<u64, Stop>
        ensures value { IfOk result (λ n. n ≡ number
            (take width (drop self.now.place (bits (counted self.now))))) }
        ensures small { IfOk result (λ n. n < 2 ^ width) }
        ensures near { OnOk result (self.now.place + width ≤ 2 ^ 41) }
    {
        if width > 64 || self.place > FAR {
            return Err(Stop::GivesUp);
        }
        let mut reader = BitReader::new(&self.bytes[..self.size as usize]);
        reader.go(self.place);
        Ok(reader.take(width))
    }

    /// Goes over so many bits; gives up at places beyond 2^39 bits.
    #[inline(always)]
    pub fn skip(&mut self, width: u64) -> Result<(), Stop>
        requires { width ≤ 2 ^ 40 }
        ensures place { OnOk result (self.new.place ≡ self.old.place + width) }
        ensures bytes { counted self.new ≡ counted self.old }
    {
        if self.place > FAR {
            return Err(Stop::GivesUp);
        }
        self.place += width;
        Ok(())
    }

    /// Goes to the next multiple of 8 bits; gives up at places beyond 2^39 bits that aren't one.
    #[inline(always)]
    pub fn align(&mut self) -> Result<(), Stop>
        ensures place { OnOk result (self.new.place ≡ self.old.place + gap self.old.place) }
        ensures bytes { counted self.new ≡ counted self.old }
    {
        if self.place % 8 == 0 {
            return Ok(());
        }
        if self.place > FAR {
            return Err(Stop::GivesUp);
        }
        self.place += self.place * 7 % 8;
        Ok(())
    }

    /// So many bytes from the place on. It gives up where they aren't there, and where the place isn't a multiple of 8
    /// bits.
    #[inline(always)]
    pub fn window(&self, count: u64) -> Result<Bits<'a>, Stop>
        ensures window { IfOk result (λ w. IsWindowOf self.now count w) }
        ensures few { OnOk result (count ≤ 2 ^ 37) }
    {
        if self.place % 8 != 0 {
            return Err(Stop::GivesUp);
        }
        let at = (self.place / 8).min(self.size);
        if count > self.size - at {
            return Err(Stop::GivesUp);
        }
        Ok(Bits {
            bytes: bytes_from(self.bytes, at as usize),
            size: count,
            place: 0,
        })
    }
}
