//! Bits of eight bytes at one look.
ghost use Rattle.std.specs.Prelude.{◌≡◌, ◌≤◌, ◌+◌, ◌/◌, ◌%◌, drop, length, take};
ghost use Rattle.cy_bits.specs.Bits.{bits, number};

/// The number of the first 64 bits.
#[inline(always)]
fn first_word(b: &[u8]) -> u64
    requires { 8 ≤ length b.now }
    ensures { result ≡ number (take 64 (bits b.now)) }
{
    u64::from_le_bytes([b[0], b[1], b[2], b[3], b[4], b[5], b[6], b[7]])
}

/// The bytes from a place on.
#[inline(always)]
pub fn bytes_from(bytes: &[u8], at: usize) -> &[u8]
    requires { at ≤ length bytes.now }
    ensures { result.now ≡ drop at bytes.now }
{
    &bytes[at..]
}

/// The number of so many bits from a place on, which lie in eight bytes.
#[inline(always)]
pub fn bits_at(bytes: &[u8], place: u64, width: u32) -> u64
    requires there { place / 8 + 8 ≤ length bytes.now }
    requires within { place % 8 + width ≤ 64 }
    ensures { result ≡ number (take width (drop place (bits bytes.now))) }
{
    let word = first_word(bytes_from(bytes, (place / 8) as usize));
    let low = (place % 8) as u32;
    if width == 64 {
        word
    } else {
        (word >> low) % (1 << width)
    }
}
