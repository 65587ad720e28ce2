//! Bits of a number in eight bytes.
ghost use Rattle.std.specs.Prelude.{◌≡◌, ◌≤◌, ◌<◌, ◌*◌, ◌+◌, ◌-◌, ◌++◌, ◌%◌, ◌/◌, ℕ, length, take};
ghost use Rattle.cy_bits.specs.Bits.{bits, bits_of, bytes};

/// Puts a number from a bit on, in eight bytes: all of its bits that they have room for.
#[inline(always)]
pub fn put_word(bytes: &mut [u8], place: u64, value: u64)
    requires { place / 8 + 8 ≤ length bytes.old }
    ensures { (width : ℕ) → place % 8 + width ≤ 64 → take (place + width) (bits bytes.new)
        ≡ take place (bits bytes.old) ++ bits_of width value }
{
    let at = (place / 8) as usize;
    let word = behind_low(bytes[at], (place % 8) as u32, value);
    bytes[at..at + 8].copy_from_slice(&word.to_le_bytes());
}

/// The low bits of a byte, and those of a number behind them.
#[inline(always)]
fn behind_low(byte: u8, low: u32, value: u64) -> u64
    requires { low < 8 }
    ensures { bits_of 64 result ≡ bits_of low byte ++ bits_of (64 - low) value }
{
    u64::from(byte) % (1 << low) + (value << low)
}

/// The bytes of so many bits in front, where they are whole bytes.
#[inline(always)]
pub fn whole_bytes(all: &[u8], place: u64) -> &[u8]
    requires { place ≤ 8 * length all.now }
    ensures { place % 8 ≡ 0 → result.now ≡ bytes (take place (bits all.now)) }
{
    &all[..(place / 8) as usize]
}

/// All bytes, of which so many bits are in front: where these are whole bytes, they are the first.
#[inline(always)]
pub fn all_bytes(all: &[u8], place: u64) -> &[u8]
    requires { place ≤ 8 * length all.now }
    ensures all { result.now ≡ all.now }
    ensures front { place % 8 ≡ 0
        → take (place / 8) result.now ≡ bytes (take place (bits all.now)) }
{
    let _ = place;
    all
}
