ghost use Rattle.std.specs.Prelude.{◌≡◌, ◌<◌, ◌≤◌, length, take};
ghost use Rattle.hex.specs.Hex.{encode_upper};

use std::simd::prelude::*;

/// Two upper-case digits for each of eight bytes.
#[inline(always)]
fn digits_of(bytes: u8x8) -> u8x16
    ensures { result ≡ encode_upper bytes }
{
    let (first, last) = (bytes >> u8x8::splat(4)).interleave(bytes & u8x8::splat(15));
    let values: u8x16 = first.shuffle(last, [0, 1, 2, 3, 4, 5, 6, 7, 8, 9, 10, 11, 12, 13, 14, 15]);
    let is_letter = values.simd_gt(u8x16::splat(9));
    values + is_letter.select(u8x16::splat(b'A' - 10), u8x16::splat(b'0'))
}

/// Two upper-case digits for each of the first eight bytes.
#[inline(always)]
pub fn hex_of_eight(bytes: &[u8]) -> [u8; 16]
    requires { 8 ≤ length bytes.now }
    ensures { result ≡ encode_upper (take 8 bytes.now) }
{
    digits_of(u8x8::from_slice(bytes)).to_array()
}

/// A block that begins with some bytes, at most eight. Behind the last of them it stands again, so that
/// nothing depends on their number.
#[inline(always)]
pub fn padded(bytes: &[u8]) -> [u8; 8]
    requires some { 1 ≤ length bytes.now }
    requires few { length bytes.now ≤ 8 }
    ensures { take (length bytes.now) result ≡ bytes.now }
{
    let last = bytes.len() - 1;
    [
        bytes[0],
        bytes[last.min(1)],
        bytes[last.min(2)],
        bytes[last.min(3)],
        bytes[last.min(4)],
        bytes[last.min(5)],
        bytes[last.min(6)],
        bytes[last.min(7)],
    ]
}
