//! Hex digits in upper case.
ghost use Rattle.std.specs.Prelude.{◌≡◌, ◌++◌, ◌+◌, ◌*◌, ◌^◌, ◌<◌, ◌≤◌, true, take, IfOk, IfSome, length, drop};
ghost use Rattle.hex.specs.Hex.{encode_upper};
ghost use Rattle.value_text.specs.Words.{hex_digits};
ghost use Rattle.value_scan.specs.Bytes.{AreInFront};

use crate::blocks::begins;
use line_text::hex_of_eight;
use std::simd::prelude::*;

/// Eight bytes whose digits may stand in front of others, and how many digits stand there. Nothing rests on it: what is
/// taken is written again and compared.
#[derive(Drop)]
struct Guess {
    bytes: [u8; 8],
    digits: u32,
}

/// What the first sixteen bytes may write.
#[inline(always)]
fn guess_in(bytes: &[u8]) -> Guess {
    if bytes.len() < 16 {
        guess_of(short_block(bytes))
    } else {
        guess_of(u8x16::from_slice(bytes))
    }
}

/// Fewer than sixteen bytes with zeros behind.
#[cold]
#[inline(never)]
fn short_block(bytes: &[u8]) -> u8x16 {
    let mut block = [0; 16];
    let len = bytes.len().min(16);
    block[..len].copy_from_slice(&bytes[..len]);
    u8x16::from_array(block)
}

/// The values of pairs of digits, and how many digits stand in front of the first byte that is none.
#[inline(always)]
fn guess_of(block: u8x16) -> Guess {
    let digit = block - u8x16::splat(b'0');
    let letter = block - u8x16::splat(b'A' - 10);
    let is_digit = digit.simd_lt(u8x16::splat(10));
    let is_letter = (letter - u8x16::splat(10)).simd_lt(u8x16::splat(6));
    let values = is_digit.select(digit, is_letter.select(letter, u8x16::splat(16)));
    let others = values.simd_gt(u8x16::splat(15)).to_bitmask() | 1 << 16;
    let (high, low) = values.deinterleave(values);
    let high = high.extract::<0, 8>();
    let low = low.extract::<0, 8>();
    let bytes = (high << u8x8::splat(4)) | low;
    Guess {
        bytes: bytes.to_array(),
        digits: others.trailing_zeros(),
    }
}

/// The number of so many hex digits, where they stand in front of some bytes.
#[inline(always)]
pub fn number_in(bytes: &[u8], digits: u8) -> Option<u64>
    requires { (1 ≤ digits) × (digits ≤ 16) }
    ensures { IfSome result (λ n. (n < 2 ^ (4 * digits))
        × (bytes.now ≡ hex_digits digits n ++ drop digits bytes.now)) }
{
    let guess = guess_in(bytes);
    let text = hex_of_eight(&guess.bytes);
    if !begins(bytes, &text[..usize::from(digits)]) {
        return None;
    }
    Some(u64::from_be_bytes(guess.bytes) >> (64 - 4 * u32::from(digits)))
}

/// Bytes of two hex digits each, at most eight.
#[derive(Drop)]
pub struct Block {
    /// A number of which they are the low bits.
    pub word: u64,
    /// How many they are.
    pub size: u32,
}

/// Bytes of two hex digits each that stand in front of some, at most eight and at most so many.
#[inline(always)]
pub fn bytes_in(bytes: &[u8], most: u32) -> Block
    ensures few { result.size ≤ most }
    ensures eight { result.size ≤ 8 }
    ensures read { AreInFront result.size result.word bytes.now }
{
    let guess = guess_in(bytes);
    let size = (guess.digits / 2).min(8).min(most);
    let text = hex_of_eight(&guess.bytes);
    if !begins(bytes, &text[..2 * size as usize]) {
        return Block { word: 0, size: 0 };
    }
    Block {
        word: u64::from_le_bytes(guess.bytes),
        size,
    }
}
