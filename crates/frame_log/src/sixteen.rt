//! Sixteen bytes at a time.
ghost use Rattle.std.specs.Prelude.{◌≡◌, ◌≤◌, true, map, take, length, Some, IfSome};
ghost use Rattle.std.specs.List.{prefix_len};
ghost use Rattle.frame_log.specs.Line.{hex_digit, hex_from};
ghost use Rattle.frame_log.specs.Lanes.{is_digit, bytes_of_pairs, numbers_of_pairs, IsMicros};

use std::simd::prelude::*;

/// The values of those of sixteen bytes that come before the first that is no hex digit, and how many these
/// are.
#[inline(always)]
pub fn digits(c: u8x16) -> (u8x16, usize)
    ensures count { result.1 ≡ prefix_len is_digit (map hex_digit c) }
    ensures values { take result.1 result.0 ≡ take result.1 (map hex_digit c) }
{
    let d = c - u8x16::splat(48);
    let l = (c | u8x16::splat(32)) - u8x16::splat(97);
    let is_digit = d.simd_lt(u8x16::splat(10));
    let is_letter = l.simd_lt(u8x16::splat(6));
    let v = (c & u8x16::splat(15)) + is_letter.select(u8x16::splat(9), u8x16::splat(0));
    let flags = (is_digit | is_letter).select(u8x16::splat(0), u8x16::splat(16));
    (v, digits_before(flags))
}

/// How many lanes come before the first that is no digit's value.
#[inline(always)]
fn digits_before(v: u8x16) -> usize
    ensures { result ≡ prefix_len is_digit v }
{
    let bad = v.simd_gt(u8x16::splat(15)).to_bitmask();
    if bad == 0 {
        16
    } else {
        bad.trailing_zeros() as usize
    }
}

/// The bytes of eight pairs of values.
#[inline(always)]
pub fn paired(v: u8x16) -> u8x8
    ensures { result ≡ bytes_of_pairs v }
{
    let (high, low) = v.deinterleave(v);
    (high.extract::<0, 8>() << u8x8::splat(4)) | low.extract::<0, 8>()
}

/// The number of the eight hex digits in front, of which none is missing.
#[inline(always)]
pub fn eight_digits(s: &[u8]) -> Option<u32>
    requires { 16 ≤ length s.now }
    ensures { IfSome result (λ n. hex_from 0 (take 8 s.now) ≡ Some n) }
{
    let (v, n) = digits(u8x16::from_slice(s));
    if n < 8 {
        return None;
    }
    let b = paired(v).to_array();
    Some(u32::from_be_bytes([b[0], b[1], b[2], b[3]]))
}

/// How many of the first lanes are equal.
#[inline(always)]
pub fn equal_before(a: u8x16, b: u8x16) -> usize
    ensures same { take result a ≡ take result b }
    ensures within { result ≤ 16 }
{
    let other = a.simd_ne(b).to_bitmask();
    if other == 0 {
        16
    } else {
        other.trailing_zeros() as usize
    }
}

/// Whether six decimal digits, `)` and a space stand in front.
#[inline(always)]
pub fn is_micros(c: u8x16) -> bool
    ensures { result ≡ true → IsMicros c }
{
    let least = u8x16::from_array([48, 48, 48, 48, 48, 48, 41, 32, 0, 0, 0, 0, 0, 0, 0, 0]);
    let most = u8x16::from_array([
        9, 9, 9, 9, 9, 9, 0, 0, 255, 255, 255, 255, 255, 255, 255, 255,
    ]);
    (c - least).simd_gt(most).to_bitmask() == 0
}

/// The numbers of eight pairs of decimal digits' values.
#[inline(always)]
pub fn tens(v: u8x16) -> u8x8
    ensures { result ≡ numbers_of_pairs v }
{
    let (high, low) = v.deinterleave(v);
    high.extract::<0, 8>() * u8x8::splat(10) + low.extract::<0, 8>()
}
