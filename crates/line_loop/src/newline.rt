//! The first newline of some bytes.
ghost use Rattle.std.specs.Prelude.{◌≤◌, length};
ghost use Rattle.memchr.specs.Find.{IsFirst, IsFirstByte, Passes, is_byte};

use memchr::memchr;
use std::simd::prelude::*;

/// How many bytes are looked at by blocks of sixteen: most lines are no longer.
const NEAR: usize = 96;

/// Where the first newline is.
#[inline(always)]
pub fn newline_in(bytes: &[u8]) -> Option<usize>
    ensures { IsFirstByte (is_byte 10) bytes.now result }
{
    if bytes.len() >= NEAR {
        if let Some(n) = near_newline(bytes) {
            return Some(n);
        }
    }
    memchr(b'\n', bytes)
}

/// Where the first newline is among the first bytes.
#[inline(always)]
fn near_newline(bytes: &[u8]) -> Option<usize>
    requires { 96 ≤ length bytes.now }
    ensures { IsFirst (Passes (is_byte 10) bytes.now) 0 96 result }
{
    for block in 0..NEAR / 16 {
        if let Some(n) = newline_of(u8x16::from_slice(&bytes[16 * block..])) {
            return Some(16 * block + n);
        }
    }
    None
}

/// Where the first newline is among sixteen bytes.
#[inline(always)]
fn newline_of(block: u8x16) -> Option<usize>
    ensures { IsFirstByte (is_byte 10) block result }
{
    let found = block.simd_eq(u8x16::splat(b'\n')).to_bitmask();
    if found == 0 {
        None
    } else {
        Some(found.trailing_zeros() as usize)
    }
}
