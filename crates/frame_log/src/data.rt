//! The data of a frame, which stands behind `#`.
ghost use Rattle.std.specs.Prelude.{◌≡◌, ◌≤◌, ◌+◌, ◌*◌, ◌-◌, option_map, length, take, drop, Some, None, ◌++◌, []};
ghost use Rattle.frame_log.specs.Line.{pairs_of, is_length, bytes_of, is_at_most_digit, fd_bytes_of, data_of, unflagged};
ghost use Rattle.frame_log.specs.Reads.{IsHex};
ghost use Rattle.frame_log.specs.Found.{bytes_if};

use crate::digits::{after, front, hexadecimal};
use crate::sixteen::{digits, paired};
use std::simd::prelude::*;
use tail_frame::FrameData;

/// Puts the bytes of pairs of hex digits, sixteen digits at a time, as far as it gets: the number of
/// bytes.
#[inline(always)]
pub fn blocks(s: &[u8], bytes: &mut FrameData) -> usize
    requires short { length s.now ≤ 128 }
    requires empty { bytes.old ≡ [] }
    ensures value { IsHex s.now (2 * result) bytes.new }
    ensures count { result ≡ length bytes.new }
    ensures within { 2 * result ≤ length s.now }
{
    let mut n = 0;
    for i in 0..s.len() / 16 {
        let (v, k) = digits(u8x16::from_slice(&s[16 * i..]));
        if k < 16 {
            break;
        }
        bytes.put(&paired(v).to_array(), 8);
        n = 8 * i + 8;
    }
    n
}

/// Puts the bytes of pairs of hex digits.
fn pairs(s: &[u8], bytes: &mut FrameData) -> bool
    requires short { length s.now ≤ 128 }
    requires empty { bytes.old ≡ [] }
    ensures { pairs_of s.now ≡ bytes_if result bytes.new }
{
    let n = s.len() / 2;
    let mut read = [0; 64];
    match hex::decode_to_slice(s, &mut read[..n]) {
        Ok(()) => {
            bytes.extend(&read[..n]);
            true
        }
        Err(_) => false,
    }
}

/// Whether a frame, of CAN FD or not, can have `n` bytes of data.
#[inline(always)]
pub fn is_length(fd: bool, n: usize) -> bool
    ensures { result ≡ is_length fd n }
{
    if fd {
        matches!(n, 0..=8 | 12 | 16 | 20 | 24 | 32 | 48 | 64)
    } else {
        n <= 8
    }
}

/// HEX of a valid length: puts its bytes.
#[inline(always)]
fn bytes(fd: bool, s: &[u8], bytes: &mut FrameData) -> bool
    requires { bytes.old ≡ [] }
    ensures { bytes_of fd s.now ≡ bytes_if result bytes.new }
{
    if s.len() > 128 {
        return false;
    }
    if !is_length(fd, s.len() / 2) {
        return false;
    }
    pairs(s, bytes)
}

/// Whether this is nothing, or one digit.
fn is_at_most_digit(s: &[u8]) -> bool
    ensures { result ≡ is_at_most_digit s.now }
{
    match s {
        [] => true,
        [b] => matches!(*b, b'0'..=b'9'),
        _ => false,
    }
}

/// `F` and HEX.
#[inline(always)]
fn fd_bytes(s: &[u8], data: &mut FrameData) -> bool
    requires { «data».old ≡ [] }
    ensures { fd_bytes_of s.now ≡ bytes_if result «data».new }
{
    let Some((digits, rest)) = front(1, s) else {
        return false;
    };
    let Some(_flags) = hexadecimal(digits) else {
        return false;
    };
    bytes(true, rest, data)
}

/// DATA, to the end of the line: whether it has bytes.
#[inline(always)]
pub fn data(s: &[u8], found: &mut FrameData) -> Option<bool>
    requires { found.old ≡ [] }
    ensures { option_map (λ has. bytes_if has found.new) result ≡ data_of s.now }
{
    if let Some(rest) = after(b'R', s) {
        return if is_at_most_digit(rest) {
            Some(false)
        } else {
            None
        };
    }
    if let Some(rest) = after(b'#', s) {
        return if fd_bytes(rest, found) {
            Some(true)
        } else {
            None
        };
    }
    if bytes(false, s, found) {
        Some(true)
    } else {
        None
    }
}

/// The text without ` R` or ` T` at its end.
#[inline(always)]
pub fn unflagged(s: &[u8]) -> &[u8]
    ensures { result.now ≡ unflagged s.now }
{
    let n = s.len();
    if n >= 2 && s[n - 2] == b' ' && (s[n - 1] == b'R' || s[n - 1] == b'T') {
        &s[..n - 2]
    } else {
        s
    }
}
