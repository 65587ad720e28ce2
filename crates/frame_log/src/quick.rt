//! The common form of a line, read at one look: `(SECONDS.MICROS) BUS IDENT#HEX` or `##FHEX` behind
//! IDENT, with the seconds of the line before.
ghost use Rattle.std.specs.Prelude.{◌≡◌, ◌≤◌, ◌<◌, ◌+◌, ◌*◌, ◌^◌, take, length, [], IfSome};
ghost use Rattle.frame_log.specs.Line.{Frame, micros_of, ident_of, said_of};
ghost use Rattle.frame_log.specs.Reads.{Reads, IsData, IsHex};
ghost use Rattle.frame_log.specs.Steps.{IsLine};

use crate::buses::Buses;
use crate::data::{blocks, is_length};
use crate::digits::hex_digit;
use crate::front::Front;
use crate::sixteen::{digits, eight_digits, is_micros, paired, tens};
use std::simd::prelude::*;
use tail_frame::FrameData;

/// What a line of the common form says. Its bytes stand apart.
#[derive(Clone, Copy, Drop)]
pub struct Seen {
    /// The length of the line without its newline.
    pub len: usize,
    /// Its moment in microseconds.
    pub moment: u64,
    /// The place of its bus among the reader's, counted from 0.
    pub bus: u8,
    /// Its CAN identifier.
    pub ident: u32,
}

/// MICROS and `) `, in front of other bytes.
#[inline(always)]
fn micros_at(s: &[u8]) -> Option<u64>
    requires { 16 ≤ length s.now }
    ensures reads { IfSome result (λ m. Reads micros_of s.now 8 m) }
    ensures bound { IfSome result (λ m. m < 10 ^ 12) }
{
    let c = u8x16::from_slice(s);
    if !is_micros(c) {
        return None;
    }
    let pairs = tens(c - u8x16::splat(48)).to_array();
    Some(pairs[0] as u64 * 10_000 + pairs[1] as u64 * 100 + pairs[2] as u64)
}

/// IDENT of eight digits and `#`, in front of other bytes.
#[inline(always)]
fn ident_at(s: &[u8]) -> Option<u32>
    requires { 16 ≤ length s.now }
    ensures { IfSome result (λ n. Reads (ident_of 8) s.now 9 n) }
{
    let n = eight_digits(s)?;
    if s[8] != b'#' {
        return None;
    }
    Some(n)
}

/// Puts the bytes of the hex digits behind the first `2 * n`, at most sixteen: the number of all bytes.
#[inline(always)]
fn last_block(s: &[u8], n: usize, bytes: &mut FrameData) -> Option<usize>
    requires wide { 2 * n + 16 ≤ length s.now }
    requires front { IsHex s.now (2 * n) bytes.old }
    requires count { n ≡ length bytes.old }
    ensures value { IfSome result (λ m. IsHex s.now (2 * m) bytes.new) }
    ensures count { IfSome result (λ m. m ≡ length bytes.new) }
    ensures within { IfSome result (λ m. (m ≤ n + 8) × (m ≤ 64)) }
{
    let (v, k) = digits(u8x16::from_slice(&s[2 * n..]));
    let more = k / 2;
    if k != 2 * more || more > 8 || n + more > 64 {
        return None;
    }
    bytes.put(&paired(v).to_array(), more);
    Some(n + more)
}

/// HEX and a newline, in front of other bytes: the number of digits.
#[inline(always)]
fn classic_at(s: &[u8], bytes: &mut FrameData) -> Option<usize>
    requires wide { 160 ≤ length s.now }
    requires empty { bytes.old ≡ [] }
    ensures data { IfSome result (λ n. IsData s.now n bytes.new) }
    ensures near { IfSome result (λ n. n ≤ 130) }
{
    let n = last_block(s, 0, bytes)?;
    if s[2 * n] != b'\n' {
        return None;
    }
    Some(2 * n)
}

/// `#F`, HEX and a newline, in front of other bytes: the number of bytes without the newline.
#[inline(always)]
fn fd_at(s: &[u8], bytes: &mut FrameData) -> Option<usize>
    requires wide { 160 ≤ length s.now }
    requires empty { bytes.old ≡ [] }
    ensures data { IfSome result (λ n. IsData s.now n bytes.new) }
    ensures near { IfSome result (λ n. n ≤ 130) }
{
    if s[0] != b'#' || hex_digit(s[1]) > 15 {
        return None;
    }
    let first = blocks(&s[2..130], bytes);
    let hex = &s[2..];
    let n = last_block(hex, first, bytes)?;
    if !is_length(true, n) || hex[2 * n] != b'\n' {
        return None;
    }
    Some(2 * n + 2)
}

/// DATA and a newline, in front of other bytes: the number of bytes without the newline.
#[inline(always)]
fn data_at(s: &[u8], bytes: &mut FrameData) -> Option<usize>
    requires wide { 160 ≤ length s.now }
    requires empty { bytes.old ≡ [] }
    ensures data { IfSome result (λ n. IsData s.now n bytes.new) }
    ensures near { IfSome result (λ n. n ≤ 130) }
{
    if s[0] == b'#' {
        fd_at(s, bytes)
    } else {
        classic_at(s, bytes)
    }
}

/// What the line says that begins here, if it has the common form. None says nothing of the line.
#[inline(always)]
pub fn quick(front: &Front, buses: &Buses, window: &[u8], bytes: &mut FrameData) -> Option<Seen>
    requires wide { length window.now ≡ 256 }
    requires empty { bytes.old ≡ [] }
    ensures line { IfSome result (λ q. IsLine window.now q.len) }
    ensures said { IfSome result
        (λ q. said_of buses.now (take q.len window.now) ≡ Frame q.moment q.bus q.ident bytes.new) }
    ensures near { IfSome result (λ q. q.len < 256) }
{
    if !front.is_at(window) {
        return None;
    }
    let behind_front = &window[front.len..];
    let micros = micros_at(behind_front)?;
    let behind_micros = &behind_front[8..];
    let (bus, n) = buses.at(behind_micros)?;
    let behind_bus = &behind_micros[n..];
    let ident = ident_at(behind_bus)?;
    if ident > 0x1FFF_FFFF {
        return None;
    }
    let behind_ident = &behind_bus[9..];
    let count = data_at(behind_ident, bytes)?;
    Some(Seen {
        len: front.len + 8 + n + 9 + count,
        moment: front.seconds * 1_000_000 + micros,
        bus,
        ident,
    })
}
