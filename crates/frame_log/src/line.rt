//! What a line of a log says.
ghost use Rattle.std.specs.Prelude.{◌≡◌, ◌≤◌, ◌<◌, ◌+◌, ◌*◌, ◌^◌, ◌-◌, ℕ, option_map, length, take, drop, IfSome, Some, None, ◌++◌, [], List};
ghost use Rattle.frame_log.specs.Line.{seconds_of, micros_of, bus_of, ident_of, bus_at, frame_of, behind_bus, form_of, without_return, said_of, cut, front, after, decimal_from, hex_from};
ghost use Rattle.frame_log.specs.Found.{bytes_if, said_by};

use crate::data::{data, unflagged};
use crate::digits::{after, cut, decimal, front, hexadecimal};
use crate::sixteen::eight_digits;
use cy_bits::BusName;
use tail_frame::FrameData;

/// What was found in a line. The bytes of a frame stand apart.
#[derive(Clone, Copy, Debug, PartialEq, Eq)]
pub enum Found {
    /// The line has no form.
    NoForm,
    /// The line is skipped.
    Nothing,
    /// A frame on a bus that isn't there.
    UnknownBus,
    /// A frame.
    Frame { moment: u64, bus: u8, ident: u32 },
}

/// SECONDS of any number of digits, and the point.
#[inline(always)]
pub fn seconds_of_any(s: &[u8]) -> Option<(u64, &[u8])>
    ensures value { option_map (λ p. (p.0, p.1.now)) result ≡ seconds_of s.now }
    ensures bound { IfSome result (λ p. p.0 < 10 ^ 12) }
{
    let (digits, rest) = cut(b'.', s)?;
    if digits.len() == 0 || digits.len() > 12 {
        return None;
    }
    let seconds = decimal(digits)?;
    Some((seconds, rest))
}

/// SECONDS and the point. The seconds of our days have ten digits.
#[inline(always)]
fn seconds(s: &[u8]) -> Option<(u64, &[u8])>
    ensures value { option_map (λ p. (p.0, p.1.now)) result ≡ seconds_of s.now }
    ensures bound { IfSome result (λ p. p.0 < 10 ^ 12) }
{
    if s.len() > 10 && s[10] == b'.' {
        if let Some(seconds) = decimal(&s[..10]) {
            return Some((seconds, &s[11..]));
        }
    }
    seconds_of_any(s)
}

/// MICROS and `) `.
#[inline(always)]
fn micros(s: &[u8]) -> Option<(u64, &[u8])>
    ensures value { option_map (λ p. (p.0, p.1.now)) result ≡ micros_of s.now }
    ensures bound { IfSome result (λ p. p.0 < 10 ^ 12) }
{
    let (digits, rest) = front(6, s)?;
    let micros = decimal(digits)?;
    let a = after(b')', rest)?;
    let b = after(b' ', a)?;
    Some((micros, b))
}

/// BUS and the space.
#[inline(always)]
pub fn bus_name(s: &[u8]) -> Option<(&[u8], &[u8])>
    ensures { option_map (λ p. (p.0.now, p.1.now)) result ≡ bus_of s.now }
{
    let (name, rest) = cut(b' ', s)?;
    if name.len() == 0 || name.len() > 15 {
        return None;
    }
    Some((name, rest))
}

/// The number of the first `n` hex digits.
#[inline(always)]
fn number(n: usize, s: &[u8]) -> Option<u32>
    requires few { n ≤ 8 }
    requires within { n ≤ length s.now }
    ensures { result ≡ hex_from 0 (take n s.now) }
{
    if n == 8 && s.len() >= 16 {
        if let Some(number) = eight_digits(s) {
            return Some(number);
        }
    }
    hexadecimal(&s[..n])
}

/// IDENT of `n` digits, and `#`.
#[inline(always)]
fn ident(n: usize, s: &[u8]) -> Option<(u32, &[u8])>
    requires { n ≤ 8 }
    ensures { option_map (λ p. (p.0, p.1.now)) result ≡ ident_of n s.now }
{
    let (_, rest) = front(n, s)?;
    let ident = number(n, s)?;
    let a = after(b'#', rest)?;
    Some((ident, a))
}

/// The number of the bus with this name.
#[inline(always)]
pub fn bus_at(buses: &[BusName], name: &[u8]) -> Option<usize>
    ensures value { result ≡ bus_at buses.now name.now }
    ensures bound { IfSome result (λ n. n < length buses.now) }
{
    for i in 0..buses.len() {
        if buses[i].as_str().as_bytes() == name {
            return Some(i);
        }
    }
    None
}

/// What a frame says, whose identifier has 8 digits.
#[inline(always)]
fn frame(buses: &[BusName], moment: u64, name: &[u8], ident: u32, has: bool) -> Found
    requires { length buses.now ≤ 3 }
    ensures { (bytes : List ℕ)
        → said_by result bytes ≡ frame_of buses.now moment name.now ident (bytes_if has bytes) }
{
    if !has {
        return Found::Nothing;
    }
    if ident > 0x1FFF_FFFF {
        return Found::Nothing;
    }
    match bus_at(buses, name) {
        Some(bus) => Found::Frame {
            moment,
            bus: bus as u8,
            ident,
        },
        None => Found::UnknownBus,
    }
}

/// IDENT#DATA.
#[inline(always)]
fn behind_bus(
    buses: &[BusName],
    moment: u64,
    name: &[u8],
    s: &[u8],
    bytes: &mut FrameData,
) -> Option<Found>
    requires few { length buses.now ≤ 3 }
    requires empty { bytes.old ≡ [] }
    ensures { option_map (λ f. said_by f bytes.new) result
        ≡ behind_bus buses.now moment name.now s.now }
{
    match ident(8, s) {
        Some((ident, rest)) => {
            let has = data(unflagged(rest), bytes)?;
            Some(frame(buses, moment, name, ident, has))
        }
        None => {
            let (_, rest) = ident(3, s)?;
            let _ = data(unflagged(rest), bytes)?;
            Some(Found::Nothing)
        }
    }
}

/// `(SECONDS.MICROS) BUS IDENT#DATA`.
#[inline(always)]
fn form(buses: &[BusName], text: &[u8], bytes: &mut FrameData) -> Option<Found>
    requires few { length buses.now ≤ 3 }
    requires empty { bytes.old ≡ [] }
    ensures { option_map (λ f. said_by f bytes.new) result ≡ form_of buses.now text.now }
{
    let a = after(b'(', text)?;
    let (seconds, b) = seconds(a)?;
    let (micros, c) = micros(b)?;
    let (name, d) = bus_name(c)?;
    behind_bus(buses, seconds * 1_000_000 + micros, name, d, bytes)
}

/// The line without a carriage return at its end.
#[inline(always)]
fn without_return(line: &[u8]) -> &[u8]
    ensures { result.now ≡ without_return line.now }
{
    let n = line.len();
    if n >= 1 && line[n - 1] == b'\r' {
        &line[..n - 1]
    } else {
        line
    }
}

/// What a line says to a node with these buses. The bytes of a frame are put into `bytes`.
#[inline(always)]
pub fn read_line(buses: &[BusName], line: &[u8], bytes: &mut FrameData) -> Found
    requires few { length buses.now ≤ 3 }
    requires empty { bytes.old ≡ [] }
    ensures { said_by result bytes.new ≡ said_of buses.now line.now }
{
    if line.len() > 4096 {
        return Found::NoForm;
    }
    let text = without_return(line);
    if text.len() == 0 {
        return Found::Nothing;
    }
    match form(buses, text, bytes) {
        Some(found) => found,
        None => Found::NoForm,
    }
}
