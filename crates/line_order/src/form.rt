//! What a line says.
ghost use Rattle.std.specs.Prelude.{◌≡◌, ◌≤◌, ◌<◌, ◌^◌, ◌++◌, ◌∷◌, [], option_map, length, IfOk, IfSome};
ghost use Rattle.frame_log.specs.Line.{after, bus_of, cut, decimal_from, seconds_of, without_return};
ghost use Rattle.line_order.specs.Form.{behind_spaces, form_of, micros_of, moment_of, said_of, spaced, with_rest};
ghost use Rattle.line_order.specs.Said.{said_by, said_by_parts, text_of_parts};

use cy_bits::NoMemory;
use memchr::memchr;
use std::alloc::Global;

/// The parts of a line of a log.
#[derive(Clone, Copy)]
pub struct Parts<'a> {
    /// Its moment in microseconds.
    pub moment: u64,
    /// Its moment as it is written, but for the parenthesis at the end.
    pub stamp: &'a [u8],
    /// The name of its bus.
    pub bus: &'a [u8],
    /// What stands behind.
    pub rest: &'a [u8],
}

/// What was found in a line.
#[derive(Clone, Copy)]
pub enum Found<'a> {
    /// The line has no form.
    NoForm,
    /// The line is empty.
    Nothing,
    /// A line of a log.
    Line(Parts<'a>),
}

impl Parts<'_> {
    /// The line with one space between its parts, without a newline.
    pub fn text(&self, alloc: Global) -> Result<Vec<u8>, NoMemory>
        ensures { IfOk result (λ text. text.items ++ 10 ∷ [] ≡ text_of_parts self.now) }
    {
        let size = self.stamp.len().saturating_add(self.bus.len());
        let size = size.saturating_add(self.rest.len()).saturating_add(3);
        let mut text = Vec::with_capacity(alloc, size)?;
        text.extend_from_slice(self.stamp)?;
        text.extend_from_slice(b") ")?;
        text.extend_from_slice(self.bus)?;
        text.push(b' ')?;
        text.extend_from_slice(self.rest)?;
        Ok(text)
    }
}

/// What stands before the first byte `b`, and behind it.
fn cut(b: u8, s: &[u8]) -> Option<(&[u8], &[u8])>
    ensures { option_map (λ p. (p.0.now, p.1.now)) result ≡ cut b s.now }
{
    match memchr(b, s) {
        Some(n) => Some((&s[..n], &s[n + 1..])),
        None => None,
    }
}

/// The number of at most 12 digits.
#[inline(always)]
pub fn decimal(digits: &[u8]) -> Option<u64>
    requires { length digits.now ≤ 12 }
    ensures value { result ≡ decimal_from 0 digits.now }
    ensures bound { IfSome result (λ n. n < 10 ^ 12) }
{
    let mut n = 0u64;
    for b in digits {
        if *b < b'0' || *b > b'9' {
            return None;
        }
        n = n * 10 + (*b - b'0') as u64;
    }
    Some(n)
}

/// What follows the byte `b`, which stands in front.
pub fn after(b: u8, s: &[u8]) -> Option<&[u8]>
    ensures { option_map (λ r. r.now) result ≡ after b s.now }
{
    match s {
        [x, behind @ ..] if *x == b => Some(behind),
        _ => None,
    }
}

/// SECONDS, 1 to 12 digits, and the point.
pub fn seconds(s: &[u8]) -> Option<(u64, &[u8])>
    ensures value { option_map (λ p. (p.0, p.1.now)) result ≡ seconds_of s.now }
    ensures bound { IfSome result (λ p. p.0 < 10 ^ 12) }
{
    let (digits, behind) = cut(b'.', s)?;
    if digits.len() == 0 || digits.len() > 12 {
        return None;
    }
    let seconds = decimal(digits)?;
    Some((seconds, behind))
}

/// MICROS, six digits.
fn micros(digits: &[u8]) -> Option<u64>
    ensures value { result ≡ micros_of digits.now }
    ensures bound { IfSome result (λ n. n < 10 ^ 12) }
{
    if digits.len() != 6 {
        return None;
    }
    decimal(digits)
}

/// The moment of `(SECONDS.MICROS`, in microseconds.
fn moment(stamp: &[u8]) -> Option<u64>
    ensures { result ≡ moment_of stamp.now }
{
    let digits = after(b'(', stamp)?;
    let (seconds, behind) = seconds(digits)?;
    let micros = micros(behind)?;
    Some(seconds * 1_000_000 + micros)
}

/// The bytes behind the spaces in front.
fn behind_spaces(s: &[u8]) -> &[u8]
    ensures { result.now ≡ behind_spaces s.now }
{
    for i in 0..s.len() {
        if s[i] != b' ' {
            return &s[i..];
        }
    }
    &[]
}

/// The same, where there is one space at least.
fn spaced(s: &[u8]) -> Option<&[u8]>
    ensures { option_map (λ r. r.now) result ≡ spaced s.now }
{
    let behind = after(b' ', s)?;
    Some(behind_spaces(behind))
}

/// BUS, 1 to 15 bytes, and the space behind it.
fn bus_name(s: &[u8]) -> Option<(&[u8], &[u8])>
    ensures { option_map (λ p. (p.0.now, p.1.now)) result ≡ bus_of s.now }
{
    let (name, behind) = cut(b' ', s)?;
    if name.len() == 0 || name.len() > 15 {
        return None;
    }
    Some((name, behind))
}

/// `(SECONDS.MICROS)`, spaces, BUS, spaces, and a rest.
fn read_parts(text: &[u8]) -> Option<Parts<'_>>
    ensures { option_map said_by_parts result ≡ form_of text.now }
{
    let (stamp, behind) = cut(b')', text)?;
    let moment = moment(stamp)?;
    let name = spaced(behind)?;
    let (bus, behind) = bus_name(name)?;
    with_rest(moment, stamp, bus, behind_spaces(behind))
}

/// The parts of a line, where the rest has one byte at least.
fn with_rest<'a>(moment: u64, stamp: &'a [u8], bus: &'a [u8], rest: &'a [u8]) -> Option<Parts<'a>>
    ensures { option_map said_by_parts result ≡ with_rest moment stamp.now bus.now rest.now }
{
    if rest.len() == 0 {
        return None;
    }
    Some(Parts {
        moment,
        stamp,
        bus,
        rest,
    })
}

/// The line without a carriage return at its end.
fn without_return(line: &[u8]) -> &[u8]
    ensures { result.now ≡ without_return line.now }
{
    let n = line.len();
    if n >= 1 && line[n - 1] == b'\r' {
        &line[..n - 1]
    } else {
        line
    }
}

/// What a line says.
pub fn read_line(line: &[u8]) -> Found<'_>
    ensures { said_by result ≡ said_of line.now }
{
    let text = without_return(line);
    if text.len() == 0 {
        return Found::Nothing;
    }
    match read_parts(text) {
        Some(parts) => Found::Line(parts),
        None => Found::NoForm,
    }
}
