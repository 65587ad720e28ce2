ghost use Rattle.std.specs.Prelude.{◌≡◌, ◌<◌, ◌≤◌, IfOk, IfSome, Some, length, option_map};
ghost use Rattle.std.specs.Option.{option_and_then};
ghost use Rattle.std.specs.Result.{result_ok, result_err};
ghost use Rattle.can_id.specs.Identifiers.{IsIdent, ident_of};
ghost use Rattle.tail_frame.specs.Frames.{discard_at, discard_of, frame_of, framed, last_byte, seen};

use crate::discard::{Discard, broken_by};
use crate::logged::Record;
use crate::tail::Tail;
use can_id::{Ident, parse};

/// A record whose identifier and tail byte are those of a Cyphal frame (Cyphal Specification,
/// section 4.2).
#[derive(Clone, Copy, Debug)]
pub struct Frame<'a> {
    /// The line of the log, counted from 1.
    pub line: u64,
    /// When it was received, in microseconds.
    pub moment: u64,
    /// The bus on which it was received: its place among the buses of the plan, counted from 0.
    pub bus: u8,
    /// What the identifier says.
    pub ident: Ident,
    /// The last data byte.
    pub tail: Tail,
    /// The data bytes before the tail, at most 63.
    pub body: &'a [u8],
}

/// The frame that a record is, or `None` where it is discarded (Cyphal Specification, section 4.2):
/// its identifier says nothing, it has no data, it is a start with toggle 0, it is anonymous and
/// not both start and end, it isn't an end and has fewer than 7 bytes before the tail, or it isn't
/// both start and end and has none.
#[inline(always)]
pub fn frame_of(rec: &Record) -> Option<Frame<'_>>
    ensures value { option_map seen result ≡ frame_of rec.now }
    ensures place { IfSome result
        (λ f. (f.line ≡ rec.now.line) × (f.moment ≡ rec.now.moment) × (f.bus ≡ rec.now.bus)) }
    ensures ranges { IfSome result
        (λ f. (f.tail.tid < 32) × (length f.body.now ≤ 63) × IsIdent f.ident) }
{
    match read_frame(rec) {
        Ok(frame) => Some(frame),
        Err(_) => None,
    }
}

/// The frame that a record is, or why it is discarded (Cyphal Specification, section 4.2).
#[inline(always)]
pub fn read_frame(rec: &Record) -> Result<Frame<'_>, Discard>
    ensures frame { option_map seen (result_ok result) ≡ frame_of rec.now }
    ensures discard { result_err result ≡ discard_of rec.now }
    ensures place { IfOk result
        (λ f. (f.line ≡ rec.now.line) × (f.moment ≡ rec.now.moment) × (f.bus ≡ rec.now.bus)) }
    ensures ranges { IfOk result
        (λ f. (f.tail.tid < 32) × (length f.body.now ≤ 63) × IsIdent f.ident) }
{
    match ident_of(rec.ident) {
        Some(ident) => read_data(rec, ident),
        None => Err(Discard::Identifier),
    }
}

/// The same of a record with this identifier.
#[inline(always)]
fn read_data(rec: &Record, ident: Ident) -> Result<Frame<'_>, Discard>
    ensures frame { option_map seen (result_ok result)
        ≡ option_and_then (framed rec.now ident) (last_byte rec.now.bytes) }
    ensures discard { result_err result ≡ discard_at rec.now ident (last_byte rec.now.bytes) }
    ensures place { IfOk result
        (λ f. (f.line ≡ rec.now.line) × (f.moment ≡ rec.now.moment) × (f.bus ≡ rec.now.bus)) }
    ensures ranges { IfOk result
        (λ f. (f.tail.tid < 32) × (length f.body.now ≤ 63) × (f.ident ≡ ident)) }
{
    let bytes = rec.bytes.as_slice();
    if bytes.is_empty() {
        return Err(Discard::Empty);
    }
    read_tail(rec, ident, bytes[bytes.len() - 1])
}

/// The same where this is the last data byte.
#[inline(always)]
fn read_tail(rec: &Record, ident: Ident, byte: u8) -> Result<Frame<'_>, Discard>
    requires data { 0 < length rec.now.bytes }
    ensures frame { option_map seen (result_ok result) ≡ framed rec.now ident byte }
    ensures discard { result_err result ≡ discard_at rec.now ident (Some byte) }
    ensures place { IfOk result
        (λ f. (f.line ≡ rec.now.line) × (f.moment ≡ rec.now.moment) × (f.bus ≡ rec.now.bus)) }
    ensures ranges { IfOk result
        (λ f. (f.tail.tid < 32) × (length f.body.now ≤ 63) × (f.ident ≡ ident)) }
{
    let bytes = rec.bytes.as_slice();
    let size = bytes.len() - 1;
    let tail = Tail::parse(byte);
    match broken_by(ident, tail, size) {
        Some(why) => Err(why),
        None => Ok(Frame {
            line: rec.line,
            moment: rec.moment,
            bus: rec.bus,
            ident,
            tail,
            body: &bytes[..size],
        }),
    }
}

/// What an identifier says. A number of more than 29 bits is none.
#[inline(always)]
fn ident_of(bits: u32) -> Option<Ident>
    ensures value { result ≡ ident_of bits }
    ensures ranges { IfSome result IsIdent }
{
    if bits < 0x2000_0000 {
        parse(bits)
    } else {
        None
    }
}
