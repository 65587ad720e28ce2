//! A line of the report whose payload is lent.
ghost use Rattle.std.specs.Prelude.{◌≡◌, ◌≢◌, IfOk, None, OnErr};
ghost use Rattle.report_lines.specs.Lent.{owned, reading_in};

use crate::compiled_shape::CompiledShape;
use crate::line::{FullLine, Line, Reading, Refused, Rx, Tx};
use can_id::Key;
use cy_bits::{Bytes, NoMemory, ShortList};
use std::alloc::Global;

/// One line of the report, with its payload lent.
#[derive(Clone, Copy)]
pub enum LineRef<'a> {
    /// A transfer was received.
    Rx(RxRef<'a>),
    /// A start frame came from a source that its port has no session for.
    NoSession(Refused),
    /// A frame left the node.
    Tx(TxRef<'a>),
    /// A bus had no places for a transfer that the node sends.
    Full(FullLine),
}

/// A frame that left the node, with its data bytes lent.
#[derive(Clone, Copy)]
pub struct TxRef<'a> {
    /// The moment of the step behind which it left, in microseconds.
    pub moment: u64,
    /// The bus on which it left: its place among the buses of the plan, counted from 0.
    pub bus: u8,
    /// Its identifier, of 29 bits.
    pub ident: u32,
    /// Its data bytes, with the tail.
    pub bytes: &'a ShortList<u8, 64>,
}

/// A transfer that was received, with its payload lent. What that says isn't read before it is
/// asked for.
#[derive(Clone, Copy)]
pub struct RxRef<'a> {
    /// When its first frame was received, in microseconds.
    pub moment: u64,
    /// The bus on which it was received: its place among the buses of the plan, counted from 0.
    pub bus: u8,
    /// The port, and the sender.
    pub key: Key,
    /// The priority of its last frame, 0 (exceptional) to 7 (optional).
    pub priority: u8,
    /// The transfer-ID, 0 to 31.
    pub tid: u8,
    /// The type of the port, or `None` where the payload is bytes.
    pub port_type: Option<&'a CompiledShape>,
    /// The line of the log with its first frame, counted from 1.
    pub first: u64,
    /// The line of the log with its last frame.
    pub last: u64,
    /// The payload, cut to the extent of the port.
    pub payload: &'a [u8],
}

impl TxRef<'_> {
    ghost use Rattle.report_lines.specs.declared.line_ref.LineRef.{LineRef as Lent};

    /// The same line, with a copy of the data bytes. Takes no memory.
    fn copy(&self) -> Line
        ensures { result ≡ owned (Lent.Tx self.now) }
    {
        Line::Tx(Tx {
            moment: self.moment,
            bus: self.bus,
            ident: self.ident,
            bytes: copy_of(self.bytes),
        })
    }
}

impl RxRef<'_> {
    /// What the payload says. Memory is never wanting where the port has no type.
    pub fn reading(&self, alloc: Global) -> Result<Reading, NoMemory>
        ensures reading { IfOk result (λ reading. reading ≡ reading_in self.now) }
        ensures memory { OnErr result (self.now.port_type ≢ None) }
    {
        match self.port_type {
            None => Ok(Reading::Raw),
            Some(shape) => shape.reading(alloc, self.payload),
        }
    }
}

impl<'a> LineRef<'a> {
    /// The same line, with a copy of the payload, and with what that says.
    pub fn copy(&self, alloc: Global) -> Result<Line, NoMemory>
        ensures { IfOk result (λ line. line ≡ owned self.now) }
    {
        match self {
            LineRef::Rx(rx) => Ok(Line::Rx(Rx {
                moment: rx.moment,
                bus: rx.bus,
                key: rx.key,
                priority: rx.priority,
                tid: rx.tid,
                reading: rx.reading(alloc)?,
                first: rx.first,
                last: rx.last,
                payload: Bytes::from_slice(alloc, rx.payload)?,
            })),
            LineRef::NoSession(refused) => Ok(Line::NoSession(*refused)),
            LineRef::Tx(tx) => Ok(tx.copy()),
            LineRef::Full(full) => Ok(Line::Full(*full)),
        }
    }
}

/// The same bytes.
fn copy_of(bytes: &ShortList<u8, 64>) -> ShortList<u8, 64>
    ensures { result ≡ bytes.now }
{
    let mut copied = ShortList::new();
    for byte in bytes.as_slice() {
        copied.push(*byte);
    }
    copied
}
