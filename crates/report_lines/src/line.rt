use can_id::Key;
use cy_bits::{Bytes, ShortList, Text};
use dsdl_types::{ReadWhy, Value};

/// One line of the report.
#[derive(Drop)]
pub enum Line {
    /// A transfer was received.
    Rx(Rx),
    /// A start frame came from a source that its port has no session for.
    NoSession(Refused),
    /// A frame left the node.
    Tx(Tx),
    /// A bus had no places for a transfer that the node sends.
    Full(FullLine),
}

/// A transfer that was received.
#[derive(Drop)]
pub struct Rx {
    /// When its first frame was received, in microseconds.
    pub moment: u64,
    /// The bus on which it was received: its place among the buses of the plan, counted from 0.
    pub bus: u8,
    /// The port, and the sender.
    pub key: Key,
    /// The priority of its last frame, 0 (exceptional) to 7 (optional).
    pub priority: u8,
    /// The transfer-ID, 0 to 31.
    pub tid: u8,
    /// What the payload says.
    pub reading: Reading,
    /// The line of the log with its first frame, counted from 1.
    pub first: u64,
    /// The line of the log with its last frame.
    pub last: u64,
    /// The payload, cut to the extent of the port.
    pub payload: Bytes,
}

/// What a payload says (Cyphal Specification, section 3.7).
#[derive(Drop)]
pub enum Reading {
    /// Bytes: the port has no type.
    Raw,
    /// A value of the port's type.
    Good {
        /// The value.
        value: Value,
        /// Its text.
        text: Text,
    },
    /// No value of the port's type: the bytes can't be read.
    Bad {
        /// The path to the part that is refused first in reading order: names with `.` between,
        /// `[i]` for an item, `.` alone for the whole.
        path: Text,
        /// Why it is refused, with the number that was read.
        why: ReadWhy,
    },
}

/// A start frame for whose source its port has no session left.
#[derive(Clone, Copy, Debug, PartialEq, Eq)]
pub struct Refused {
    /// When it was received, in microseconds.
    pub moment: u64,
    /// The bus on which it was received: its place among the buses of the plan, counted from 0.
    pub bus: u8,
    /// The port, and the sender.
    pub key: Key,
    /// The line of the log, counted from 1.
    pub line: u64,
}

/// A frame that left the node.
#[derive(Drop)]
pub struct Tx {
    /// The moment of the step behind which it left, in microseconds.
    pub moment: u64,
    /// The bus on which it left: its place among the buses of the plan, counted from 0.
    pub bus: u8,
    /// Its identifier, of 29 bits.
    pub ident: u32,
    /// Its data bytes, with the tail.
    pub bytes: ShortList<u8, 64>,
}

/// A bus has fewer places free than a transfer has frames. None of them leaves on it.
#[derive(Clone, Copy, Debug, Default, PartialEq, Eq)]
pub struct FullLine {
    /// The moment of the step that sends the transfer, in microseconds.
    pub moment: u64,
    /// The bus: its place among the buses of the plan, counted from 0.
    pub bus: u8,
    /// The port of the transfer.
    pub port: u16,
    /// The number of the transfer's frames on this bus.
    pub needed: u64,
    /// The number of places that are free.
    pub free: u64,
}
