use crate::reasons::Reason;
use can_id::Key;

/// What is said of a record.
#[derive(Clone, Copy, Debug, PartialEq, Eq)]
pub struct FrameLine {
    /// The line of the log, counted from 1.
    pub line: u64,
    /// When it was received, in microseconds.
    pub moment: u64,
    /// The bus on which it was received: its place among the buses of the plan, counted from 0.
    pub bus: u8,
    /// The transfer that it is a frame of, where it is one.
    pub transfer: Option<Transfer>,
    /// Why it came to what it did.
    pub reason: Reason,
}

/// What a frame says of its transfer.
#[derive(Clone, Copy, Debug, PartialEq, Eq)]
pub struct Transfer {
    /// Its kind, port and source.
    pub key: Key,
    /// Its transfer-ID, 0 to 31.
    pub tid: u8,
}
