use can_id::Key;
use cy_bits::{Bytes, List};

/// A transfer of a key, as its sender submitted it (Cyphal Specification, section 4.1.1).
#[derive(Drop)]
pub struct Transfer {
    /// 0 (exceptional) to 7 (optional).
    pub priority: u8,
    /// The transfer-ID, 0 to 31.
    pub tid: u8,
    /// When it was submitted, in microseconds.
    pub moment: u64,
    /// The receiver's node-ID, 0 to 127. A message has none.
    pub destination: Option<u8>,
    /// The bytes without padding and CRC.
    pub payload: Bytes,
}

/// The transfers of a key that were sent, on every bus (Cyphal Specification, section 4.1.3).
#[derive(Drop)]
pub struct Sent {
    /// The kind, port and source of all of them.
    pub key: Key,
    /// The frame size of each bus, 8 or 64, in the order of the plan.
    pub sizes: List<u8>,
    /// The transfers; their moments never fall.
    pub transfers: List<Transfer>,
}

/// Frame `i` of the transfer at the place `j` of a sent list, both counted from 0.
#[derive(Clone, Copy, Debug, PartialEq, Eq)]
pub struct Pair {
    /// The transfer's place in the list.
    pub j: u64,
    /// The frame's number in the transfer.
    pub i: u64,
}
