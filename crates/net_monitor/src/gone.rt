use cy_bits::ShortList;

/// Who went offline, and until when nobody else does.
#[derive(Drop)]
pub struct Gone {
    /// The nodes, ascending.
    pub nodes: ShortList<u8, 128>,
    /// A moment in microseconds until which each node stays online that is so, without a further
    /// heartbeat.
    pub calm: u64,
}
