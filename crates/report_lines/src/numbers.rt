/// The numbers of a report.
#[derive(Clone, Copy, Debug, PartialEq, Eq)]
pub struct Numbers {
    /// The records of the log.
    pub records: u64,
    /// The transfers that were received.
    pub delivered: u64,
    /// The transfers whose bytes didn't fit their CRC.
    pub badcrc: u64,
    /// The start frames that had no session.
    pub nosession: u64,
    /// The frames that were sent.
    pub sent: u64,
    /// The bytes that the buffers of the open sessions take.
    pub held: u64,
    /// The bytes that the buffers of all sessions that the plan allows would take.
    pub bound: u64,
}
