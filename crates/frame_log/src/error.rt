/// Why a log's records end before its bytes do. `n` is the number of the refused line, counted from 1.
#[derive(Clone, Copy, Debug, PartialEq, Eq)]
pub enum LogError {
    /// The line has no form of a log line, or more than 4,096 bytes.
    BadLine { n: u64 },
    /// The line's moment is below that of the record before.
    TimeBack { n: u64 },
    /// The line's bus is none of the reader's.
    UnknownBus { n: u64 },
    /// The line's moment is more than 100,000 seconds after that of the first record.
    TooFar { n: u64 },
    /// The log has more than 2^28 bytes.
    LogLong,
    /// The input failed.
    Failed,
}

/// Why a line of a log is refused.
#[derive(Clone, Copy, Debug, PartialEq, Eq)]
pub enum LogWhy {
    /// It has no form of a log line, or more than 4,096 bytes.
    BadLine,
    /// Its moment is below that of the record before.
    TimeBack,
    /// Its bus is none of the reader's.
    UnknownBus,
    /// Its moment is more than 100,000 seconds after that of the first record.
    TooFar,
}
