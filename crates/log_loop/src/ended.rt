use frame_log::LogWhy;

/// How a loop over a log ended.
#[derive(Clone, Copy, Debug, PartialEq, Eq)]
pub enum Ended {
    /// The log was heard to its end.
    Ok,
    /// A line of the log, counted from 1, is refused.
    Log { line: u64, why: LogWhy },
    /// The input has more than 2^28 bytes.
    LogLong,
    /// The input failed.
    ReadFault,
    /// The output failed.
    WriteFault,
    /// Memory was wanted and not given.
    NoMemory,
}
