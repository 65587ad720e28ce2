use frame_log::LogWhy;

/// Why a line is refused.
#[derive(Clone, Copy, Debug, PartialEq, Eq)]
pub struct Refusal {
    /// The number of the line, counted from 1.
    pub line: u64,
    /// `BadLine` where it has no form of a line, `TimeBack` where it comes later than the window
    /// allows.
    pub why: LogWhy,
}
