/// Why registers weren't opened.
#[derive(Clone, Copy, Debug, PartialEq, Eq)]
pub enum OpenError {
    /// A register's value isn't within its limits.
    Outside {
        /// The number of the first such register, counted from 0.
        index: u16,
    },
    /// Want of memory; `open` takes none.
    NoMemory,
}
