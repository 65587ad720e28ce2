use cy_bits::NoMemory;

/// Why no text is put.
#[derive(Clone, Copy, Debug, PartialEq, Eq, Drop)]
pub enum Stop {
    /// The bits can't be read, or not by this crate. Which of the two isn't said.
    GivesUp,
    /// Memory was wanted and not given.
    NoMemory,
}

impl From<NoMemory> for Stop {
    fn from(_: NoMemory) -> Stop {
        Stop::NoMemory
    }
}
