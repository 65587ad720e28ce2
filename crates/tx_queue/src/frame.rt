use cy_bits::ShortList;

/// A frame that waits to be sent (Cyphal Specification, section 4.2).
#[derive(Drop)]
pub struct OutFrame {
    /// The identifier. On the bus a lower one has the higher priority.
    pub ident: u32,
    /// The data bytes, with the tail.
    pub bytes: ShortList<u8, 64>,
}

/// A transfer has more frames than there are places free. None of them waits.
#[derive(Clone, Copy, Debug, PartialEq, Eq)]
pub struct Full {
    /// The number of the transfer's frames.
    pub needed: u64,
    /// The number of free places.
    pub free: u64,
}
