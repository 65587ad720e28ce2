/// What an allocator hears (Cyphal Specification, section 5.3.12).
#[derive(Clone, Copy, Debug, PartialEq, Eq)]
pub enum AllocEvent {
    /// A node was seen on the bus.
    Seen {
        /// Its node-ID, at most 127.
        node: u8,
    },
    /// A node without a node-ID wants one.
    Wanted {
        /// Its unique id.
        uid: u64,
    },
}

/// What an allocator answers (Cyphal Specification, section 5.3.12).
#[derive(Clone, Copy, Debug, PartialEq, Eq)]
pub enum AllocOut {
    /// A node was seen; there is nothing to answer.
    Noted,
    /// The unique id has this node-ID.
    Given {
        /// The node-ID, 1 to 125.
        node: u8,
    },
    /// The unique id has no node-ID, and none is free.
    Full,
}

/// A unique id and the node-ID that it was given.
#[derive(Clone, Copy, Debug, Default, PartialEq, Eq)]
pub struct Owner {
    /// The unique id.
    pub uid: u64,
    /// The node-ID, 1 to 125.
    pub node: u8,
}
