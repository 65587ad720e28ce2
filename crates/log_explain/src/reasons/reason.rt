use tail_frame::Discard;

/// Why a record came to what it did.
#[derive(Clone, Copy, Debug, PartialEq, Eq)]
pub enum Reason {
    /// It is no frame.
    Discarded(Discard),
    /// It comes from the node itself.
    Own,
    /// It is a frame of a service for another node, with this node-ID.
    Elsewhere(u8),
    /// It is on no port that is subscribed.
    Unsubscribed,
    /// It isn't a start, and its source has no session.
    Unknown,
    /// It is a start, and its source gets no session.
    NoSession,
    /// It is on another bus than the active one, and changes nothing.
    Standby(Silence),
    /// It is a start with the transfer-ID of the last delivery, and isn't late. The last frame of
    /// that delivery stands on this line.
    Copy(u64),
    /// It is a start, and begins a transfer of several frames.
    Begun(Change),
    /// It ends a transfer that is delivered.
    Delivered {
        /// The line of the transfer's first frame.
        first: u64,
        /// What changes with it, where it is the first frame too.
        change: Change,
    },
    /// It ends a transfer whose bytes don't fit their CRC, and whose first frame stands on this
    /// line.
    BadCrc(u64),
    /// It is taken into a transfer whose first frame stands on this line.
    Taken(u64),
    /// It isn't a start, and no transfer is running.
    StrayNone,
    /// It isn't a start, and the transfer that is running has this other transfer-ID.
    StrayTid(u8),
    /// It isn't a start, and has the toggle of the frame before, of the transfer that is running
    /// and whose first frame stands on this line: it is a repeat, or a frame between was lost.
    StrayToggle(u64),
}

/// What changes with a start frame that begins a transfer.
#[derive(Clone, Copy, Debug, PartialEq, Eq)]
pub struct Change {
    /// The line of the first frame of the transfer that was running, and is given up.
    pub over: Option<u64>,
    /// The bus that was active, where another one becomes it.
    pub from: Option<Silence>,
}

/// The bus that is active, or was.
#[derive(Clone, Copy, Debug, PartialEq, Eq)]
pub struct Silence {
    /// Its number.
    pub bus: u8,
    /// For how long no frame of the session came on it, in microseconds.
    pub micros: u64,
}

impl Change {
    /// Nothing changes.
    pub const NONE: Change = Change {
        over: None,
        from: None,
    };
}
