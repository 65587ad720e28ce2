ghost use Rattle.std.specs.Prelude.{◌≡◌};
ghost use Rattle.rx_table.specs.Places.{whole_index};

use rx_session::{Delivery, Front, Outcome, Step};

/// What a frame came to in a table (Cyphal Specification, section 4.1.4).
#[derive(Clone, Copy, Debug)]
pub enum Fed<'a> {
    /// Its kind and port aren't subscribed.
    NoPort,
    /// It is a start frame of a new source, and the port has as many sources as it takes.
    NoSession,
    /// It is anonymous (Cyphal Specification, section 4.1), and is delivered at once. The payload
    /// is lent from the frame.
    Anonymous(Delivery<'a>),
    /// What its session made of it. The payload is lent from the session's buffer, or that of a whole
    /// transfer from the frame.
    Session(Outcome<'a>),
}

/// What a frame came to in a table, without borrowing a payload.
#[derive(Clone, Copy, Debug, PartialEq, Eq)]
pub enum Met {
    /// Its kind and port aren't subscribed.
    NoPort,
    /// It is anonymous, and its payload is the front of its body.
    Anonymous(Front),
    /// What it came to on the port at a place.
    Port {
        /// The place of its kind and port among the table's ports.
        place: usize,
        /// What it came to there.
        met: PortMet,
    },
}

/// What a frame that has a source came to on its port, without borrowing a payload.
#[derive(Clone, Copy, Debug, PartialEq, Eq)]
pub enum PortMet {
    /// It is a start frame of a new source, and the port has as many sources as it takes.
    NoSession,
    /// It is a frame of a new source that isn't a start.
    Ignored,
    /// What the session that its source had made of it.
    Session {
        /// The place of its source among the port's sources.
        index: usize,
        /// What the session made of it.
        step: Step,
    },
    /// What a session made of it that was opened for it.
    Opened {
        /// The place of its source among the port's sources, where it had none before.
        index: usize,
        /// What the session made of it.
        step: Step,
    },
}

impl PortMet {
    /// The place of the session that took a whole transfer, if one did.
    pub(crate) fn whole(&self) -> Option<usize>
        ensures { result ≡ whole_index self.now }
    {
        match self {
            PortMet::Session {
                index,
                step: Step::Whole,
            } => Some(*index),
            PortMet::Opened {
                index,
                step: Step::Whole,
            } => Some(*index),
            _ => None,
        }
    }
}

/// Why a subscription was refused. The table is then as before.
#[derive(Clone, Copy, Debug, PartialEq, Eq)]
pub enum SubscribeError {
    /// That kind and port is there.
    Taken,
    /// Want of memory.
    NoMemory,
}
