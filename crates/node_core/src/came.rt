//! What a record came to at a node.
ghost use Rattle.std.specs.Prelude.{◌≡◌};
ghost use Rattle.tail_frame.specs.Frames.{seen};
ghost use Rattle.node_core.specs.Came.{frame_with};

use can_id::Ident;
use rx_table::Met;
use tail_frame::{Frame, Record, Tail};

/// What a record came to; it borrows nothing.
#[derive(Clone, Copy, Debug, PartialEq, Eq)]
pub struct Came {
    /// Whether the record ends a transfer whose bytes don't fit their CRC.
    pub badcrc: bool,
    /// The frame that the record is. None where it is none for the node, and where its subject has
    /// no port.
    pub heard: Option<Heard>,
}

/// A frame that a node heard, without its data.
#[derive(Clone, Copy, Debug, PartialEq, Eq)]
pub struct Heard {
    /// What its identifier says.
    pub ident: Ident,
    /// Its tail.
    pub tail: Tail,
    /// What it came to in the table of sessions.
    pub met: Met,
}

impl Came {
    ghost use Rattle.std.specs.Bool.{OnFalse};
    ghost use Rattle.node_core.specs.Came.{EndsNoRequest, may_ask};

    /// Whether the record may be a request: it is a frame of a service's request. Any other asks
    /// nothing.
    #[inline(always)]
    pub fn may_ask(&self) -> bool
        ensures value { result ≡ may_ask self.now }
        ensures none { OnFalse result (EndsNoRequest self.now) }
    {
        matches!(
            self.heard,
            Some(Heard {
                ident: Ident::Service { request: true, .. },
                ..
            })
        )
    }
}

impl Heard {
    /// The frame, whose data is lent from its record.
    #[inline(always)]
    pub fn frame(self, rec: &Record) -> Frame<'_>
        ensures { seen result ≡ frame_with rec.now self.ident self.tail }
    {
        let bytes = rec.bytes.as_slice();
        Frame {
            line: rec.line,
            moment: rec.moment,
            bus: rec.bus,
            ident: self.ident,
            tail: self.tail,
            body: &bytes[..bytes.len().saturating_sub(1)],
        }
    }
}
