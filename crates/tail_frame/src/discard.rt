ghost use Rattle.std.specs.Prelude.{◌≡◌};
ghost use Rattle.tail_frame.specs.Frames.{broken_by, is_anonymous};

use crate::tail::Tail;
use can_id::Ident;

/// Why a record is no frame: the first of these that holds (Cyphal Specification, section 4.2).
#[derive(Clone, Copy, Debug, PartialEq, Eq)]
pub enum Discard {
    /// Its identifier is that of no frame.
    Identifier,
    /// It has no data.
    Empty,
    /// It is a start with toggle 0.
    Toggle,
    /// It is anonymous, and not both start and end.
    Anonymous,
    /// It isn't an end, and has fewer than 7 bytes before the tail.
    Short,
    /// It isn't both start and end, and has no byte before the tail.
    Bare,
}

/// Why a frame with so many bytes before the tail is discarded, if it is.
#[inline(always)]
pub(crate) fn broken_by(ident: Ident, tail: Tail, size: usize) -> Option<Discard>
    ensures { result ≡ broken_by ident tail size }
{
    let is_whole = tail.start && tail.end;
    if tail.start && !tail.toggle {
        Some(Discard::Toggle)
    } else if is_anonymous(ident) && !is_whole {
        Some(Discard::Anonymous)
    } else if !tail.end && size < 7 {
        Some(Discard::Short)
    } else if !is_whole && size == 0 {
        Some(Discard::Bare)
    } else {
        None
    }
}

/// Whether the sender has no node-ID.
#[inline(always)]
fn is_anonymous(ident: Ident) -> bool
    ensures { result ≡ is_anonymous ident }
{
    matches!(ident, Ident::Anonymous { .. })
}
