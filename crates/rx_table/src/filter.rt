//! The filter of a node: the frames that are for it.
ghost use Rattle.std.specs.Prelude.{◌≡◌, ◌<◌, true, IfSome, option_map};
ghost use Rattle.can_id.specs.Identifiers.{IsIdent};
ghost use Rattle.tail_frame.specs.Frames.{seen};
ghost use Rattle.rx_table.specs.Heard.{is_for, frame_for};

use can_id::Ident;
use tail_frame::{Frame, Record, frame_of};

/// The frame that a record is, or `None` where it is discarded, is the node's own, or is of a
/// service of another node (Cyphal Specification, sections 4.1 and 4.2).
#[inline(always)]
pub fn frame_for(node: u8, rec: &Record) -> Option<Frame<'_>>
    ensures value { option_map seen result ≡ frame_for node rec.now }
    ensures moment { IfSome result (λ frame. frame.moment ≡ rec.now.moment) }
    ensures ranges { IfSome result (λ frame. (frame.tail.tid < 32) × IsIdent frame.ident) }
    ensures own { IfSome result (λ frame. is_for node frame.ident ≡ true) }
{
    let frame = frame_of(rec)?;
    if is_for(node, frame.ident) {
        Some(frame)
    } else {
        None
    }
}

/// Whether a frame is for the node.
#[inline(always)]
fn is_for(node: u8, ident: Ident) -> bool
    ensures { result ≡ is_for node ident }
{
    match ident {
        Ident::Message { source, .. } => source != node,
        Ident::Anonymous { .. } => true,
        Ident::Service {
            destination,
            source,
            ..
        } => source != node && destination == node,
    }
}
