//! What is asked for the line on a record, before that is heard.
ghost use Rattle.std.specs.Prelude.{◌≡◌, ◌≤◌, ◌^◌, IfSome, None, Some, option_map};
ghost use Rattle.can_id.specs.Identifiers.{IsIdent, key_of};
ghost use Rattle.node_core.specs.Quick.{IsLead};
ghost use Rattle.tail_frame.specs.Frames.{frame_of, seen};
ghost use Rattle.rx_table.specs.Views.{place_in};
ghost use Rattle.log_explain.specs.Reasons.{aside};
ghost use Rattle.log_explain.specs.Places.{slot_at};
ghost use Rattle.log_explain.specs.Slots.{IsCounted, IsLastAt, line_with, passing};

use crate::line::{FrameLine, Transfer};
use crate::reasons::{Reason, place_of};
use crate::tallies::{Tallies, slot_of};
use can_id::Ident;
use node_core::{Lead, Node};
use tail_frame::{Frame, Record};

/// The place of the port of a frame, whose record leads there.
#[inline(always)]
pub(crate) fn place_by(node: &Node, lead: Lead, rec: &Record, frame: &Frame) -> Option<usize>
    requires frame { frame_of rec.now ≡ Some (seen frame.now) }
    requires ident { IsIdent frame.now.ident }
    requires lead { IsLead node.now rec.now lead }
    ensures { let key = key_of frame.now.ident in
        result ≡ place_in key.kind key.port node.now.table }
{
    match lead {
        Lead::AtPort(place) => Some(place),
        _ => {
            let key = frame.ident.key();
            place_of(&node.table, key.kind, key.port)
        }
    }
}

/// The sender of a message, where that is another node than this one.
#[inline(always)]
pub(crate) fn sender_of(ident: Ident, own: u8) -> Option<u8>
    ensures source { IfSome result (λ source. (key_of ident).source ≡ Some source) }
    ensures aside { IfSome result (λ _. aside own ident ≡ None) }
{
    match ident {
        Ident::Message { source, .. } => { if source == own { None } else { Some(source) } }
        _ => None,
    }
}

/// The slot of a source on the port at a place.
#[inline(always)]
pub(crate) fn slot_on(place: usize, source: Option<u8>) -> Option<usize>
    ensures { place ≤ 2 ^ 16 → result ≡ option_map (slot_at place) source }
{
    match source {
        Some(source) => Some(slot_of(place, source)),
        None => None,
    }
}

/// Keeps where the session of a source is among those of the port at a place, if it has one.
pub(crate) fn keep_hint(node: &Node, place: usize, source: Option<u8>, tallies: &mut Tallies)
    ensures { tallies.new.by_slot ≡ tallies.old.by_slot }
{
    let Some(source) = source else {
        return;
    };
    if let Some(port) = node.table.ports.get(place) {
        if let Some(index) = port.sessions.get_index_of(&source) {
            tallies.keep_hint(slot_of(place, source), index);
        }
    }
}

/// The line of the last frame of the last delivery of a session; 0 where there is none.
#[inline(always)]
pub(crate) fn last_line(tallies: &Tallies, slot: Option<usize>) -> u64
    ensures { IsLastAt tallies.now.by_slot.items slot result }
{
    match slot {
        Some(slot) => tallies.last_line(slot),
        None => 0,
    }
}

/// One line more at a slot, if it is of one.
#[inline(never)]
pub(crate) fn count(tallies: &mut Tallies, slot: Option<usize>, line: &FrameLine)
    ensures { IsCounted tallies.old.by_slot.items tallies.new.by_slot.items line.now slot }
{
    match slot {
        Some(slot) => tallies.add(slot, line),
        None => {}
    }
}

/// The line on a frame that came to what it did for this reason.
#[inline(always)]
pub(crate) fn line_with(frame: &Frame, reason: Reason) -> FrameLine
    ensures { result ≡ line_with (seen frame.now) reason }
{
    FrameLine {
        line: frame.line,
        moment: frame.moment,
        bus: frame.bus,
        transfer: Some(Transfer {
            key: frame.ident.key(),
            tid: frame.tail.tid,
        }),
        reason,
    }
}

/// Why a frame on no port comes to what it does at a node with this node-ID.
#[inline(always)]
pub(crate) fn passing(own: u8, ident: Ident) -> Reason
    ensures { result ≡ passing own ident }
{
    match ident {
        Ident::Message { source, .. } => {
            if source == own {
                Reason::Own
            } else {
                Reason::Unsubscribed
            }
        }
        Ident::Anonymous { .. } => Reason::Unsubscribed,
        Ident::Service {
            destination,
            source,
            ..
        } => {
            if source == own {
                Reason::Own
            } else if destination == own {
                Reason::Unsubscribed
            } else {
                Reason::Elsewhere(destination)
            }
        }
    }
}
