//! The question.
ghost use Rattle.std.specs.Prelude.{◌≡◌, ◌&&◌, ◌==◌, ℕ, IfSome, None, Some};
ghost use Rattle.can_id.specs.Identifiers.{key_of};
ghost use Rattle.tail_frame.specs.Frames.{seen};
ghost use Rattle.rx_table.specs.Keys.{same_kind};
ghost use Rattle.rx_table.specs.Views.{place_in, states_of};
ghost use Rattle.log_explain.specs.Asked.{TellsFrame};
ghost use Rattle.log_explain.specs.Reasons.{aside};

use crate::reasons::port::{reason_by, reason_on};
use crate::reasons::reason::{Change, Reason};
use can_id::{Ident, Kind};
use dsdl_types::Shape;
use rx_table::{Port, Table};
use tail_frame::Frame;

/// Why a frame comes to what it does at a node with this node-ID, whose sessions are those of a
/// table. It is asked before the frame is heard, and changes nothing. `last` is the line on which
/// the last delivery of the frame's session ends; where it has none, any number serves.
pub fn reason_of_frame<S: Shape>(table: &Table<S>, own: u8, frame: &Frame, last: u64) -> Reason
    ensures { TellsFrame own table.now.timeout (states_of S.shape table.now) (seen frame.now) last
        result }
{
    if let Some(reason) = aside(own, frame.ident) {
        return reason;
    }
    let key = frame.ident.key();
    let Some(place) = place_of(table, key.kind, key.port) else {
        return Reason::Unsubscribed;
    };
    match key.source {
        Some(source) => reason_on(&table.ports[place], source, frame, table.timeout, last),
        None => Reason::Delivered {
            first: frame.line,
            change: Change::NONE,
        },
    }
}

/// The same of a frame that is for the node, on the port at this place, where the session of its
/// source is at `index` among the port's. `None` says nothing.
#[inline(always)]
pub fn reason_at<S: Shape>(
    table: &Table<S>,
    place: usize,
    index: usize,
    frame: &Frame,
    last: u64,
) -> Option<Reason>
    requires { let key = key_of frame.now.ident in
        place_in key.kind key.port table.now ≡ Some place }
    ensures { (own : ℕ) → aside own frame.now.ident ≡ None → IfSome result
        (TellsFrame own table.now.timeout (states_of S.shape table.now) (seen frame.now) last) }
{
    let source = frame.ident.key().source?;
    let port = &table.ports[place];
    reason_by(port, index, source, frame, table.timeout, last)
}

/// The reason for which a frame isn't for a node, if there is one.
fn aside(own: u8, ident: Ident) -> Option<Reason>
    ensures { result ≡ aside own ident }
{
    match ident {
        Ident::Message { source, .. } => {
            if source == own {
                Some(Reason::Own)
            } else {
                None
            }
        }
        Ident::Anonymous { .. } => None,
        Ident::Service {
            destination,
            source,
            ..
        } => {
            if source == own {
                Some(Reason::Own)
            } else if destination == own {
                None
            } else {
                Some(Reason::Elsewhere(destination))
            }
        }
    }
}

/// The place of a subscription among those of a table, without a search where it is for a subject.
pub fn place_of<S: Shape>(table: &Table<S>, kind: Kind, port: u16) -> Option<usize>
    ensures { result ≡ place_in kind port table.now }
{
    match kind {
        Kind::Message => table.place(port),
        Kind::Request => search(table, Kind::Request, port),
        Kind::Response => search(table, Kind::Response, port),
    }
}

/// The place of a subscription, by a search.
fn search<S: Shape>(table: &Table<S>, kind: Kind, port: u16) -> Option<usize>
    ensures { result ≡ place_in kind port table.now }
{
    table.ports.iter().position(|p| is_at(p, kind, port))
}

/// Whether a subscription is that of a kind with this number.
fn is_at<S: Shape>(p: &Port<S>, kind: Kind, port: u16) -> bool
    ensures { result ≡ (same_kind kind p.now.kind && (port == p.now.port)) }
{
    kind == p.kind && port == p.port
}
