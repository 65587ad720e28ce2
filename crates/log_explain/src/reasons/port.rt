//! What a port makes of a frame, without hearing it.
ghost use Rattle.std.specs.Prelude.{◌≡◌, IfSome};
ghost use Rattle.rx_session.specs.Seen.{record_of};
ghost use Rattle.rx_table.specs.PortViews.{entries_in, subscription};
ghost use Rattle.log_explain.specs.Asked.{Tells};
ghost use Rattle.log_explain.specs.Told.{told_new};

use crate::reasons::reason::{Change, Reason};
use crate::reasons::session::{begun, reason_in};
use dsdl_types::Shape;
use rx_table::Port;
use tail_frame::Frame;

/// The same as `reason_on` where the source's session is at this place among the port's. `None`
/// says nothing.
#[inline(always)]
pub(crate) fn reason_by<S: Shape>(
    port: &Port<S>,
    index: usize,
    source: u8,
    frame: &Frame,
    timeout: u64,
    last: u64,
) -> Option<Reason>
    ensures { IfSome result (Tells timeout (subscription S.shape port.now) (entries_in port.now)
        source (record_of frame.now) last) }
{
    let (key, session) = port.sessions.get_index(index)?;
    if *key == source {
        Some(reason_in(session, frame, timeout, last))
    } else {
        None
    }
}

/// Why a frame of a source comes to what it does on a port. It changes nothing.
#[inline(never)]
pub(crate) fn reason_on<S: Shape>(
    port: &Port<S>,
    source: u8,
    frame: &Frame,
    timeout: u64,
    last: u64,
) -> Reason
    ensures { Tells timeout (subscription S.shape port.now) (entries_in port.now) source
        (record_of frame.now) last result }
{
    match port.sessions.get_index_of(&source) {
        Some(index) => {
            let (_, session) = port.sessions.get_index(index).unwrap();
            reason_in(session, frame, timeout, last)
        }
        None => first_of(port.sessions.len(), port.sources, frame),
    }
}

/// A frame of a source that has no session, on a port where so many have one, of so many that may.
fn first_of(sessions: usize, sources: u16, frame: &Frame) -> Reason
    ensures { result ≡ told_new sessions sources (record_of frame.now) }
{
    if !frame.tail.start {
        Reason::Unknown
    } else if sessions < sources as usize {
        begun(frame, Change::NONE)
    } else {
        Reason::NoSession
    }
}
