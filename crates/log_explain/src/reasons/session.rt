//! What a session makes of a frame, without hearing it.
ghost use Rattle.std.specs.Prelude.{◌≡◌};
ghost use Rattle.redundancy.specs.Hear.{hear};
ghost use Rattle.rx_session.specs.Seen.{kept, record_of, some_part, part_of};
ghost use Rattle.log_explain.specs.Told.{told, told_change, told_from, told_of_part, told_silence, told_taken, told_unheard};
ghost use Rattle.log_explain.specs.Reasons.{begun_reason};

use crate::reasons::reason::{Change, Reason, Silence};
use dsdl_types::Shape;
use redundancy::Force;
use rx_session::{Part, Session};
use tail_frame::Frame;

/// Why a frame of a session's key comes to what it does, where the session's last delivery ends
/// on a line. It changes nothing.
#[inline(always)]
pub(crate) fn reason_in<S: Shape>(
    session: &Session<S>,
    frame: &Frame,
    timeout: u64,
    last: u64,
) -> Reason
    ensures { result ≡ told timeout last (kept session.now) (record_of frame.now) }
{
    match lateness(session.force, frame, timeout) {
        None => unheard(session.force, frame),
        Some(late) => {
            if !frame.tail.start {
                of_part(session.part, frame)
            } else if !late && session.last == Some(frame.tail.tid) {
                Reason::Copy(last)
            } else {
                begun(frame, change(session, frame))
            }
        }
    }
}

/// Whether a frame is late, or `None` where it isn't heard.
fn lateness(force: Force, frame: &Frame, timeout: u64) -> Option<bool>
    ensures { result ≡ hear timeout force.bus force.heard frame.now.bus frame.now.moment
        frame.now.tail.start }
{
    let late = frame.moment.saturating_sub(force.heard) > timeout;
    match force.bus {
        None => { if frame.tail.start { Some(false) } else { None } }
        Some(bus) => {
            if bus == frame.bus {
                Some(late)
            } else if frame.tail.start && late {
                Some(true)
            } else {
                None
            }
        }
    }
}

/// A frame that isn't heard.
fn unheard(force: Force, frame: &Frame) -> Reason
    ensures { result ≡ told_unheard force.heard (record_of frame.now) force.bus }
{
    match force.bus {
        None => Reason::Unknown,
        Some(bus) => Reason::Standby(silence(force, bus, frame)),
    }
}

/// What changes with a start frame that begins a transfer.
fn change<S: Shape>(session: &Session<S>, frame: &Frame) -> Change
    ensures { result ≡ told_change (kept session.now) (record_of frame.now) }
{
    Change {
        over: session.part.map(|part| part.first),
        from: from(session.force, frame),
    }
}

/// The bus that was active, where another one becomes it.
fn from(force: Force, frame: &Frame) -> Option<Silence>
    ensures { result ≡ told_from force.heard (record_of frame.now) force.bus }
{
    match force.bus {
        None => None,
        Some(bus) => {
            if bus == frame.bus {
                None
            } else {
                Some(silence(force, bus, frame))
            }
        }
    }
}

/// For how long a bus has been silent that was last heard at a moment.
fn silence(force: Force, bus: u8, frame: &Frame) -> Silence
    ensures { result ≡ told_silence force.heard (record_of frame.now) bus }
{
    Silence {
        bus,
        micros: frame.moment.saturating_sub(force.heard),
    }
}

/// A start frame that begins a transfer.
pub(crate) fn begun(frame: &Frame, change: Change) -> Reason
    ensures { result ≡ begun_reason (record_of frame.now) change }
{
    if frame.tail.end {
        Reason::Delivered {
            first: frame.line,
            change,
        }
    } else {
        Reason::Begun(change)
    }
}

/// A frame that is heard and isn't a start, by the transfer that is running.
fn of_part(part: Option<Part>, frame: &Frame) -> Reason
    ensures { result ≡ told_of_part (record_of frame.now) (some_part part) }
{
    let Some(part) = part else {
        return Reason::StrayNone;
    };
    if frame.tail.tid != part.tid {
        Reason::StrayTid(part.tid)
    } else if frame.tail.toggle != part.toggle {
        Reason::StrayToggle(part.first)
    } else {
        taken(part, frame)
    }
}

/// The frame that a running transfer expects.
fn taken(part: Part, frame: &Frame) -> Reason
    ensures { result ≡ told_taken (record_of frame.now) (part_of part) }
{
    if !frame.tail.end {
        return Reason::Taken(part.first);
    }
    let mut crc = part.crc;
    crc.add(frame.body);
    if crc.value() == 0 {
        Reason::Delivered {
            first: part.first,
            change: Change::NONE,
        }
    } else {
        Reason::BadCrc(part.first)
    }
}
