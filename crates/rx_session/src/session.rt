ghost use Rattle.std.specs.Prelude.{◌≡◌, ◌≤◌, IfOk, length, take, true, false};
ghost use Rattle.std.specs.Borrow.{sem};
ghost use Rattle.std.specs.Io.BufRead.{Rests};
ghost use Rattle.transfer_crc.specs.Crc.{crc_more};
ghost use Rattle.rx_session.specs.Extents.{extent_bytes};
ghost use Rattle.rx_session.specs.Session.{begin, take_in, in_frame, is_whole, with_body};
ghost use Rattle.rx_session.specs.Seen.{kept, part_of, fresh, record_of, outcome_answer, step_told, step_answer, says_whole, accepted, stepped};
ghost use Rattle.rx_session.specs.contracts.session.Session.{the_row};

use crate::{Begun, Delivery, Outcome, Step};
use cy_bits::{Bytes, NoMemory};
use dsdl_types::Shape;
use redundancy::{Force, Heard};
use std::alloc::Global;
use std::marker::PhantomData;
use tail_frame::Frame;
use transfer_crc::Crc;

/// A transfer of several frames of which some were taken (Cyphal Specification, section 4.1.4).
#[derive(Clone, Copy, Debug, PartialEq, Eq)]
pub struct Part {
    /// Its transfer-ID, 0 to 31.
    pub tid: u8,
    /// The toggle that its next frame has.
    pub toggle: bool,
    /// The line of its first frame.
    pub first: u64,
    /// The moment of its first frame, in microseconds.
    pub moment: u64,
    /// The number of bytes taken, which stays at 2^64 - 1 once it is there.
    pub taken: u64,
    /// The CRC of these bytes.
    pub crc: Crc,
}

/// The reception of the transfers of one kind, port and source, over all buses (Cyphal
/// Specification, section 4.1.4).
#[derive(Drop)]
pub struct Session<S> {
    /// The bus in force, and when a frame was last heard on it.
    pub force: Force,
    /// The transfer-ID last delivered.
    pub last: Option<u8>,
    /// The transfer that is being put together.
    pub part: Option<Part>,
    /// The front of its bytes, as far as the extent reaches. The number of bytes here never changes.
    pub buffer: Bytes,
    shape: PhantomData<S>,
}

impl<S: Shape> Session<S> {
    /// A session that has heard no frame, with a buffer of the shape's extent (Cyphal
    /// Specification, section 4.1.4).
    #[tactic(auto, using(crate::proofs::Extents::bytes_are))]
    pub fn open(alloc: Global, shape: &S) -> Result<Session<S>, NoMemory>
        ensures { IfOk result (λ s. kept s ≡ fresh (extent_bytes S.shape shape.now)) }
    {
        let buffer = Bytes::zeros(alloc, shape.extent_bytes())?;
        Ok(Session {
            force: Force::new(),
            last: None,
            part: None,
            buffer,
            shape: PhantomData,
        })
    }

    /// Takes a frame of the session's kind, port and source (Cyphal Specification, section 4.1.4),
    /// at a moment not before the last one heard. The timeout is in microseconds. A payload is lent
    /// from the buffer.
    ///
    /// A frame on a bus that isn't in force changes nothing. A start frame begins a transfer anew,
    /// unless it isn't late and has the transfer-ID last delivered. Any other frame is taken where
    /// it has the transfer-ID and the toggle that are expected. At an end the CRC over all bytes
    /// decides.
    ///
    /// The short form of `step` and `lend`, for a caller that takes each answer at once; a table
    /// calls these two.
    pub fn accept(&mut self, frame: &Frame, timeout: u64) -> Outcome<'_>
        requires { self.old.force.heard ≤ frame.now.moment }
        ensures* after { sem 𝓛 (Rests (the_row S.row) self.entry (λ new.
            (kept new ≡ (accepted timeout (kept self.old) frame.now).0)
            × (length new.buffer ≡ length self.old.buffer))) }
        ensures outcome { outcome_answer result ≡ (accepted timeout (kept self.old) frame.now).1 }
    {
        let step = self.step(frame, timeout);
        if let Step::Whole = step {
            self.put_body(frame);
        }
        let buffer = self.buffer.as_slice();
        outcome_of(step, frame, first(buffer, frame.body.len() as u64), buffer)
    }

    /// What `accept` does (Cyphal Specification, section 4.1.4), with an outcome that borrows
    /// nothing; but the bytes of a whole transfer stay in its frame alone. `lend` tells the
    /// outcome, with the same frame.
    #[inline(always)]
    pub fn step(&mut self, frame: &Frame, timeout: u64) -> Step
        requires { self.old.force.heard ≤ frame.now.moment }
        ensures state { kept self.new ≡ (stepped timeout (kept self.old) frame.now).0 }
        ensures size { length self.new.buffer ≡ length self.old.buffer }
        ensures outcome { step_answer self.new.buffer (record_of frame.now) result
            ≡ (accepted timeout (kept self.old) frame.now).1 }
        ensures whole { says_whole result
            ≡ is_whole (record_of frame.now) (accepted timeout (kept self.old) frame.now).1 }
    {
        let heard = self
            .force
            .hear(frame.bus, frame.moment, frame.tail.start, timeout);
        let late = match heard {
            Heard::Elsewhere => return Step::Ignored,
            Heard::Here { late } => late,
        };
        if frame.tail.start {
            if !late && self.last == Some(frame.tail.tid) {
                return Step::Ignored;
            }
            return self.begin(frame);
        }
        match self.part {
            None => Step::Ignored,
            Some(part) => {
                if frame.tail.tid == part.tid && frame.tail.toggle == part.toggle {
                    self.take_in(part, frame)
                } else {
                    Step::Ignored
                }
            }
        }
    }

    /// The outcome of the last step, which was on this frame, with a payload lent from the frame or
    /// from the buffer.
    #[inline(always)]
    pub fn lend<'a>(&'a self, step: Step, frame: &Frame<'a>) -> Outcome<'a>
        ensures { outcome_answer result ≡ step_answer self.now.buffer (record_of frame.now) step }
    {
        lend(step, self.buffer.as_slice(), frame)
    }

    /// Puts the bytes of a frame in front of the buffer, where no transfer is being put together.
    #[inline(always)]
    pub fn put_body(&mut self, frame: &Frame)
        ensures state { kept self.new ≡ with_body (kept self.old) (record_of frame.now) }
        ensures size { length self.new.buffer ≡ length self.old.buffer }
    {
        if self.part.is_none() {
            self.buffer.put_at(0, frame.body);
        }
    }

    /// Begins a transfer at a start frame that is heard.
    #[inline(always)]
    fn begin(&mut self, frame: &Frame) -> Step
        requires { frame.now.tail.start ≡ true }
        ensures state { kept self.new ≡ (in_frame self.old.buffer (record_of frame.now)
            (begin crc_more 0xFFFF 0 (kept self.old) (record_of frame.now))).0 }
        ensures size { length self.new.buffer ≡ length self.old.buffer }
        ensures outcome { step_answer self.new.buffer (record_of frame.now) result
            ≡ (begin crc_more 0xFFFF 0 (kept self.old) (record_of frame.now)).1 }
        ensures whole { says_whole result ≡ is_whole (record_of frame.now)
            (begin crc_more 0xFFFF 0 (kept self.old) (record_of frame.now)).1 }
    {
        let taken = frame.body.len() as u64;
        if frame.tail.end {
            self.last = Some(frame.tail.tid);
            self.part = None;
            return Step::Whole;
        }
        self.buffer.put_at(0, frame.body);
        let mut crc = Crc::new();
        crc.add(frame.body);
        self.part = Some(Part {
            tid: frame.tail.tid,
            toggle: !frame.tail.toggle,
            first: frame.line,
            moment: frame.moment,
            taken,
            crc,
        });
        Step::Held
    }

    /// Takes the frame that the running transfer expects.
    #[inline(always)]
    fn take_in(&mut self, part: Part, frame: &Frame) -> Step
        requires same { part.tid ≡ frame.now.tail.tid }
        requires later { frame.now.tail.start ≡ false }
        ensures state { kept self.new ≡ (in_frame self.old.buffer (record_of frame.now)
            (take_in crc_more 0xFFFF 0 (kept self.old) (part_of part) (record_of frame.now))).0 }
        ensures size { length self.new.buffer ≡ length self.old.buffer }
        ensures outcome { step_answer self.new.buffer (record_of frame.now) result
            ≡ (take_in crc_more 0xFFFF 0 (kept self.old) (part_of part) (record_of frame.now)).1 }
        ensures whole { says_whole result ≡ is_whole (record_of frame.now)
            (take_in crc_more 0xFFFF 0 (kept self.old) (part_of part) (record_of frame.now)).1 }
    {
        self.buffer.put_at(part.taken as usize, frame.body);
        let mut crc = part.crc;
        crc.add(frame.body);
        let taken = part.taken.saturating_add(frame.body.len() as u64);
        if !frame.tail.end {
            self.part = Some(Part {
                tid: part.tid,
                toggle: !frame.tail.toggle,
                first: part.first,
                moment: part.moment,
                taken,
                crc,
            });
            return Step::Held;
        }
        self.part = None;
        if crc.value() != 0 {
            return Step::BadCrc;
        }
        self.last = Some(part.tid);
        Step::Delivered(Begun {
            first: part.first,
            moment: part.moment,
            count: taken.saturating_sub(2),
        })
    }
}

/// The outcome of a step on a frame, with a payload lent from the frame or from the session's buffer.
#[inline(always)]
pub fn lend<'a>(step: Step, buffer: &'a [u8], frame: &Frame<'a>) -> Outcome<'a>
    ensures { outcome_answer result ≡ step_answer buffer.now (record_of frame.now) step }
{
    outcome_of(step, frame, first(frame.body, buffer.len() as u64), buffer)
}

/// The outcome of a step on a frame, with the payload of a whole transfer, and the session's buffer.
#[inline(always)]
fn outcome_of<'a>(step: Step, frame: &Frame, whole: &'a [u8], buffer: &'a [u8]) -> Outcome<'a>
    ensures { outcome_answer result ≡ step_told whole.now buffer.now (record_of frame.now) step }
{
    match step {
        Step::Ignored => Outcome::Ignored,
        Step::Held => Outcome::Held,
        Step::BadCrc => Outcome::BadCrc,
        Step::Whole => Outcome::Delivered(Delivery {
            bus: frame.bus,
            priority: frame.ident.priority(),
            tid: frame.tail.tid,
            first: frame.line,
            last: frame.line,
            moment: frame.moment,
            payload: whole,
        }),
        Step::Delivered(begun) => Outcome::Delivered(Delivery {
            bus: frame.bus,
            priority: frame.ident.priority(),
            tid: frame.tail.tid,
            first: begun.first,
            last: frame.line,
            moment: begun.moment,
            payload: first(buffer, begun.count),
        }),
    }
}

/// The first bytes, or all where there are fewer.
#[inline(always)]
fn first(bytes: &[u8], count: u64) -> &[u8]
    ensures { result.now ≡ take count bytes.now }
{
    let count = if count < bytes.len() as u64 {
        count as usize
    } else {
        bytes.len()
    };
    &bytes[..count]
}
