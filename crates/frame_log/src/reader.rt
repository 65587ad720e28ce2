//! A log, record by record.
ghost use Rattle.std.specs.Prelude.{◌≡◌, ◌≤◌, ◌+◌, length};
ghost use Rattle.frame_log.specs.Limit.{limit_of};

use crate::buses::Buses;
use crate::error::LogError;
use crate::front::Front;
use crate::kept_bytes::KeptBytes;
use cy_bits::{BusName, NoMemory, ShortList};
use cy_outside::Source;
use std::alloc::Global;
use step::Step;
use tail_frame::Record;
use turn::Turn;

mod owned;
mod step;
mod turn;

/// What a reader answers from then on.
#[derive(Clone, Copy, Debug, PartialEq, Eq)]
pub enum Answer {
    /// The log's end.
    Whole,
    /// A refusal.
    Refused(LogError),
}

/// A reader of a log, to which each call hands the same input. It keeps at most 8,192 bytes.
#[derive(Drop)]
pub struct LogReader {
    buses: Buses,
    /// The front of a line before.
    front: Front,
    /// The bytes that were taken and not yet used.
    kept_bytes: KeptBytes,
    /// How many bytes may still be taken.
    room: usize,
    /// The lines before.
    lines: u64,
    /// The moment of the first record.
    first: Option<u64>,
    /// No moment before this one is too far from the first record's; 0 while there is none.
    limit: u64,
    /// The moment of the last record, at first 0.
    last: u64,
    /// Whether a read gave the end of the input.
    is_ended: bool,
    /// What is answered from now on.
    done: Option<Answer>,
    ghost near: { length kept_bytes ≤ 8192 },
    ghost limited: { limit ≡ limit_of first },
    ghost within: { lines + (room + length kept_bytes) ≤ 268435456 },
}

impl LogReader {
    ghost use Rattle.std.specs.Prelude.{◌≡◌, ◌≤◌, ◌<◌, ◌^◌, ℕ, List, [], None, Ok, Err, length, IfOk, IfSome, true, false};
    ghost use Rattle.cy_outside.specs.Outside.{Rose};
    ghost use Rattle.frame_log.specs.Input.{IsAtEnd};
    ghost use Rattle.frame_log.specs.Line.{cut};
    ghost use Rattle.frame_log.specs.Log.{log_of, start};
    ghost use Rattle.frame_log.specs.Order.{IsFit, StandsBehind};
    ghost use Rattle.frame_log.specs.Reader.{buses_of, place_of, kept_bytes_of, bytes_left, room_of, saw_end, settled_answer, log_behind, settled, settled_kept, answered, given, AnswersNext, AnswersAtEnd, AnswersKept, IfRecord, HasNoLine};
    ghost use Rattle.frame_log.specs.Steps.{IsAt};
    ghost use Rattle.frame_log.specs.Used.{UsesNext, UsesKept};
    ghost use Rattle.frame_log.specs.declared.error.LogError.TheVariants as error;
    ghost use Rattle.frame_log.specs.declared.reader.turn.Turn.TheVariants as turn;
    ghost use Rattle.frame_log.specs.declared.reader.step.Step.TheVariants as step;

    /// A reader at a log's start, which knows these buses.
    pub fn new(alloc: Global, buses: ShortList<BusName, 3>) -> Result<LogReader, NoMemory>
        ensures log { IfOk result
            (λ r. (rest : List ℕ) → log_behind r rest ≡ log_of buses rest) }
        ensures start { IfOk result
            (λ r. (buses_of r ≡ buses) × (place_of r ≡ start) × (kept_bytes_of r ≡ [])
            × (bytes_left r ≡ 2 ^ 28)) }
        ensures reading { IfOk result (λ r. (settled_answer r ≡ None) × (saw_end r ≡ false)) }
    {
        Ok(LogReader {
            buses: Buses::new(buses),
            front: Front::zero(),
            kept_bytes: KeptBytes::new(alloc)?,
            room: 1 << 28,
            lines: 0,
            first: None,
            limit: 0,
            last: 0,
            is_ended: false,
            done: None,
        })
    }

    /// Writes the next record into `written`. False at the log's end, and then `written` says nothing. It
    /// reads only where no whole line is kept. After false or an error each later call answers the
    /// same and reads nothing.
    #[inline(always)]
    pub fn next_into<L: Source>(
        &mut self,
        input: &mut L,
        written: &mut Record,
    ) -> Result<bool, LogError>
        // The answer is the next of what the log gives that is left.
        ensures next { settled_answer self.old ≡ None
            → AnswersNext self.old self.new (L.left input.old) (L.left input.new)
            (given written.new result) }
        ensures used { settled_answer self.old ≡ None
            → UsesNext self.old self.new (L.left input.old) (L.left input.new)
            (given written.new result) }

        // It has ended only where the input has.
        ensures end { saw_end self.old ≡ false → saw_end self.new ≡ true
            → IsAtEnd (L.left input.new) }
        ensures whole { settled_answer self.old ≡ None → given written.new result ≡ Ok None
            → saw_end self.new ≡ true }
        ensures ended { settled_answer self.old ≡ None → saw_end self.old ≡ true
            → AnswersAtEnd self.old self.new input.old input.new (given written.new result) }

        // The answer stays.
        ensures done { settled_answer self.old ≡ None
            → settled_answer self.new ≡ settled (given written.new result) }
        ensures again { IfSome (settled_answer self.old)
            (λ a. (given written.new result ≡ answered a) × (self.new ≡ self.old)
            × (input.new ≡ input.old)) }

        // The input failed, and no line that was taken is left.
        ensures failed { settled_answer self.old ≡ None
            → given written.new result ≡ Err error.Failed
            → Rose (L.faults input.old) (L.faults input.new) × HasNoLine self.new }
        ensures open { settled_answer self.old ≡ None
            → given written.new result ≡ Err error.Failed
            → saw_end self.new ≡ false }
        ensures count { ¬ (given written.new result ≡ Err error.Failed)
            → L.faults input.new ≡ L.faults input.old }

        // A record is behind those before it, and has one of the buses.
        ensures order { IfRecord (given written.new result)
            (λ r. StandsBehind r (place_of self.old)) }
        ensures place { IfRecord (given written.new result) (λ r. IsAt r (place_of self.new)) }
        ensures fit { IfRecord (given written.new result)
            (λ r. IsFit (buses_of self.old) r × (r.line ≤ 2 ^ 28)) }

        // Each record leaves fewer bytes, and no more were taken than stand in the buffer.
        ensures less { IfRecord (given written.new result)
            (λ _. bytes_left self.new < bytes_left self.old) }
        ensures within { bytes_left self.new ≤ bytes_left self.old }
        ensures near { length (kept_bytes_of self.new) ≤ 8192 }
        ensures same { buses_of self.new ≡ buses_of self.old }
    {
        if let Some(answer) = self.done {
            return match answer {
                Answer::Whole => Ok(false),
                Answer::Refused(e) => Err(e),
            };
        }
        'turns: loop {
            match self.turn(input, written) {
                Turn::Again => {}
                Turn::Record => return Ok(true),
                Turn::Whole => {
                    self.done = Some(Answer::Whole);
                    return Ok(false);
                }
                Turn::Refused(e) => {
                    self.done = Some(Answer::Refused(e));
                    return Err(e);
                }
                Turn::Failed => {
                    self.done = Some(Answer::Refused(LogError::Failed));
                    return Err(LogError::Failed);
                }
            }
        }
    }

    /// Writes the next record of the lines that are kept whole into `written`, without reading. False
    /// where no such line is left, and then `written` says nothing: `next_into` goes on from there. A
    /// refusal is the answer of each later call, and a reader that has answered its end or an error
    /// answers the same again.
    #[inline(always)]
    pub fn next_kept_into(&mut self, written: &mut Record) -> Result<bool, LogError>
        // The answer is the next of the lines that are kept.
        ensures next { settled_answer self.old ≡ None
            → AnswersKept self.old self.new (given written.new result) }
        ensures none { settled_answer self.old ≡ None → given written.new result ≡ Ok None
            → cut 10 (kept_bytes_of self.new) ≡ None }
        ensures used { settled_answer self.old ≡ None
            → UsesKept self.old self.new (given written.new result) }
        ensures input { settled_answer self.old ≡ None
            → ¬ (given written.new result ≡ Err error.Failed) }

        // A refusal stays.
        ensures done { settled_answer self.old ≡ None
            → settled_answer self.new ≡ settled_kept (given written.new result) }
        ensures again { IfSome (settled_answer self.old)
            (λ a. (given written.new result ≡ answered a) × (self.new ≡ self.old)) }
        ensures end { saw_end self.new ≡ saw_end self.old }

        // A record is behind those before it, and has one of the buses.
        ensures order { IfRecord (given written.new result)
            (λ r. StandsBehind r (place_of self.old)) }
        ensures place { IfRecord (given written.new result) (λ r. IsAt r (place_of self.new)) }
        ensures fit { IfRecord (given written.new result)
            (λ r. IsFit (buses_of self.old) r × (r.line ≤ 2 ^ 28)) }

        // Each record leaves fewer bytes.
        ensures less { IfRecord (given written.new result)
            (λ _. bytes_left self.new < bytes_left self.old) }
        ensures within { bytes_left self.new ≤ bytes_left self.old }
        ensures near { length (kept_bytes_of self.new) ≤ 8192 }
        ensures room { room_of self.new ≡ room_of self.old }
        ensures same { buses_of self.new ≡ buses_of self.old }
    {
        if let Some(answer) = self.done {
            return match answer {
                Answer::Whole => Ok(false),
                Answer::Refused(e) => Err(e),
            };
        }
        match self.from_kept(written) {
            Step::Record => Ok(true),
            Step::Refused(e) => {
                self.done = Some(Answer::Refused(e));
                Err(e)
            }
            Step::NoLine | Step::Skipped => Ok(false),
        }
    }
}
