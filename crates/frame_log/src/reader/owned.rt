//! The records of a log, each given as a value.
ghost use Rattle.std.specs.Prelude.{◌≡◌, ◌≤◌, ◌<◌, ◌^◌, None, Ok, Err, length, IfSome, true, false};
ghost use Rattle.cy_outside.specs.Outside.{Rose};
ghost use Rattle.frame_log.specs.Input.{IsAtEnd};
ghost use Rattle.frame_log.specs.Line.{cut};
ghost use Rattle.frame_log.specs.Order.{IsFit, StandsBehind};
ghost use Rattle.frame_log.specs.Reader.{buses_of, place_of, kept_bytes_of, bytes_left, room_of, saw_end, settled_answer, settled, settled_kept, answered, AnswersNext, AnswersAtEnd, AnswersKept, IfRecord, HasNoLine};
ghost use Rattle.frame_log.specs.Steps.{IsAt};
ghost use Rattle.frame_log.specs.Used.{UsesNext, UsesKept};
ghost use Rattle.frame_log.specs.declared.error.LogError.TheVariants as error;

use crate::error::LogError;
use crate::reader::LogReader;
use cy_outside::Source;
use tail_frame::{FrameData, Record};

/// A record that says nothing yet.
fn blank() -> Record {
    Record {
        line: 0,
        moment: 0,
        bus: 0,
        ident: 0,
        bytes: FrameData::new(),
    }
}

impl LogReader {
    /// The next record, or None at the log's end. It reads only where no whole line is kept. After
    /// None or an error each later call answers the same and reads nothing.
    #[inline(always)]
    pub fn next_record<L: Source>(&mut self, input: &mut L) -> Result<Option<Record>, LogError>
        // The answer is the next of what the log gives that is left.
        ensures next { settled_answer self.old ≡ None
            → AnswersNext self.old self.new (L.left input.old) (L.left input.new) result }
        ensures used { settled_answer self.old ≡ None
            → UsesNext self.old self.new (L.left input.old) (L.left input.new) result }

        // It has ended only where the input has.
        ensures end { saw_end self.old ≡ false → saw_end self.new ≡ true
            → IsAtEnd (L.left input.new) }
        ensures whole { settled_answer self.old ≡ None → result ≡ Ok None
            → saw_end self.new ≡ true }
        ensures ended { settled_answer self.old ≡ None → saw_end self.old ≡ true
            → AnswersAtEnd self.old self.new input.old input.new result }

        // The answer stays.
        ensures done { settled_answer self.old ≡ None
            → settled_answer self.new ≡ settled result }
        ensures again { IfSome (settled_answer self.old)
            (λ a. (result ≡ answered a) × (self.new ≡ self.old)
            × (input.new ≡ input.old)) }

        // The input failed, and no line that was taken is left.
        ensures failed { settled_answer self.old ≡ None → result ≡ Err error.Failed
            → Rose (L.faults input.old) (L.faults input.new) × HasNoLine self.new }
        ensures open { settled_answer self.old ≡ None → result ≡ Err error.Failed
            → saw_end self.new ≡ false }
        ensures count { ¬ (result ≡ Err error.Failed)
            → L.faults input.new ≡ L.faults input.old }

        // A record is behind those before it, and has one of the buses.
        ensures order { IfRecord result (λ r. StandsBehind r (place_of self.old)) }
        ensures place { IfRecord result (λ r. IsAt r (place_of self.new)) }
        ensures fit { IfRecord result
            (λ r. IsFit (buses_of self.old) r × (r.line ≤ 2 ^ 28)) }

        // Each record leaves fewer bytes, and no more were taken than stand in the buffer.
        ensures less { IfRecord result (λ _. bytes_left self.new < bytes_left self.old) }
        ensures within { bytes_left self.new ≤ bytes_left self.old }
        ensures near { length (kept_bytes_of self.new) ≤ 8192 }
        ensures same { buses_of self.new ≡ buses_of self.old }
    {
        let mut written = blank();
        match self.next_into(input, &mut written) {
            Ok(true) => Ok(Some(written)),
            Ok(false) => Ok(None),
            Err(e) => Err(e),
        }
    }

    /// The next record of the lines that are kept whole, without reading. None where no such line is
    /// left: `next_record` goes on from there. A refusal is the answer of each later call, and a
    /// reader that has answered its end or an error answers the same again.
    #[inline(always)]
    pub fn next_kept(&mut self) -> Result<Option<Record>, LogError>
        // The answer is the next of the lines that are kept.
        ensures next { settled_answer self.old ≡ None → AnswersKept self.old self.new result }
        ensures none { settled_answer self.old ≡ None → result ≡ Ok None
            → cut 10 (kept_bytes_of self.new) ≡ None }
        ensures used { settled_answer self.old ≡ None → UsesKept self.old self.new result }
        ensures input { settled_answer self.old ≡ None
            → ¬ (result ≡ Err error.Failed) }

        // A refusal stays.
        ensures done { settled_answer self.old ≡ None
            → settled_answer self.new ≡ settled_kept result }
        ensures again { IfSome (settled_answer self.old)
            (λ a. (result ≡ answered a) × (self.new ≡ self.old)) }
        ensures end { saw_end self.new ≡ saw_end self.old }

        // A record is behind those before it, and has one of the buses.
        ensures order { IfRecord result (λ r. StandsBehind r (place_of self.old)) }
        ensures place { IfRecord result (λ r. IsAt r (place_of self.new)) }
        ensures fit { IfRecord result
            (λ r. IsFit (buses_of self.old) r × (r.line ≤ 2 ^ 28)) }

        // Each record leaves fewer bytes.
        ensures less { IfRecord result (λ _. bytes_left self.new < bytes_left self.old) }
        ensures within { bytes_left self.new ≤ bytes_left self.old }
        ensures near { length (kept_bytes_of self.new) ≤ 8192 }
        ensures room { room_of self.new ≡ room_of self.old }
        ensures same { buses_of self.new ≡ buses_of self.old }
    {
        let mut written = blank();
        match self.next_kept_into(&mut written) {
            Ok(true) => Ok(Some(written)),
            Ok(false) => Ok(None),
            Err(e) => Err(e),
        }
    }
}
