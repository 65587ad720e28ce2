//! The next record of a log. What is gathered is written before the input is read.
ghost use Rattle.std.specs.Prelude.{◌≡◌, ◌≤◌, length, true, false, None, Err, OnOk};
ghost use Rattle.frame_log.specs.Input.{IsAtEnd};
ghost use Rattle.frame_log.specs.Line.{cut};
ghost use Rattle.frame_log.specs.Reader.{buses_of, kept_bytes_of, saw_end, settled_answer};
ghost use Rattle.frame_log.specs.declared.error.LogError.TheVariants as error;
ghost use Rattle.line_text.specs.Buffer.{text_of};
ghost use Rattle.log_loop.specs.Next.{handed, GoesOn, ComesBehind, ReadsOn, Writes, HasStopCause};

use cy_outside::{Sink, Source};
use frame_log::{LogError, LogReader};
use gathered_text::{flush, flush_much};
use line_text::TextBuffer;
use tail_frame::Record;

/// Why there is no next record.
#[derive(Clone, Copy, Debug, PartialEq, Eq)]
pub enum Stop {
    /// The log is refused, or the input failed.
    Log(LogError),
    /// The output failed.
    Write,
}

/// Writes the next record into `written`: of the lines that are kept, or else of the input. False at the log's end.
/// Before the input is read, and where there is no further record, all that is gathered is written; behind a record
/// at most 65,536 bytes stay gathered.
#[inline(always)]
pub fn next<L: Source, O: Sink>(
    reader: &mut LogReader,
    input: &mut L,
    out: &mut O,
    gathered: &mut TextBuffer,
    written: &mut Record,
) -> Result<bool, Stop>
    requires { settled_answer reader.old ≡ None }
    ensures log { GoesOn reader.old reader.new (L.left input.old) (L.left input.new)
        (handed written.new result) }
    ensures came { ComesBehind reader.old reader.new (L.left input.old) (L.left input.new)
        (text_of gathered.new) (handed written.new result) }
    ensures reader { ReadsOn reader.old reader.new (handed written.new result) }
    ensures buses { buses_of reader.new ≡ buses_of reader.old }
    ensures end { saw_end reader.old ≡ false → saw_end reader.new ≡ true
        → IsAtEnd (L.left input.new) }
    ensures text { Writes (text_of gathered.old) (text_of gathered.new)
        (O.written out.old) (O.written out.new) (handed written.new result) }
    ensures few { OnOk result (length (text_of gathered.new) ≤ 65536) }
    ensures cause { HasStopCause (L.faults input.old) (L.faults input.new)
        (O.faults out.old) (O.faults out.new) (handed written.new result) }
    ensures failed { result ≡ Err (Stop.Log error.Failed)
        → (cut 10 (kept_bytes_of reader.new) ≡ None) × (saw_end reader.new ≡ false) }
{
    match reader.next_kept_into(written) {
        Ok(true) => {
            let Ok(()) = flush_much(out, gathered) else {
                return Err(Stop::Write);
            };
            Ok(true)
        }
        Ok(false) => next_read(reader, input, out, gathered, written),
        Err(error) => {
            let Ok(()) = flush(out, gathered) else {
                return Err(Stop::Write);
            };
            Err(Stop::Log(error))
        }
    }
}

/// The next record where none is kept, and all text that waits is written first.
fn next_read<L: Source, O: Sink>(
    reader: &mut LogReader,
    input: &mut L,
    out: &mut O,
    waiting: &mut TextBuffer,
    written: &mut Record,
) -> Result<bool, Stop>
    requires { settled_answer reader.old ≡ None }
    ensures log { GoesOn reader.old reader.new (L.left input.old) (L.left input.new)
        (handed written.new result) }
    ensures came { ComesBehind reader.old reader.new (L.left input.old) (L.left input.new)
        (text_of waiting.new) (handed written.new result) }
    ensures reader { ReadsOn reader.old reader.new (handed written.new result) }
    ensures buses { buses_of reader.new ≡ buses_of reader.old }
    ensures end { saw_end reader.old ≡ false → saw_end reader.new ≡ true
        → IsAtEnd (L.left input.new) }
    ensures text { Writes (text_of waiting.old) (text_of waiting.new)
        (O.written out.old) (O.written out.new) (handed written.new result) }
    ensures few { OnOk result (length (text_of waiting.new) ≤ 65536) }
    ensures cause { HasStopCause (L.faults input.old) (L.faults input.new)
        (O.faults out.old) (O.faults out.new) (handed written.new result) }
    ensures failed { result ≡ Err (Stop.Log error.Failed)
        → (cut 10 (kept_bytes_of reader.new) ≡ None) × (saw_end reader.new ≡ false) }
{
    let Ok(()) = flush(out, waiting) else {
        return Err(Stop::Write);
    };
    match reader.next_into(input, written) {
        Ok(more) => Ok(more),
        Err(error) => Err(Stop::Log(error)),
    }
}
