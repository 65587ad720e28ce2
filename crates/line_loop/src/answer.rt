ghost use Rattle.std.specs.Prelude.{◌≡◌, ◌≢◌, ◌≤◌, ℕ, List, length, OnOk, IfErr};
ghost use Rattle.cy_outside.specs.Outside.{Rose};
ghost use Rattle.line_text.specs.Buffer.{text_of};
ghost use Rattle.line_loop.specs.Heard.{HasHeard};
ghost use Rattle.line_loop.specs.Reply.{Answers, voices};
ghost use Rattle.line_loop.specs.Steps.{IsClosed, IsRefusal, IsStop, IsUnclosed};

use crate::{LineBounds, LineListener, LineStop, LinesEnded};
use cy_outside::Sink;
use gathered_text::flush;
use line_text::TextBuffer;

/// Gathers the answer to a line. One of more bytes than the bound is refused.
#[inline(always)]
pub fn answer<M: LineListener>(
    listener: &mut M,
    bounds: LineBounds,
    number: u64,
    line: &[u8],
    gathered: &mut TextBuffer,
) -> Result<(), LineStop<M::Refusal>>
    requires { length (text_of gathered.old) ≤ 65536 }
    ensures { let v = voices M.answers M.last M.long bounds in
        HasHeard (λ first. Answers (v first)) M.heard listener.old listener.new number line.now
        (text_of gathered.old) (text_of gathered.new) result }
{
    if line.len() as u64 > bounds.line {
        return Err(LineStop::Refused(listener.too_long(number)));
    }
    listener.hear(number, line, gathered)
}

/// Gathers the last words, and writes all that is gathered.
pub fn close<M: LineListener, O: Sink>(
    listener: &mut M,
    out: &mut O,
    gathered: &mut TextBuffer,
) -> Result<(), LinesEnded<M::Refusal>>
    ensures closed { OnOk result ((first : M) (past : List (List ℕ))
        → M.heard first listener.old past → IsClosed (M.last first past) (text_of gathered.old)
        (O.written out.old) (O.written out.new)) }
    ensures unclosed { IfErr result (λ e. (first : M) (past : List (List ℕ))
        → M.heard first listener.old past → IsUnclosed (M.last first past) (text_of gathered.old)
        (O.written out.old) (O.written out.new) e) }
    ensures write { IfErr result
        (λ e. e ≡ LinesEnded.WriteFault → Rose (O.faults out.old) (O.faults out.new)) }
    ensures unwritten { IfErr result
        (λ e. e ≢ LinesEnded.WriteFault → O.faults out.new ≡ O.faults out.old) }
    ensures kept { OnOk result (O.faults out.new ≡ O.faults out.old) }
    ensures not { IfErr result (λ e. e ≢ LinesEnded.Ok) }
{
    let Ok(()) = listener.finish(gathered) else {
        return Err(LinesEnded::NoMemory);
    };
    let Ok(()) = flush(out, gathered) else {
        return Err(LinesEnded::WriteFault);
    };
    Ok(())
}

/// Writes what is gathered and the last words, and ends by a refusal.
pub fn refuse<M: LineListener, O: Sink>(
    listener: &mut M,
    refusal: M::Refusal,
    out: &mut O,
    gathered: &mut TextBuffer,
) -> LinesEnded<M::Refusal>
    ensures ended { (first : M) (past : List (List ℕ)) → M.heard first listener.old past
        → IsRefusal (M.last first past) refusal (text_of gathered.old)
        (O.written out.old) (O.written out.new) result }
    ensures write { result ≡ LinesEnded.WriteFault → Rose (O.faults out.old) (O.faults out.new) }
    ensures unwritten { result ≢ LinesEnded.WriteFault → O.faults out.new ≡ O.faults out.old }
    ensures not { result ≢ LinesEnded.Ok }
{
    match close(listener, out, gathered) {
        Ok(()) => LinesEnded::Refused(refusal),
        Err(ended) => ended,
    }
}

/// Writes what is gathered and the last words where a line is refused, and ends so.
#[cold]
#[inline(never)]
pub fn ended_by<M: LineListener, O: Sink>(
    listener: &mut M,
    stop: LineStop<M::Refusal>,
    out: &mut O,
    gathered: &mut TextBuffer,
) -> LinesEnded<M::Refusal>
    ensures ended { IsStop M.heard M.last listener.old stop (text_of gathered.old)
        (O.written out.old) (O.written out.new) result }
    ensures write { result ≡ LinesEnded.WriteFault → Rose (O.faults out.old) (O.faults out.new) }
    ensures unwritten { result ≢ LinesEnded.WriteFault → O.faults out.new ≡ O.faults out.old }
    ensures not { result ≢ LinesEnded.Ok }
{
    match stop {
        LineStop::Refused(refusal) => refuse(listener, refusal, out, gathered),
        LineStop::NoMemory => LinesEnded::NoMemory,
    }
}
