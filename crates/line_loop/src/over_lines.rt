ghost use Rattle.std.specs.Prelude.{◌≡◌, ◌≢◌, ◌≤◌, ◌<◌, ◌+◌, ℕ, List, [], Some, None, length, OnOk, IfErr};
ghost use Rattle.cy_outside.specs.Outside.{Rose};
ghost use Rattle.memchr.specs.Find.{IsFirstByte, is_byte};
ghost use Rattle.line_text.specs.Buffer.{text_of};
ghost use Rattle.line_loop.specs.Gone.{HasGone};
ghost use Rattle.line_loop.specs.Reader.{held_of, count_of, left_of};
ghost use Rattle.line_loop.specs.Reply.{voices, IsReply, HasOneAnswer};
ghost use Rattle.line_loop.specs.Steps.{Comes, EndsBy, Goes, IsOverlong, IsWhole, Stays, Stops};
ghost use Rattle.line_loop.specs.Streamed.{HasHeardTaken, IsStreamed};

use crate::answer::{answer, close, ended_by, refuse};
use crate::reader::{Came, LineReader};
use crate::{LineBounds, LineListener, LinesEnded};
use cy_outside::{Sink, Source};
use gathered_text::{flush, flush_much};
use line_text::TextBuffer;
use std::alloc::Global;

/// Lets a listener answer the lines of an input, and writes what it says. However it ends, of each front
/// of the bytes that were taken, behind which more than 65,536 bytes were taken, the answers are written.
/// What is gathered is written before the input is read again.
///
/// Lines end with a newline, which the last may lack; a newline at the end begins none. A line with
/// more bytes than `bounds.line` is refused. Where the input has more than `bounds.all` bytes, the
/// lines whose newline is among these are answered before it is refused.
///
/// Where the input fails, the listener has heard exactly the lines whose newline was taken.
pub fn listen_lines<M: LineListener, L: Source, O: Sink>(
    alloc: Global,
    listener: &mut M,
    bounds: LineBounds,
    input: &mut L,
    out: &mut O,
) -> LinesEnded<M::Refusal>
    requires { M.heard listener.old listener.old [] }
    ensures gone { let v = voices M.answers M.last M.long bounds listener.old in
        HasGone v (L.left input.old) (L.left input.new) result (O.written out.old)
        (O.written out.new) }
    ensures streamed { let v = voices M.answers M.last M.long bounds listener.old in
        IsStreamed v (L.left input.old) (L.left input.new) (O.written out.old) (O.written out.new) }
    ensures heard { result ≡ LinesEnded.ReadFault
        → HasHeardTaken M.heard listener.old listener.new (L.left input.old) (L.left input.new) }
    ensures read { result ≡ LinesEnded.ReadFault → Rose (L.faults input.old) (L.faults input.new) }
    ensures write { result ≡ LinesEnded.WriteFault → Rose (O.faults out.old) (O.faults out.new) }
    ensures unread { result ≢ LinesEnded.ReadFault → L.faults input.new ≡ L.faults input.old }
    ensures unwritten { result ≢ LinesEnded.WriteFault → O.faults out.new ≡ O.faults out.old }
    ensures kept { result ≡ LinesEnded.Ok
        → (L.faults input.new ≡ L.faults input.old) × (O.faults out.new ≡ O.faults out.old) }
{
    let mut reader = LineReader::new(alloc, bounds.all);
    let mut gathered = TextBuffer::new(alloc);
    'reads: loop {
        if let Err(ended) = settle(listener, bounds, &mut reader, out, &mut gathered) {
            return ended;
        }
        match reader.read(input, bounds.line) {
            Came::Bytes => {}
            Came::End => return hear_last(listener, bounds, &reader, out, &mut gathered),
            Came::Over => return overlong(listener, out, &mut gathered),
            Came::Failed => return LinesEnded::ReadFault,
            Came::NoMemory => return LinesEnded::NoMemory,
        }
    }
}

/// Answers each whole line that is held, and writes all answers. What stands behind the last
/// newline is refused where it is too long for a line.
fn settle<M: LineListener, O: Sink>(
    listener: &mut M,
    bounds: LineBounds,
    reader: &mut LineReader,
    out: &mut O,
    gathered: &mut TextBuffer,
) -> Result<(), LinesEnded<M::Refusal>>
    requires { length (text_of gathered.old) ≤ 65536 }
    ensures goes { let v = voices M.answers M.last M.long bounds in
        OnOk result (Comes M.heard listener.old listener.new
        (count_of reader.old) (count_of reader.new)
        (λ first past new. Goes (v first) past (held_of reader.old) new (held_of reader.new)
        (text_of gathered.old) (text_of gathered.new) (O.written out.old) (O.written out.new))) }
    ensures stops { let v = voices M.answers M.last M.long bounds in
        IfErr result (λ e. Stays M.heard listener.old (count_of reader.old)
        (λ first past. Stops (v first) past (held_of reader.old)
        (text_of gathered.old) (O.written out.old) (O.written out.new) e)) }
    ensures none { OnOk result (IsFirstByte (is_byte 10) (held_of reader.new) None) }
    ensures short { OnOk result (length (held_of reader.new) ≤ bounds.line) }
    ensures written { OnOk result (text_of gathered.new ≡ []) }
    ensures room { left_of reader.new ≡ left_of reader.old }
    ensures write { IfErr result
        (λ e. e ≡ LinesEnded.WriteFault → Rose (O.faults out.old) (O.faults out.new)) }
    ensures unwritten { IfErr result
        (λ e. e ≢ LinesEnded.WriteFault → O.faults out.new ≡ O.faults out.old) }
    ensures kept { OnOk result (O.faults out.new ≡ O.faults out.old) }
{
    if let Err(ended) = hear_held(listener, bounds, reader, out, gathered) {
        return Err(ended);
    }
    let held = reader.held();
    if held.len() as u64 > bounds.line {
        let refusal = listener.too_long(reader.number());
        return Err(refuse(listener, refusal, out, gathered));
    }
    match flush(out, gathered) {
        Ok(()) => Ok(()),
        Err(_) => Err(LinesEnded::WriteFault),
    }
}

/// Answers each whole line that is held.
fn hear_held<M: LineListener, O: Sink>(
    listener: &mut M,
    bounds: LineBounds,
    reader: &mut LineReader,
    out: &mut O,
    gathered: &mut TextBuffer,
) -> Result<(), LinesEnded<M::Refusal>>
    requires { length (text_of gathered.old) ≤ 65536 }
    ensures goes { let v = voices M.answers M.last M.long bounds in
        OnOk result (Comes M.heard listener.old listener.new
        (count_of reader.old) (count_of reader.new)
        (λ first past new. Goes (v first) past (held_of reader.old) new (held_of reader.new)
        (text_of gathered.old) (text_of gathered.new) (O.written out.old) (O.written out.new))) }
    ensures stops { let v = voices M.answers M.last M.long bounds in
        IfErr result (λ e. Stays M.heard listener.old (count_of reader.old)
        (λ first past. Stops (v first) past (held_of reader.old)
        (text_of gathered.old) (O.written out.old) (O.written out.new) e)) }
    ensures none { OnOk result (IsFirstByte (is_byte 10) (held_of reader.new) None) }
    ensures room { left_of reader.new ≡ left_of reader.old }
    ensures write { IfErr result
        (λ e. e ≡ LinesEnded.WriteFault → Rose (O.faults out.old) (O.faults out.new)) }
    ensures unwritten { IfErr result
        (λ e. e ≢ LinesEnded.WriteFault → O.faults out.new ≡ O.faults out.old) }
    ensures kept { OnOk result (O.faults out.new ≡ O.faults out.old) }
{
    'lines: while let Some(n) = reader.find_line() {
        if let Err(ended) = hear_line(listener, bounds, reader, n, out, gathered) {
            return Err(ended);
        }
    }
    Ok(())
}

/// Answers the first line that is held, which has `n` bytes.
fn hear_line<M: LineListener, O: Sink>(
    listener: &mut M,
    bounds: LineBounds,
    reader: &mut LineReader,
    n: usize,
    out: &mut O,
    gathered: &mut TextBuffer,
) -> Result<(), LinesEnded<M::Refusal>>
    requires line { IsFirstByte (is_byte 10) (held_of reader.old) (Some n) }
    requires few { length (text_of gathered.old) ≤ 65536 }
    ensures goes { let v = voices M.answers M.last M.long bounds in
        OnOk result (Comes M.heard listener.old listener.new
        (count_of reader.old) (count_of reader.new)
        (λ first past new. Goes (v first) past (held_of reader.old) new (held_of reader.new)
        (text_of gathered.old) (text_of gathered.new) (O.written out.old) (O.written out.new))) }
    ensures stops { let v = voices M.answers M.last M.long bounds in
        IfErr result (λ e. Stays M.heard listener.old (count_of reader.old)
        (λ first past. Stops (v first) past (held_of reader.old)
        (text_of gathered.old) (O.written out.old) (O.written out.new) e)) }
    ensures few { OnOk result (length (text_of gathered.new) ≤ 65536) }
    ensures less { OnOk result (length (held_of reader.new) < length (held_of reader.old)) }
    ensures room { left_of reader.new ≡ left_of reader.old }
    ensures write { IfErr result
        (λ e. e ≡ LinesEnded.WriteFault → Rose (O.faults out.old) (O.faults out.new)) }
    ensures unwritten { IfErr result
        (λ e. e ≢ LinesEnded.WriteFault → O.faults out.new ≡ O.faults out.old) }
    ensures kept { OnOk result (O.faults out.new ≡ O.faults out.old) }
{
    let line = &reader.held()[..n];
    if let Err(stop) = answer(listener, bounds, reader.number(), line, gathered) {
        return Err(ended_by(listener, stop, out, gathered));
    }
    reader.skip_line(n);
    match flush_much(out, gathered) {
        Ok(()) => Ok(()),
        Err(_) => Err(LinesEnded::WriteFault),
    }
}

/// Answers the last line, where what is held is one that lacks its newline, and writes the last words.
fn hear_last<M: LineListener, O: Sink>(
    listener: &mut M,
    bounds: LineBounds,
    reader: &LineReader,
    out: &mut O,
    gathered: &mut TextBuffer,
) -> LinesEnded<M::Refusal>
    requires { text_of gathered.old ≡ [] }
    ensures last { let v = voices M.answers M.last M.long bounds in
        Stays M.heard listener.old (count_of reader.now)
        (λ first past. EndsBy (v first) past (held_of reader.now)
        (O.written out.old) (O.written out.new) result) }
    ensures write { result ≡ LinesEnded.WriteFault → Rose (O.faults out.old) (O.faults out.new) }
    ensures unwritten { result ≢ LinesEnded.WriteFault → O.faults out.new ≡ O.faults out.old }
{
    let line = reader.held();
    if line.is_empty() {
        return whole(listener, out, gathered);
    }
    if let Err(stop) = answer(listener, bounds, reader.number(), line, gathered) {
        return ended_by(listener, stop, out, gathered);
    }
    whole(listener, out, gathered)
}

/// Writes what is gathered and the last words at the end of the input.
fn whole<M: LineListener, O: Sink>(
    listener: &mut M,
    out: &mut O,
    gathered: &mut TextBuffer,
) -> LinesEnded<M::Refusal>
    ensures ended { (first : M) (past : List (List ℕ)) → M.heard first listener.old past
        → IsWhole (M.last first past) (text_of gathered.old)
        (O.written out.old) (O.written out.new) result }
    ensures write { result ≡ LinesEnded.WriteFault → Rose (O.faults out.old) (O.faults out.new) }
    ensures unwritten { result ≢ LinesEnded.WriteFault → O.faults out.new ≡ O.faults out.old }
{
    match close(listener, out, gathered) {
        Ok(()) => LinesEnded::Ok,
        Err(ended) => ended,
    }
}

/// Writes the last words where the input has more bytes than count.
fn overlong<M: LineListener, O: Sink>(
    listener: &mut M,
    out: &mut O,
    gathered: &mut TextBuffer,
) -> LinesEnded<M::Refusal>
    requires { text_of gathered.old ≡ [] }
    ensures ended { (first : M) (past : List (List ℕ)) → M.heard first listener.old past
        → IsOverlong (M.last first past) (O.written out.old) (O.written out.new) result }
    ensures write { result ≡ LinesEnded.WriteFault → Rose (O.faults out.old) (O.faults out.new) }
    ensures unwritten { result ≢ LinesEnded.WriteFault → O.faults out.new ≡ O.faults out.old }
    ensures short { result ≢ LinesEnded.Ok }
{
    match close(listener, out, gathered) {
        Ok(()) => LinesEnded::TooLong,
        Err(ended) => ended,
    }
}

/// The reply to an input is one: where there is one answer to each line, and no two last words, no
/// two texts are said to one input, and no two ends come of it.
pub fn one_reply<M: LineListener>(listener: &M, bounds: LineBounds)
    ensures text { let v = voices M.answers M.last M.long bounds listener.now in
        HasOneAnswer v → (bytes t u : List ℕ) (e f : LinesEnded M.Refusal)
        → IsReply v bytes t e → IsReply v bytes u f → t ≡ u }
    ensures end { let v = voices M.answers M.last M.long bounds listener.now in
        HasOneAnswer v → (bytes t u : List ℕ) (e f : LinesEnded M.Refusal)
        → IsReply v bytes t e → IsReply v bytes u f → e ≡ f }
{}
