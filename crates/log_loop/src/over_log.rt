ghost use Rattle.std.specs.Prelude.{◌≡◌, ◌≤◌, ◌^◌, ◌≢◌, ◌++◌, ℕ, List, [], None, false};
ghost use Rattle.cy_outside.specs.Outside.{Rose};
ghost use Rattle.cy_outside.specs.Written.{behind, Begins};
ghost use Rattle.frame_log.specs.Log.{log_of, start};
ghost use Rattle.frame_log.specs.Reader.{buses_of, place_of, kept_bytes_of, bytes_left, saw_end, settled_answer, log_behind};
ghost use Rattle.line_text.specs.Buffer.{text_of};
ghost use Rattle.log_loop.specs.Gone.{stages, stopped, refused, IsFinish};
ghost use Rattle.log_loop.specs.Listened.{HasListened};

use crate::ended::Ended;
use crate::listener::Listener;
use crate::next::{Stop, next};
use cy_bits::{BusName, ShortList};
use cy_outside::{Sink, Source};
use frame_log::{LogError, LogReader, LogWhy, ordered};
use gathered_text::flush;
use line_text::TextBuffer;
use std::alloc::Global;
use tail_frame::{FrameData, Record};

/// Lets a listener hear the log of an input, and writes what it says on each record, and at the log's end its last
/// words. It has heard nothing, and hears from moment 0 on. What is gathered is written before the input is read
/// again.
pub fn listen<M: Listener, L: Source, O: Sink>(
    alloc: Global,
    listener: &mut M,
    buses: ShortList<BusName, 3>,
    input: &mut L,
    out: &mut O,
) -> Ended
    requires heard { M.heard listener.old listener.old [] }
    requires fresh { (M.latest listener.old ≡ 0) × (M.count listener.old ≡ 0) }
    ensures listened { let s = stages (M.heard listener.old listener.new)
        (M.ended listener.old listener.new)
        (M.broke listener.old listener.new) (M.cut_short listener.old listener.new) in
        HasListened buses (M.voice listener.old) s
        (L.left input.old) (L.left input.new) result (O.written out.old) (O.written out.new) }
    ensures read { result ≡ Ended.ReadFault → Rose (L.faults input.old) (L.faults input.new) }
    ensures write { result ≡ Ended.WriteFault → Rose (O.faults out.old) (O.faults out.new) }
    ensures unread { result ≢ Ended.ReadFault → L.faults input.new ≡ L.faults input.old }
    ensures unwritten { result ≢ Ended.WriteFault → O.faults out.new ≡ O.faults out.old }
    ensures kept { result ≡ Ended.Ok
        → (L.faults input.new ≡ L.faults input.old) × (O.faults out.new ≡ O.faults out.old) }
{
    let Ok(mut reader) = LogReader::new(alloc, buses) else {
        return Ended::NoMemory;
    };
    hear_all(alloc, listener, &mut reader, input, out)
}

/// The same, by a reader at a log's start.
fn hear_all<M: Listener, L: Source, O: Sink>(
    alloc: Global,
    listener: &mut M,
    reader: &mut LogReader,
    input: &mut L,
    out: &mut O,
) -> Ended
    requires log { (rest : List ℕ)
        → log_behind reader.old rest ≡ log_of (buses_of reader.old) rest }
    requires reading { settled_answer reader.old ≡ None }
    requires open { saw_end reader.old ≡ false }
    requires start { (place_of reader.old ≡ start) × (kept_bytes_of reader.old ≡ []) }
    requires room { bytes_left reader.old ≤ 2 ^ 28 }
    requires heard { M.heard listener.old listener.old [] }
    requires fresh { (M.latest listener.old ≡ 0) × (M.count listener.old ≡ 0) }
    ensures listened { let s = stages (M.heard listener.old listener.new)
        (M.ended listener.old listener.new)
        (M.broke listener.old listener.new) (M.cut_short listener.old listener.new) in
        HasListened (buses_of reader.old) (M.voice listener.old) s
        (L.left input.old) (L.left input.new) result (O.written out.old) (O.written out.new) }
    ensures read { result ≡ Ended.ReadFault → Rose (L.faults input.old) (L.faults input.new) }
    ensures write { result ≡ Ended.WriteFault → Rose (O.faults out.old) (O.faults out.new) }
    ensures unread { result ≢ Ended.ReadFault → L.faults input.new ≡ L.faults input.old }
    ensures unwritten { result ≢ Ended.WriteFault → O.faults out.new ≡ O.faults out.old }
    ensures kept { result ≡ Ended.Ok
        → (L.faults input.new ≡ L.faults input.old) × (O.faults out.new ≡ O.faults out.old) }
{
    ordered();
    let mut gathered = TextBuffer::new(alloc);
    let mut rec = Record {
        line: 0,
        moment: 0,
        bus: 0,
        ident: 0,
        bytes: FrameData::new(),
    };
    'records: loop {
        match next(reader, input, out, &mut gathered, &mut rec) {
            Ok(true) => {}
            Ok(false) => break,
            Err(stop) => return stopped(stop),
        }
        let Ok(()) = listener.hear(&rec, &mut gathered) else {
            return Ended::NoMemory;
        };
    }
    end(listener, out, &mut gathered)
}

/// Writes what a listener says at the end behind what is gathered.
fn end<M: Listener, O: Sink>(listener: &mut M, out: &mut O, gathered: &mut TextBuffer) -> Ended
    ensures ok { result ≡ Ended.Ok
        → (first : M) (past : List M.event) → M.heard first listener.old past
        → O.written out.new ≡ behind (O.written out.old)
        (text_of gathered.old ++ (M.voice first).last past) }
    ensures unwritten { result ≢ Ended.WriteFault → O.faults out.new ≡ O.faults out.old }
    ensures begins { result ≡ Ended.WriteFault
        → (first : M) (past : List M.event) → M.heard first listener.old past
        → Begins (text_of gathered.old ++ (M.voice first).last past) (O.written out.old)
        (O.written out.new) }
    ensures write { result ≡ Ended.WriteFault → Rose (O.faults out.old) (O.faults out.new) }
    ensures memory { result ≡ Ended.NoMemory → O.written out.new ≡ O.written out.old }
    ensures ended { result ≢ Ended.NoMemory
        → (first : M) (past : List M.event) → M.heard first listener.old past
        → M.ended first listener.new past }
    ensures cut_short { result ≡ Ended.NoMemory
        → (first : M) (past : List M.event) → M.heard first listener.old past
        → M.cut_short first listener.new past }
    ensures only { IsFinish result }
{
    let Ok(()) = listener.finish(gathered) else {
        return Ended::NoMemory;
    };
    let Ok(()) = flush(out, gathered) else {
        return Ended::WriteFault;
    };
    Ended::Ok
}

/// How a loop ends that came to no further record.
fn stopped(stop: Stop) -> Ended
    ensures { result ≡ stopped stop }
{
    match stop {
        Stop::Log(error) => refused(error),
        Stop::Write => Ended::WriteFault,
    }
}

/// How a loop ends that the log ended.
fn refused(error: LogError) -> Ended
    ensures { result ≡ refused error }
{
    match error {
        LogError::BadLine { n } => Ended::Log {
            line: n,
            why: LogWhy::BadLine,
        },
        LogError::TimeBack { n } => Ended::Log {
            line: n,
            why: LogWhy::TimeBack,
        },
        LogError::UnknownBus { n } => Ended::Log {
            line: n,
            why: LogWhy::UnknownBus,
        },
        LogError::TooFar { n } => Ended::Log {
            line: n,
            why: LogWhy::TooFar,
        },
        LogError::LogLong => Ended::LogLong,
        LogError::Failed => Ended::ReadFault,
    }
}
