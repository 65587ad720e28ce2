//! `order MICROS`: the lines of a log in the order of their moments.
ghost use Rattle.std.specs.Prelude.{◌≡◌, ◌≢◌, ℕ, true, false};
ghost use Rattle.cy_outside.specs.Outside.{Rose};
ghost use Rattle.node_run.specs.ValueLines.{flow};
ghost use Rattle.cyphal.specs.Cause.{outside, HasCauseOver};
ghost use Rattle.cyphal.specs.Job.{is_fault};
ghost use Rattle.cyphal.specs.jobs.Order.{EndsAsLines, HasOrdered, IsOrderedUntil};

use cy_outside::{Sink, Source};
use line_loop::LinesEnded;
use line_order::order_log;
use node_reach::Ended;
use node_run::{Status, status_of};
use std::alloc::Global;

/// Writes the lines of the log of the input in the order of their moments, where none comes later
/// than a window allows, in microseconds. It is given no tree, so each count of a tree's faults
/// stays.
pub fn order_lines<L: Source, O: Sink>(
    alloc: Global,
    window: u32,
    input: &mut L,
    out: &mut O,
) -> Status
    ensures answer { is_fault result ≡ false → EndsAsLines window (L.left input.old) result }
    ensures usage { ¬ (result ≡ Status.Usage) }
    ensures cause { (tree : ℕ)
        → (let old = outside tree (L.faults input.old) (O.faults out.old) input.old in
        let new = outside tree (L.faults input.new) (O.faults out.new) input.new in
        HasCauseOver true false result old new) }
    ensures ran { let told = flow (L.left input.old) (L.left input.new)
        (O.written out.old) (O.written out.new) in
        HasOrdered window result told }
{
    status_of(ordered(alloc, window, input, out))
}

/// How the log ends.
fn ordered<L: Source, O: Sink>(alloc: Global, window: u32, input: &mut L, out: &mut O) -> Ended
    ensures ordered { let told = flow (L.left input.old) (L.left input.new)
        (O.written out.old) (O.written out.new) in
        IsOrderedUntil window result told }
    ensures read { result ≡ Ended.ReadFault → Rose (L.faults input.old) (L.faults input.new) }
    ensures write { result ≡ Ended.WriteFault → Rose (O.faults out.old) (O.faults out.new) }
    ensures unread { result ≢ Ended.ReadFault → L.faults input.new ≡ L.faults input.old }
    ensures unwritten { result ≢ Ended.WriteFault → O.faults out.new ≡ O.faults out.old }
{
    match order_log(alloc, u64::from(window), input, out) {
        LinesEnded::Ok => Ended::Ok,
        LinesEnded::Refused(refusal) => Ended::Log {
            line: refusal.line,
            why: refusal.why,
        },
        LinesEnded::TooLong => Ended::LogLong,
        LinesEnded::ReadFault => Ended::ReadFault,
        LinesEnded::WriteFault => Ended::WriteFault,
        LinesEnded::NoMemory => Ended::NoMemory,
    }
}
