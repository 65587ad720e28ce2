//! `nodes BUSES`: who comes and goes on the buses of the log of the input.
ghost use Rattle.std.specs.Prelude.{◌≡◌, ◌≢◌, ℕ, true, false};
ghost use Rattle.cy_outside.specs.Outside.{Rose};
ghost use Rattle.tail_frame.specs.declared.logged.Record.{Record};
ghost use Rattle.log_loop.specs.Gone.{any_stages};
ghost use Rattle.log_loop.specs.Listened.{HasListened as Listened};
ghost use Rattle.node_reach.specs.Watched.{nodes_voice};
ghost use Rattle.node_run.specs.ValueLines.{flow};
ghost use Rattle.cyphal.specs.Cause.{outside, HasCauseOver};
ghost use Rattle.cyphal.specs.Job.{is_fault};
ghost use Rattle.cyphal.specs.LogEnds.{EndsAsLog};
ghost use Rattle.cyphal.specs.Words.{names_of};
ghost use Rattle.cyphal.specs.jobs.Reach.{HasListened};

use crate::bus_names::BusNames;
use cy_outside::{Sink, Source};
use node_reach::{Ended, nodes};
use node_run::{Status, status_of};
use std::alloc::Global;

/// Hears the log of the input, of these buses, and writes with each record which nodes come and go
/// by it, and how they are. It is given no tree, so each count of a tree's faults stays.
pub fn watch_nodes<L: Source, O: Sink>(
    alloc: Global,
    buses: BusNames<'_>,
    input: &mut L,
    out: &mut O,
) -> Status
    ensures answer { is_fault result ≡ false
        → EndsAsLog (names_of buses.entry) (L.left input.old) result }
    ensures usage { ¬ (result ≡ Status.Usage) }
    ensures cause { (tree : ℕ)
        → (let old = outside tree (L.faults input.old) (O.faults out.old) input.old in
        let new = outside tree (L.faults input.new) (O.faults out.new) input.new in
        HasCauseOver true false result old new) }
    ensures ran { let names = names_of buses.entry in
        let told = flow (L.left input.old) (L.left input.new)
        (O.written out.old) (O.written out.new) in
        HasListened names nodes_voice result told }
{
    status_of(watched(alloc, buses, input, out))
}

/// How hearing the log ends.
fn watched<L: Source, O: Sink>(
    alloc: Global,
    buses: BusNames<'_>,
    input: &mut L,
    out: &mut O,
) -> Ended
    ensures listened { let names = names_of buses.entry in
        Listened names nodes_voice (any_stages Record)
        (L.left input.old) (L.left input.new) result (O.written out.old) (O.written out.new) }
    ensures read { result ≡ Ended.ReadFault → Rose (L.faults input.old) (L.faults input.new) }
    ensures write { result ≡ Ended.WriteFault → Rose (O.faults out.old) (O.faults out.new) }
    ensures unread { result ≢ Ended.ReadFault → L.faults input.new ≡ L.faults input.old }
    ensures unwritten { result ≢ Ended.WriteFault → O.faults out.new ≡ O.faults out.old }
{
    nodes(alloc, buses.listed(), input, out)
}
