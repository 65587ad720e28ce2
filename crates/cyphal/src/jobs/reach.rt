//! `monitor NODE` and `allocate NODE`: what a node does with the log of the input that it hears
//! without a plan.
ghost use Rattle.std.specs.Prelude.{◌≡◌, ◌≢◌, ℕ, true, false};
ghost use Rattle.cy_outside.specs.Outside.{Rose};
ghost use Rattle.tail_frame.specs.declared.logged.Record.{Record};
ghost use Rattle.log_loop.specs.Gone.{any_stages};
ghost use Rattle.log_loop.specs.Listened.{HasListened as Listened};
ghost use Rattle.node_reach.specs.Buses.{bus_names};
ghost use Rattle.node_run.specs.ValueLines.{flow};
ghost use Rattle.cyphal.specs.Cause.{outside, HasCauseOver};
ghost use Rattle.cyphal.specs.Job.{is_fault};
ghost use Rattle.cyphal.specs.LogEnds.{EndsAsLog};
ghost use Rattle.cyphal.specs.jobs.Reach.{voice_of, HasListened};

use crate::node_id::NodeId;
use cy_outside::{Sink, Source};
use node_reach::{Ended, allocate, monitor};
use node_run::{Status, status_of};
use std::alloc::Global;

/// What a node does with a log.
#[derive(Clone, Copy)]
pub enum Hearing {
    /// It tells behind the log which nodes are online, and the network's time.
    Monitor,
    /// It gives node-IDs to nodes that have none, and tells which, with the frames that say so.
    Allocate,
}

/// Hears the log of the input as the node `own`, and writes what it tells. It is given no tree, so
/// each count of a tree's faults stays.
pub fn hear_log<L: Source, O: Sink>(
    alloc: Global,
    hearing: Hearing,
    own: NodeId,
    input: &mut L,
    out: &mut O,
) -> Status
    ensures answer { is_fault result ≡ false → EndsAsLog bus_names (L.left input.old) result }
    ensures usage { ¬ (result ≡ Status.Usage) }
    ensures cause { (tree : ℕ)
        → (let old = outside tree (L.faults input.old) (O.faults out.old) input.old in
        let new = outside tree (L.faults input.new) (O.faults out.new) input.new in
        HasCauseOver true false result old new) }
    ensures ran { let told = flow (L.left input.old) (L.left input.new)
        (O.written out.old) (O.written out.new) in
        HasListened bus_names (voice_of hearing own.number) result told }
{
    status_of(heard(alloc, hearing, own, input, out))
}

/// How hearing the log ends.
fn heard<L: Source, O: Sink>(
    alloc: Global,
    hearing: Hearing,
    own: NodeId,
    input: &mut L,
    out: &mut O,
) -> Ended
    ensures listened { Listened bus_names (voice_of hearing own.number) (any_stages Record)
        (L.left input.old) (L.left input.new) result (O.written out.old) (O.written out.new) }
    ensures read { result ≡ Ended.ReadFault → Rose (L.faults input.old) (L.faults input.new) }
    ensures write { result ≡ Ended.WriteFault → Rose (O.faults out.old) (O.faults out.new) }
    ensures unread { result ≢ Ended.ReadFault → L.faults input.new ≡ L.faults input.old }
    ensures unwritten { result ≢ Ended.WriteFault → O.faults out.new ≡ O.faults out.old }
{
    match hearing {
        Hearing::Monitor => monitor(alloc, own.number, input, out),
        Hearing::Allocate => allocate(alloc, own.number, input, out),
    }
}
