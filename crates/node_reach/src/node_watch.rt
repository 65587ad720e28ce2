//! Who comes and goes in a log, as it happens.
ghost use Rattle.std.specs.Prelude.{◌≡◌, ◌≢◌};
ghost use Rattle.cy_outside.specs.Outside.{Rose};
ghost use Rattle.tail_frame.specs.declared.logged.Record.{Record};
ghost use Rattle.log_loop.specs.Gone.{any_stages};
ghost use Rattle.log_loop.specs.Listened.{HasListened};
ghost use Rattle.node_reach.specs.Watched.{nodes_voice};
ghost use Rattle.node_reach.specs.WatchLaws.{WatchLaws};

use crate::watching::Watching;
use cy_bits::{BusName, ShortList};
use cy_outside::{Sink, Source};
use log_loop::{Ended, listen};
use std::alloc::Global;

/// Hears a log of the buses with these names, and writes with each record which nodes went offline
/// before it, and what its heartbeat changed; at the log's end how many records it heard, how many
/// nodes, and how many restarts it told. Memory is taken for each node that is heard, at most 128.
pub fn nodes<L: Source, O: Sink>(
    alloc: Global,
    names: ShortList<BusName, 3>,
    input: &mut L,
    out: &mut O,
) -> Ended
    ensures listened { HasListened names nodes_voice (any_stages Record)
        (L.left input.old) (L.left input.new) result (O.written out.old) (O.written out.new) }
    ensures read { result ≡ Ended.ReadFault → Rose (L.faults input.old) (L.faults input.new) }
    ensures write { result ≡ Ended.WriteFault → Rose (O.faults out.old) (O.faults out.new) }
    ensures unread { result ≢ Ended.ReadFault → L.faults input.new ≡ L.faults input.old }
    ensures unwritten { result ≢ Ended.WriteFault → O.faults out.new ≡ O.faults out.old }
{
    let Ok(mut watching) = Watching::new(alloc) else {
        return Ended::NoMemory;
    };
    listen(alloc, &mut watching, names, input, out)
}

/// What holds of the lines of `nodes`, over every list of records.
pub fn watch_laws()
    ensures { WatchLaws }
{}
