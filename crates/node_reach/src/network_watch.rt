//! Who is online in a log, and the network's time.
ghost use Rattle.std.specs.Prelude.{◌≡◌, ◌≢◌, ◌≤◌};
ghost use Rattle.cy_outside.specs.Outside.{Rose};
ghost use Rattle.tail_frame.specs.declared.logged.Record.{Record};
ghost use Rattle.log_loop.specs.Gone.{any_stages};
ghost use Rattle.log_loop.specs.Listened.{HasListened};
ghost use Rattle.node_reach.specs.Monitored.{monitor_voice};
ghost use Rattle.node_reach.specs.Buses.{bus_names};

use crate::buses::bus_names;
use crate::monitoring::Monitoring;
use cy_outside::{Sink, Source};
use log_loop::{Ended, listen};
use std::alloc::Global;

/// Hears a log of the buses `can0`, `can1` and `can2` as the node `own`, at most 127, and writes at
/// its end how each node is that was heard, the network's time, how many records it heard, and how
/// many nodes are online.
pub fn monitor<L: Source, O: Sink>(alloc: Global, own: u8, input: &mut L, out: &mut O) -> Ended
    requires own { own ≤ 127 }
    ensures listened { HasListened bus_names (monitor_voice own) (any_stages Record)
        (L.left input.old) (L.left input.new) result (O.written out.old) (O.written out.new) }
    ensures read { result ≡ Ended.ReadFault → Rose (L.faults input.old) (L.faults input.new) }
    ensures write { result ≡ Ended.WriteFault → Rose (O.faults out.old) (O.faults out.new) }
    ensures unread { result ≢ Ended.ReadFault → L.faults input.new ≡ L.faults input.old }
    ensures unwritten { result ≢ Ended.WriteFault → O.faults out.new ≡ O.faults out.old }
{
    let Ok(mut monitoring) = Monitoring::new(alloc, own) else {
        return Ended::NoMemory;
    };
    listen(alloc, &mut monitoring, bus_names(), input, out)
}
