//! Why the frames of a log came to what they did.
ghost use Rattle.std.specs.Prelude.{◌≡◌, ◌≢◌, ◌≤◌};
ghost use Rattle.cy_outside.specs.Outside.{Rose};
ghost use Rattle.tail_frame.specs.declared.logged.Record.{Record};
ghost use Rattle.log_loop.specs.Gone.{any_stages};
ghost use Rattle.log_loop.specs.Listened.{HasListened};
ghost use Rattle.node_plan.specs.IsPlan.{IsPlan};
ghost use Rattle.log_explain.specs.Explained.{explain_voice, names_of};

use crate::explaining::Explaining;
use cy_bits::{BusName, ShortList};
use cy_outside::{Sink, Source};
use log_loop::{Ended, listen};
use node_core::Node;
use node_plan::{BusPlan, Plan};
use std::alloc::Global;

/// Explains a log at the node of a plan, as if it were silent: writes on each record, before the
/// input is read again, why it came to what it did, and at the log's end how each session fared.
pub fn explain_log<L: Source, O: Sink>(
    alloc: Global,
    plan: Plan,
    input: &mut L,
    out: &mut O,
) -> Ended
    requires plan { IsPlan plan }
    ensures listened { HasListened (names_of plan) (explain_voice plan) (any_stages Record)
        (L.left input.old) (L.left input.new) result (O.written out.old) (O.written out.new) }
    ensures read { result ≡ Ended.ReadFault → Rose (L.faults input.old) (L.faults input.new) }
    ensures write { result ≡ Ended.WriteFault → Rose (O.faults out.old) (O.faults out.new) }
    ensures unread { result ≢ Ended.ReadFault → L.faults input.new ≡ L.faults input.old }
    ensures unwritten { result ≢ Ended.WriteFault → O.faults out.new ≡ O.faults out.old }
{
    let names = names_of(&plan);
    let own = names_of(&plan);
    let Ok(node) = Node::open(alloc, plan) else {
        return Ended::NoMemory;
    };
    let Ok(mut explaining) = Explaining::new(alloc, own, node) else {
        return Ended::NoMemory;
    };
    listen(alloc, &mut explaining, names, input, out)
}

/// The names of a plan's buses.
fn names_of(plan: &Plan) -> ShortList<BusName, 3>
    ensures { result ≡ names_of plan.now }
{
    let mut names = ShortList::new();
    for bus in plan.buses.as_slice() {
        names.push(name_of(bus));
    }
    names
}

/// The name of a bus, copied.
fn name_of(bus: &BusPlan) -> BusName
    ensures { result ≡ bus.now.name }
{
    let text = bus.name.as_str();
    BusName::new(text).unwrap()
}
