//! What the buses of a log carry.
ghost use Rattle.std.specs.Prelude.{◌≡◌, ◌≢◌, ◌≤◌};
ghost use Rattle.cy_outside.specs.Outside.{Rose};
ghost use Rattle.tail_frame.specs.declared.logged.Record.{Record};
ghost use Rattle.log_loop.specs.Gone.{any_stages};
ghost use Rattle.log_loop.specs.Listened.{HasListened};
ghost use Rattle.bus_survey.specs.Surveyed.{survey_voice};

use crate::surveying::Surveying;
use cy_bits::{BusName, ShortList};
use cy_outside::{Sink, Source};
use log_loop::{Ended, listen};
use std::alloc::Global;

/// Hears a log of the buses with these names, and writes at its end what each bus and each flow
/// carries, how many records it heard, how many of them are no frame, and how many nodes sent frames.
pub fn survey<L: Source, O: Sink>(
    alloc: Global,
    names: &ShortList<BusName, 3>,
    input: &mut L,
    out: &mut O,
) -> Ended
    ensures listened { HasListened names.now (survey_voice names.now) (any_stages Record)
        (L.left input.old) (L.left input.new) result (O.written out.old) (O.written out.new) }
    ensures read { result ≡ Ended.ReadFault → Rose (L.faults input.old) (L.faults input.new) }
    ensures write { result ≡ Ended.WriteFault → Rose (O.faults out.old) (O.faults out.new) }
    ensures unread { result ≢ Ended.ReadFault → L.faults input.new ≡ L.faults input.old }
    ensures unwritten { result ≢ Ended.WriteFault → O.faults out.new ≡ O.faults out.old }
{
    let mut surveying = Surveying::new(alloc, copy_of(names));
    listen(alloc, &mut surveying, copy_of(names), input, out)
}

/// The same names.
fn copy_of(names: &ShortList<BusName, 3>) -> ShortList<BusName, 3>
    ensures { result ≡ names.now }
{
    let mut copies = ShortList::new();
    for name in names.as_slice() {
        copies.push(BusName::new(name.as_str()).unwrap());
    }
    copies
}
