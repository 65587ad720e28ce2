//! The layouts of a namespace.
ghost use Rattle.std.specs.Prelude.{◌≡◌, ◌≢◌};
ghost use Rattle.cy_outside.specs.Outside.{Rose};
ghost use Rattle.dsdl_types.specs.Definitions.{IsNamespace};
ghost use Rattle.node_run.specs.Layouts.{HasLayouts};

use crate::status::Status;
use cy_outside::{Sink, put_all};
use dsdl_types::Namespace;
use layout_text::namespace_text;
use std::alloc::Global;

/// Writes the layouts of a namespace: what was printed, and then of each type its lengths and its
/// fields, by name and version. Where memory is wanting, nothing is written.
pub fn compile<O: Sink>(alloc: Global, names: &Namespace, out: &mut O) -> Status
    requires { IsNamespace names.now }
    ensures written { HasLayouts names.now result (O.written out.old) (O.written out.new) }
    ensures write { result ≡ Status.WriteFault → Rose (O.faults out.old) (O.faults out.new) }
    ensures unwritten { result ≢ Status.WriteFault → O.faults out.new ≡ O.faults out.old }
{
    let Ok(text) = namespace_text(alloc, names) else {
        return Status::NoMemory;
    };
    let Ok(()) = put_all(out, text.as_slice()) else {
        return Status::WriteFault;
    };
    Status::Ok
}
