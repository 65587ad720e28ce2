//! `versions ROOT`: whether each version of a type below a root is newer than the one before it.
ghost use Rattle.std.specs.Prelude.{◌≡◌, ◌≢◌, ◌⊎◌, false};
ghost use Rattle.cy_outside.specs.Outside.{Rose};
ghost use Rattle.type_versions.specs.Lines.{AreVersions};
ghost use Rattle.node_run.specs.Loaded.{calls_of};
ghost use Rattle.cyphal.specs.Job.{is_fault, printed, WroteNothing, CallsAtMost};
ghost use Rattle.cyphal.specs.Cause.{counts, HasCause};
ghost use Rattle.cyphal.specs.Verdicts.{HasTold};
ghost use Rattle.cyphal.specs.jobs.Versions.{VersionsEnd, ComparesVersions, HasVersionsAt};

use crate::jobs::verdicts::write_verdicts;
use cy_outside::{Sink, Tree};
use dsdl_types::Namespace;
use node_run::{Status, load};
use std::alloc::Global;
use type_versions::{Versions, versions_of};

/// Writes whether each version of a type below a root is newer than the one before it.
pub fn compare_versions<T: Tree, O: Sink>(
    alloc: Global,
    root: &str,
    tree: &mut T,
    out: &mut O,
) -> Status
    ensures answer { is_fault result ≡ false
        → ComparesVersions root.now (T.files tree.old) result }
    ensures cause { let old = counts (T.faults tree.old) (O.faults out.old) in
        let new = counts (T.faults tree.new) (O.faults out.new) in
        HasCause result old new }
    ensures ran { let print = printed result (O.written out.old) (O.written out.new) in
        WroteNothing print ⊎ HasVersionsAt root.now (T.files tree.old) print }
    ensures calls { CallsAtMost (calls_of root.now)
        (T.files tree.old) (T.calls tree.old) (T.calls tree.new) }
{
    let names = match load(alloc, tree, root) {
        Ok(names) => names,
        Err(status) => return status,
    };
    write_versions(alloc, &names, out)
}

/// Writes a line for each version of a namespace that has one before it. Where memory is wanting,
/// nothing is written.
fn write_versions<O: Sink>(alloc: Global, names: &Namespace, out: &mut O) -> Status
    ensures written { HasTold (AreVersions names.now) result
        (O.written out.old) (O.written out.new) }
    ensures ends { is_fault result ≡ false → VersionsEnd names.now result }
    ensures write { result ≡ Status.WriteFault → Rose (O.faults out.old) (O.faults out.new) }
    ensures unwritten { result ≢ Status.WriteFault → O.faults out.new ≡ O.faults out.old }
{
    let Ok(Versions { lines, first }) = versions_of(alloc, names) else {
        return Status::NoMemory;
    };
    write_verdicts(lines.as_slice(), first, out)
}
