//! `compat ROOT NEW OLD`: whether one type of a root is newer than another.
ghost use Rattle.std.specs.Prelude.{◌≡◌, ◌⊎◌, false};
ghost use Rattle.node_run.specs.Loaded.{calls_of};
ghost use Rattle.cyphal.specs.Job.{is_fault, printed, WroteNothing, CallsAtMost};
ghost use Rattle.cyphal.specs.Cause.{counts, HasCause};
ghost use Rattle.cyphal.specs.jobs.Compat.{Compares, HasComparedAt};

use cy_outside::{Sink, Tree};
use node_run::{Status, compat, load};
use std::alloc::Global;

/// Writes whether one type of a root is newer than another.
pub fn compat_types<T: Tree, O: Sink>(
    alloc: Global,
    root: &str,
    new: &str,
    old: &str,
    tree: &mut T,
    out: &mut O,
) -> Status
    ensures answer { is_fault result ≡ false
        → Compares root.now new.now old.now (T.files tree.old) result }
    ensures cause { let old = counts (T.faults tree.old) (O.faults out.old) in
        let new = counts (T.faults tree.new) (O.faults out.new) in
        HasCause result old new }
    ensures ran { let print = printed result (O.written out.old) (O.written out.new) in
        WroteNothing print ⊎ HasComparedAt root.now new.now old.now (T.files tree.old) print }
    ensures calls { CallsAtMost (calls_of root.now)
        (T.files tree.old) (T.calls tree.old) (T.calls tree.new) }
{
    let names = match load(alloc, tree, root) {
        Ok(names) => names,
        Err(status) => return status,
    };
    compat(alloc, &names, new, old, out)
}
