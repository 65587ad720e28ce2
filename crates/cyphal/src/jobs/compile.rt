//! `compile ROOT`: the layouts of the types below a root.
ghost use Rattle.std.specs.Prelude.{◌≡◌, ◌⊎◌, false};
ghost use Rattle.node_run.specs.Loaded.{calls_of};
ghost use Rattle.cyphal.specs.Job.{is_fault, printed, WroteNothing, CallsAtMost};
ghost use Rattle.cyphal.specs.Cause.{counts, HasCause};
ghost use Rattle.cyphal.specs.jobs.Compile.{Compiles, HasCompiledAt};

use cy_outside::{Sink, Tree};
use node_run::{Status, compile, load};
use std::alloc::Global;
use std::mem;

/// Writes the layouts of the types below a root. The memory of the types isn't given back.
pub fn compile_root<T: Tree, O: Sink>(
    alloc: Global,
    root: &str,
    tree: &mut T,
    out: &mut O,
) -> Status
    ensures answer { is_fault result ≡ false → Compiles root.now (T.files tree.old) result }
    ensures cause { let old = counts (T.faults tree.old) (O.faults out.old) in
        let new = counts (T.faults tree.new) (O.faults out.new) in
        HasCause result old new }
    ensures ran { let print = printed result (O.written out.old) (O.written out.new) in
        WroteNothing print ⊎ HasCompiledAt root.now (T.files tree.old) print }
    ensures calls { CallsAtMost (calls_of root.now)
        (T.files tree.old) (T.calls tree.old) (T.calls tree.new) }
{
    let names = match load(alloc, tree, root) {
        Ok(names) => names,
        Err(status) => return status,
    };
    let status = compile(alloc, &names, out);
    // The program ends behind this, and the system takes its memory back at once.
    mem::forget(names);
    status
}
