//! `bound ROOT PLAN`: the memory bound of a plan.
ghost use Rattle.std.specs.Prelude.{◌≡◌, ◌⊎◌, ◌||◌, true, false};
ghost use Rattle.cyphal.specs.Job.{is_fault, printed, WroteNothing, CallsAtMost};
ghost use Rattle.cyphal.specs.Cause.{counts, HasCause};
ghost use Rattle.cyphal.specs.MayEnd.{of_plan, of_text};
ghost use Rattle.cyphal.specs.Plans.{EndsAt, plan_calls};
ghost use Rattle.cyphal.specs.jobs.Bound.{bounded, HasBoundAt};

use crate::plan_file::plan_at;
use cy_outside::{Sink, Tree};
use node_run::{Status, bound};
use std::alloc::Global;

/// Writes the memory bound of the plan at a path, which is read in the namespace of a root.
pub fn bound_plan<T: Tree, O: Sink>(
    alloc: Global,
    root: &str,
    path: &str,
    tree: &mut T,
    out: &mut O,
) -> Status
    ensures answer { is_fault result ≡ false
        → EndsAt bounded root.now path.now (T.files tree.old) result }
    ensures among { (of_plan result || of_text result) ≡ true }
    ensures cause { let old = counts (T.faults tree.old) (O.faults out.old) in
        let new = counts (T.faults tree.new) (O.faults out.new) in
        HasCause result old new }
    ensures ran { let print = printed result (O.written out.old) (O.written out.new) in
        WroteNothing print ⊎ HasBoundAt root.now path.now (T.files tree.old) print }
    ensures calls { CallsAtMost (plan_calls root.now path.now)
        (T.files tree.old) (T.calls tree.old) (T.calls tree.new) }
{
    let plan = match plan_at(alloc, root, path, tree) {
        Ok(plan) => plan,
        Err(status) => return status,
    };
    bound(alloc, &plan, out)
}
