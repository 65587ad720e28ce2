//! `run ROOT PLAN` and `json ROOT PLAN`: a plan over the log of the input.
ghost use Rattle.std.specs.Prelude.{◌≡◌, true};
ghost use Rattle.cy_outside.specs.Outside.{Rose};
ghost use Rattle.node_run.specs.Failures.{failures, tree_counts};
ghost use Rattle.node_run.specs.Ran.{reported};
ghost use Rattle.cyphal.specs.CarriedOut.{IsCarriedOut};
ghost use Rattle.cyphal.specs.Cause.{outside, is_refused};
ghost use Rattle.cyphal.specs.Job.{outcome, told_by, CallsAtMost};
ghost use Rattle.cyphal.specs.Plans.{plan_calls};
ghost use Rattle.cyphal.specs.jobs.Run.{run_job};

use crate::counted::{Counted, no_numbers};
use crate::plan_file::plan_at;
use cy_outside::{Sink, Source, Tree};
use node_core::LineSink;
use node_run::{Form, Status, run_in};
use std::alloc::Global;

/// Runs the plan at a path, which is read in the namespace of a root, over the input, and serves
/// the files of the tree. The report is written in a form, and a sink takes its lines.
pub fn run_plan<T: Tree, L: Source, O: Sink, K: LineSink>(
    alloc: Global,
    form: Form,
    root: &str,
    path: &str,
    tree: &mut T,
    input: &mut L,
    out: &mut O,
    lines: &mut K,
) -> Counted
    ensures usage { ¬ (result.status ≡ Status.Usage) }
    ensures done { let told = told_by (T.files tree.old) (L.left input.old) (O.written out.old) in
        let put = reported (K.lines lines.old) (K.lines lines.new) result.numbers in
        let before = tree_counts (T.faults tree.old) (T.calls tree.old) in
        let now = tree_counts (T.faults tree.new) (T.calls tree.new) in
        let failed = failures (K.failed lines.old) (K.failed lines.new) before now in
        let came = outcome result.status put failed (L.left input.new) (O.written out.new) in
        let old = outside (T.faults tree.old) (L.faults input.old) (O.faults out.old) input.old in
        let new = outside (T.faults tree.new) (L.faults input.new) (O.faults out.new) input.new in
        IsCarriedOut (run_job form root.now path.now) told came old new }
    ensures refused { is_refused result.status ≡ true → CallsAtMost (plan_calls root.now path.now)
        (T.files tree.old) (T.calls tree.old) (T.calls tree.new) }
    ensures needed { let needs = plan_calls root.now path.now in
        result.status ≡ Status.ReadFault → ¬ Rose (L.faults input.old) (L.faults input.new)
        → CallsAtMost needs (T.files tree.old) (T.calls tree.old) (T.calls tree.new) }
{
    let plan = match plan_at(alloc, root, path, tree) {
        Ok(plan) => plan,
        Err(status) => return Counted::nothing(status),
    };
    let mut numbers = no_numbers();
    let status = run_in(alloc, form, plan, tree, input, out, lines, &mut numbers);
    Counted { status, numbers }
}
