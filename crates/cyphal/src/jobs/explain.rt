//! `explain ROOT PLAN`: what became of each frame of the log of the input, by a plan.
ghost use Rattle.std.specs.Prelude.{◌≡◌, ◌⊎◌, ◌||◌, true, false};
ghost use Rattle.node_run.specs.ValueLines.{flow};
ghost use Rattle.cyphal.specs.Cause.{outside, HasCauseOver};
ghost use Rattle.cyphal.specs.Job.{is_fault, printed, TookNothing, CallsAtMost};
ghost use Rattle.cyphal.specs.MayEnd.{of_plan, of_log};
ghost use Rattle.cyphal.specs.Plans.{EndsAt, plan_calls};
ghost use Rattle.cyphal.specs.jobs.Explain.{explain_job, HasExplainedAt};
ghost use Rattle.cyphal.specs.jobs.Run.{over};

use crate::law::headline_laws;
use crate::plan_file::plan_at;
use cy_outside::{Sink, Source, Tree};
use log_explain::explain_log;
use log_explain::laws::as_run;
use node_run::{Status, status_of};
use std::alloc::Global;

/// Writes what became of each frame of the log of the input, by the plan at a path, which is read
/// in the namespace of a root, and how each session fared. It answers no request.
pub fn explain_plan<T: Tree, L: Source, O: Sink>(
    alloc: Global,
    root: &str,
    path: &str,
    tree: &mut T,
    input: &mut L,
    out: &mut O,
) -> Status
    ensures answer { is_fault result ≡ false
        → EndsAt (over (L.left input.old)) root.now path.now (T.files tree.old) result }
    ensures among { (of_plan result || of_log result) ≡ true }
    ensures usage { ¬ (result ≡ Status.Usage) }
    ensures cause { let job = explain_job root.now path.now in
        let old = outside (T.faults tree.old) (L.faults input.old) (O.faults out.old) input.old in
        let new = outside (T.faults tree.new) (L.faults input.new) (O.faults out.new) input.new in
        HasCauseOver job.takes_input job.serves result old new }
    ensures ran { let print = printed result (O.written out.old) (O.written out.new) in
        let old = outside (T.faults tree.old) (L.faults input.old) (O.faults out.old) input.old in
        let new = outside (T.faults tree.new) (L.faults input.new) (O.faults out.new) input.new in
        let told = flow (L.left input.old) (L.left input.new) print.before print.after in
        TookNothing print old new
        ⊎ HasExplainedAt root.now path.now (T.files tree.old) result told }
    ensures calls { CallsAtMost (plan_calls root.now path.now)
        (T.files tree.old) (T.calls tree.old) (T.calls tree.new) }
{
    let plan = match plan_at(alloc, root, path, tree) {
        Ok(plan) => plan,
        Err(status) => return status,
    };
    headline_laws();
    as_run();
    status_of(explain_log(alloc, plan, input, out))
}
