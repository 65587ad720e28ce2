//! The commands: a file does what each asks for, or what those do that differ in what they are
//! given.
ghost use Rattle.std.specs.Prelude.{◌≡◌, ◌⊎◌, false, true};
ghost use Rattle.cy_outside.specs.Outside.{Rose};
ghost use Rattle.node_run.specs.Failures.{failures, tree_counts};
ghost use Rattle.node_run.specs.Ran.{reported};
ghost use Rattle.cyphal.specs.CarriedOut.{IsCarriedOut};
ghost use Rattle.cyphal.specs.Cause.{outside, is_refused};
ghost use Rattle.cyphal.specs.Job.{outcome, told_by, CallsAtMost};
ghost use Rattle.cyphal.specs.Words.{asked_by};
ghost use Rattle.cyphal.specs.jobs.{job_of};

pub mod bound;
pub mod changes;
pub mod compat;
pub mod compile;
pub mod explain;
pub mod fetch;
pub mod generated;
pub mod migrate;
pub mod nodes;
pub mod ordered;
pub mod reach;
pub mod run;
pub mod survey;
pub mod values;
pub mod verdicts;
pub mod versions;

use crate::counted::Counted;
use crate::words::Accepted;
use bound::bound_plan;
use changes::tell_changes;
use compat::compat_types;
use compile::compile_root;
use cy_outside::{Sink, Source, Tree};
use explain::explain_plan;
use fetch::fetch_file;
use generated::generated;
use migrate::migrate_plan;
use node_core::LineSink;
use node_run::Status;
use nodes::watch_nodes;
use ordered::order_lines;
use reach::{Hearing, hear_log};
use run::run_plan;
use std::alloc::Global;
use survey::survey_buses;
use values::{Direction, answer_lines};
use versions::compare_versions;

/// Does what a command asks for.
pub fn carry_out<T: Tree, L: Source, O: Sink, K: LineSink>(
    alloc: Global,
    given: Accepted<'_>,
    tree: &mut T,
    input: &mut L,
    out: &mut O,
    lines: &mut K,
) -> Counted
    ensures usage { ¬ (result.status ≡ Status.Usage) }
    ensures untouched { (job_of (asked_by given.entry)).calls_tree ≡ false → tree.new ≡ tree.old }
    ensures done { let told = told_by (T.files tree.old) (L.left input.old) (O.written out.old) in
        let put = reported (K.lines lines.old) (K.lines lines.new) result.numbers in
        let before = tree_counts (T.faults tree.old) (T.calls tree.old) in
        let now = tree_counts (T.faults tree.new) (T.calls tree.new) in
        let failed = failures (K.failed lines.old) (K.failed lines.new) before now in
        let came = outcome result.status put failed (L.left input.new) (O.written out.new) in
        let old = outside (T.faults tree.old) (L.faults input.old) (O.faults out.old) input.old in
        let new = outside (T.faults tree.new) (L.faults input.new) (O.faults out.new) input.new in
        IsCarriedOut (job_of (asked_by given.entry)) told came old new }
    ensures called { let job = job_of (asked_by given.entry) in
        (job.serves ≡ false) ⊎ (is_refused result.status ≡ true)
        → CallsAtMost job.needs (T.files tree.old) (T.calls tree.old) (T.calls tree.new) }
    ensures needed { let needs = (job_of (asked_by given.entry)).needs in
        result.status ≡ Status.ReadFault → ¬ Rose (L.faults input.old) (L.faults input.new)
        → CallsAtMost needs (T.files tree.old) (T.calls tree.old) (T.calls tree.new) }
{
    match given {
        Accepted::Compile { root } => Counted::nothing(compile_root(alloc, root, tree, out)),
        Accepted::Compat { root, new, old } => {
            Counted::nothing(compat_types(alloc, root, new, old, tree, out))
        }
        Accepted::Versions { root } => {
            Counted::nothing(compare_versions(alloc, root, tree, out))
        }
        Accepted::Changes { old, new } => {
            Counted::nothing(tell_changes(alloc, old, new, tree, out))
        }
        Accepted::Encode { root, name } => {
            Counted::nothing(answer_lines(alloc, Direction::Encode, root, name, tree, input, out))
        }
        Accepted::Decode { root, name } => {
            Counted::nothing(answer_lines(alloc, Direction::Decode, root, name, tree, input, out))
        }
        Accepted::Run { form, root, plan } => {
            run_plan(alloc, form, root, plan, tree, input, out, lines)
        }
        Accepted::Explain { root, plan } => {
            Counted::nothing(explain_plan(alloc, root, plan, tree, input, out))
        }
        Accepted::Bound { root, plan } => {
            Counted::nothing(bound_plan(alloc, root, plan, tree, out))
        }
        Accepted::Migrate { root, plan } => {
            Counted::nothing(migrate_plan(alloc, root, plan, tree, out))
        }
        Accepted::Gen { number } => Counted::nothing(generated(alloc, number, out)),
        Accepted::Monitor { own } => {
            Counted::nothing(hear_log(alloc, Hearing::Monitor, own, input, out))
        }
        Accepted::Allocate { own } => {
            Counted::nothing(hear_log(alloc, Hearing::Allocate, own, input, out))
        }
        Accepted::Fetch { file } => Counted::nothing(fetch_file(alloc, file, input, out)),
        Accepted::Order { window } => Counted::nothing(order_lines(alloc, window, input, out)),
        Accepted::Survey { buses } => Counted::nothing(survey_buses(alloc, buses, input, out)),
        Accepted::Nodes { buses } => Counted::nothing(watch_nodes(alloc, buses, input, out)),
    }
}
