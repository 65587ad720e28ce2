//! The general call: lines go to a sink of lines.
ghost use Rattle.std.specs.Prelude.{◌≡◌, ◌⊎◌, false, true, map, string_bytes};
ghost use Rattle.cy_outside.specs.Outside.{Rose};
ghost use Rattle.node_run.specs.Failures.{failures, tree_counts};
ghost use Rattle.node_run.specs.Ran.{reported};
ghost use Rattle.node_run.specs.declared.status.Status.TheVariants as status;
ghost use Rattle.cyphal.specs.Answered.{stream, HasSaid, IsAnswered};
ghost use Rattle.cyphal.specs.Cause.{outside, is_refused};
ghost use Rattle.cyphal.specs.Expected.{job_for};
ghost use Rattle.cyphal.specs.Job.{outcome, told_by, CallsAtMost};

use crate::counted::Counted;
use crate::error_line::put_error;
use crate::law::headline_laws;
use crate::work::work;
use cy_outside::{Sink, Source, Tree};
use dsdl_resolve::one_answer;
use node_core::LineSink;
use node_plan::laws::one_plan;
use node_run::values::laws::one_status;
use std::alloc::Global;

/// Does what the words ask for. What is due is written to `out`, the lines of a report are put to
/// `lines` as well, and of each status but `Ok` one line is written to `err`.
pub fn run_words<T: Tree, L: Source, O: Sink, E: Sink, K: LineSink>(
    alloc: Global,
    words: &[String],
    tree: &mut T,
    input: &mut L,
    out: &mut O,
    err: &mut E,
    lines: &mut K,
) -> Counted
    ensures answered { let words = map string_bytes words.now in
        let told = told_by (T.files tree.old) (L.left input.old) (O.written out.old) in
        let put = reported (K.lines lines.old) (K.lines lines.new) result.numbers in
        let before = tree_counts (T.faults tree.old) (T.calls tree.old) in
        let now = tree_counts (T.faults tree.new) (T.calls tree.new) in
        let failed = failures (K.failed lines.old) (K.failed lines.new) before now in
        let came = outcome result.status put failed (L.left input.new) (O.written out.new) in
        let old = outside (T.faults tree.old) (L.faults input.old) (O.faults out.old) input.old in
        let new = outside (T.faults tree.new) (L.faults input.new) (O.faults out.new) input.new in
        IsAnswered words told came old new }
    // A command that needs no file leaves the tree as it is.
    ensures untouched { (job_for (map string_bytes words.now)).calls_tree ≡ false
        → tree.new ≡ tree.old }
    ensures said { let old = stream (E.faults err.old) (E.written err.old) in
        HasSaid result.status old (stream (E.faults err.new) (E.written err.new)) }
    ensures quiet { result.status ≡ status.Ok → err.new ≡ err.old }
    // A command that serves no files, or whose words, plan or root are refused, calls the tree no
    // more often than it needs.
    ensures called { let job = job_for (map string_bytes words.now) in
        (job.serves ≡ false) ⊎ (is_refused result.status ≡ true)
        → CallsAtMost job.needs (T.files tree.old) (T.calls tree.old) (T.calls tree.new) }
    // A read fault of the tree is one of a call that the command needs.
    ensures needed { let needs = (job_for (map string_bytes words.now)).needs in
        result.status ≡ status.ReadFault → ¬ Rose (L.faults input.old) (L.faults input.new)
        → CallsAtMost needs (T.files tree.old) (T.calls tree.old) (T.calls tree.new) }
{
    headline_laws();
    one_answer();
    one_plan();
    one_status();
    let done = work(alloc, words, tree, input, out, lines);
    let _ = put_error(err, &done.status);
    done
}
