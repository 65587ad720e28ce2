//! The top call: the report keeps its lines.
ghost use Rattle.std.specs.Prelude.{◌≡◌, ◌⊎◌, false, true, map, string_bytes};
ghost use Rattle.cy_outside.specs.Outside.{Rose};
ghost use Rattle.node_run.specs.Failures.{tree_counts};
ghost use Rattle.node_run.specs.Ran.{numbers_of, of_failed, of_report};
ghost use Rattle.cyphal.specs.Answered.{stream, HasSaid, IsAnswered, IsReported};
ghost use Rattle.cyphal.specs.Cause.{outside, is_refused};
ghost use Rattle.cyphal.specs.Expected.{job_for};
ghost use Rattle.cyphal.specs.Job.{outcome, told_by, CallsAtMost};

use crate::run_words::run_words;
use cy_outside::{Sink, Source, Tree};
use node_core::{KeptLines, Numbers};
use node_run::{Report, Status};
use std::alloc::Global;

/// What a command came to.
#[derive(Drop)]
pub struct Done {
    /// How it ended.
    pub status: Status,
    /// What was reported of a run.
    pub report: Report,
}

/// Does what the words ask for. What is due is written to `out`, and of each status but `Ok` one
/// line to `err`.
pub fn top<T: Tree, L: Source, O: Sink, E: Sink>(
    alloc: Global,
    words: &[String],
    tree: &mut T,
    input: &mut L,
    out: &mut O,
    err: &mut E,
) -> Done
    ensures answered { let words = map string_bytes words.now in
        let told = told_by (T.files tree.old) (L.left input.old) (O.written out.old) in
        let put = of_report result.report in
        let before = tree_counts (T.faults tree.old) (T.calls tree.old) in
        let now = tree_counts (T.faults tree.new) (T.calls tree.new) in
        let failed = of_failed result.report before now in
        let came = outcome result.status put failed (L.left input.new) (O.written out.new) in
        let old = outside (T.faults tree.old) (L.faults input.old) (O.faults out.old) input.old in
        let new = outside (T.faults tree.new) (L.faults input.new) (O.faults out.new) input.new in
        IsAnswered words told came old new }
    ensures reported { let words = map string_bytes words.now in
        let told = told_by (T.files tree.old) (L.left input.old) (O.written out.old) in
        let old = outside (T.faults tree.old) (L.faults input.old) (O.faults out.old) input.old in
        let new = outside (T.faults tree.new) (L.faults input.new) (O.faults out.new) input.new in
        IsReported words told result old new }
    // A command that needs no file leaves the tree as it is.
    ensures untouched { (job_for (map string_bytes words.now)).calls_tree ≡ false
        → tree.new ≡ tree.old }
    ensures said { let old = stream (E.faults err.old) (E.written err.old) in
        HasSaid result.status old (stream (E.faults err.new) (E.written err.new)) }
    ensures quiet { result.status ≡ Status.Ok → err.new ≡ err.old }
    // A command that serves no files, or whose words, plan or root are refused, calls the tree no
    // more often than it needs.
    ensures called { let job = job_for (map string_bytes words.now) in
        (job.serves ≡ false) ⊎ (is_refused result.status ≡ true)
        → CallsAtMost job.needs (T.files tree.old) (T.calls tree.old) (T.calls tree.new) }
    // A read fault of the tree is one of a call that the command needs.
    ensures needed { let needs = (job_for (map string_bytes words.now)).needs in
        result.status ≡ Status.ReadFault → ¬ Rose (L.faults input.old) (L.faults input.new)
        → CallsAtMost needs (T.files tree.old) (T.calls tree.old) (T.calls tree.new) }
{
    let mut kept = KeptLines::new(alloc);
    let done = run_words(alloc, words, tree, input, out, err, &mut kept);
    let report = report_of(alloc, kept, &done.numbers);
    Done {
        status: done.status,
        report,
    }
}

/// The report of the lines that were kept, and these numbers.
fn report_of(alloc: Global, kept: KeptLines, numbers: &Numbers) -> Report
    ensures lines { result.lines ≡ kept.lines }
    ensures failed { result.failed ≡ kept.failed }
    ensures numbers { numbers_of result ≡ numbers.now }
{
    let mut report = Report::empty(alloc);
    report.lines = kept.lines;
    report.failed = kept.failed;
    report.count(numbers);
    report
}
