//! What the words ask for is done here, by the command that they are.
ghost use Rattle.std.specs.Prelude.{◌≡◌, ◌⊎◌, ◌↔◌, None, false, true, map, string_bytes};
ghost use Rattle.cy_outside.specs.Outside.{Rose};
ghost use Rattle.node_run.specs.Failures.{failures, tree_counts};
ghost use Rattle.node_run.specs.Ran.{reported};
ghost use Rattle.cyphal.specs.CarriedOut.{IsCarriedOut};
ghost use Rattle.cyphal.specs.Cause.{outside, is_refused};
ghost use Rattle.cyphal.specs.Expected.{job_for};
ghost use Rattle.cyphal.specs.Job.{outcome, told_by, CallsAtMost};
ghost use Rattle.cyphal.specs.Words.{command_of};

use crate::counted::Counted;
use crate::jobs::carry_out;
use crate::words::command_of;
use cy_outside::{Sink, Source, Tree};
use node_core::LineSink;
use node_run::Status;
use std::alloc::Global;

/// Does what the words ask for.
#[tactic(auto, using(crate::proofs::TreeCalls::no_calls))]
pub fn work<T: Tree, L: Source, O: Sink, K: LineSink>(
    alloc: Global,
    words: &[String],
    tree: &mut T,
    input: &mut L,
    out: &mut O,
    lines: &mut K,
) -> Counted
    ensures usage { (result.status ≡ Status.Usage)
        ↔ (command_of (map string_bytes words.now) ≡ None) }
    ensures untouched { (job_for (map string_bytes words.now)).calls_tree ≡ false
        → tree.new ≡ tree.old }
    ensures done { let told = told_by (T.files tree.old) (L.left input.old) (O.written out.old) in
        let put = reported (K.lines lines.old) (K.lines lines.new) result.numbers in
        let before = tree_counts (T.faults tree.old) (T.calls tree.old) in
        let now = tree_counts (T.faults tree.new) (T.calls tree.new) in
        let failed = failures (K.failed lines.old) (K.failed lines.new) before now in
        let came = outcome result.status put failed (L.left input.new) (O.written out.new) in
        let old = outside (T.faults tree.old) (L.faults input.old) (O.faults out.old) input.old in
        let new = outside (T.faults tree.new) (L.faults input.new) (O.faults out.new) input.new in
        IsCarriedOut (job_for (map string_bytes words.now)) told came old new }
    ensures called { let job = job_for (map string_bytes words.now) in
        (job.serves ≡ false) ⊎ (is_refused result.status ≡ true)
        → CallsAtMost job.needs (T.files tree.old) (T.calls tree.old) (T.calls tree.new) }
    ensures needed { let needs = (job_for (map string_bytes words.now)).needs in
        result.status ≡ Status.ReadFault → ¬ Rose (L.faults input.old) (L.faults input.new)
        → CallsAtMost needs (T.files tree.old) (T.calls tree.old) (T.calls tree.new) }
{
    let command = match command_of(alloc, words) {
        Ok(Some(command)) => command,
        Ok(None) => return Counted::nothing(Status::Usage),
        Err(_) => return Counted::nothing(Status::NoMemory),
    };
    carry_out(alloc, command, tree, input, out, lines)
}
