//! The whole program, over any outside.
ghost use Rattle.std.specs.Prelude.{◌≡◌, ◌⊎◌, None, IfSome, IsSome, false, true, map, string_bytes};
ghost use Rattle.cy_outside.specs.Outside.{Rose};
ghost use Rattle.node_run.specs.declared.status.Status.TheVariants as status;
ghost use Rattle.cyphal.specs.Answered.{left_by, stream, HasEnded, HasSaid};
ghost use Rattle.cyphal.specs.Cause.{outside, is_refusal};
ghost use Rattle.cyphal.specs.Expected.{job_for};
ghost use Rattle.cyphal.specs.Help.{own_answer, HasAnswered, HasOwnCause};
ghost use Rattle.cyphal.specs.Job.{told_by, CallsAtMost};

use crate::code_of;
use crate::error_line::put_error;
use crate::help::own_answer;
use crate::run_words::run_words;
use cy_outside::{Sink, Source, Tree, put_all};
use node_core::NoLines;
use node_run::Status;
use std::alloc::Global;

/// Answers on `out` what is asked of the program itself, and does everything else that the words
/// ask for. It keeps no line of its report. It gives the number with which the program ends.
pub fn program<T: Tree, L: Source, O: Sink, E: Sink>(
    alloc: Global,
    words: &[String],
    tree: &mut T,
    input: &mut L,
    out: &mut O,
    err: &mut E,
) -> u8
    ensures own { IfSome (own_answer (map string_bytes words.now)) (λ text.
        HasAnswered text result (O.written out.old) (O.written out.new)) }
    ensures own_cause { IsSome (own_answer (map string_bytes words.now))
        → HasOwnCause result input.old input.new (O.faults out.old) (O.faults out.new) }
    // Of a write fault one line is written to `err`, as of every command.
    ensures own_said { let old = stream (E.faults err.old) (E.written err.old) in
        let new = stream (E.faults err.new) (E.written err.new) in
        IsSome (own_answer (map string_bytes words.now)) → result ≡ 9
        → HasSaid status.WriteFault old new }
    ensures quiet { result ≡ 0 → err.new ≡ err.old }
    ensures untouched { (job_for (map string_bytes words.now)).calls_tree ≡ false
        → tree.new ≡ tree.old }
    ensures ended { let words = map string_bytes words.now in
        let told = told_by (T.files tree.old) (L.left input.old) (O.written out.old) in
        let left = left_by (L.left input.new) (O.written out.new)
        (T.calls tree.old) (T.calls tree.new) in
        let old = outside (T.faults tree.old) (L.faults input.old) (O.faults out.old) input.old in
        let new = outside (T.faults tree.new) (L.faults input.new) (O.faults out.new) input.new in
        let err_old = stream (E.faults err.old) (E.written err.old) in
        let err_new = stream (E.faults err.new) (E.written err.new) in
        own_answer words ≡ None → HasEnded words told result left old new err_old err_new }
    // A command that serves no files, or that is refused, calls the tree no more often than it
    // needs.
    ensures called { let job = job_for (map string_bytes words.now) in
        (job.serves ≡ false) ⊎ (is_refusal result ≡ true)
        → CallsAtMost job.needs (T.files tree.old) (T.calls tree.old) (T.calls tree.new) }
    // A read fault of the tree is one of a call that the command needs.
    ensures needed { let needs = (job_for (map string_bytes words.now)).needs in
        result ≡ 8 → ¬ Rose (L.faults input.old) (L.faults input.new)
        → CallsAtMost needs (T.files tree.old) (T.calls tree.old) (T.calls tree.new) }
{
    if let Some(text) = own_answer(words) {
        return tell(out, err, text);
    }
    let done = run_words(alloc, words, tree, input, out, err, &mut NoLines);
    code_of(&done.status)
}

/// Answers a text of the program's own, and says where that can't be written. It gives the number
/// with which the program ends.
fn tell<O: Sink, E: Sink>(out: &mut O, err: &mut E, text: &str) -> u8
    ensures answered { HasAnswered text.now result (O.written out.old) (O.written out.new) }
    ensures fault { result ≡ 9 → Rose (O.faults out.old) (O.faults out.new) }
    ensures kept { result ≡ 0 → O.faults out.new ≡ O.faults out.old }
    ensures said { result ≡ 9 → HasSaid status.WriteFault
        (stream (E.faults err.old) (E.written err.old))
        (stream (E.faults err.new) (E.written err.new)) }
    ensures quiet { result ≡ 0 → err.new ≡ err.old }
{
    match put_all(out, text.as_bytes()) {
        Ok(()) => code_of(&Status::Ok),
        Err(_) => {
            let _ = put_error(err, &Status::WriteFault);
            code_of(&Status::WriteFault)
        }
    }
}
