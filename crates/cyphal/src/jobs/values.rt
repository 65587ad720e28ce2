//! `encode ROOT TYPE` and `decode ROOT TYPE`: each line of the input answered as one of values of a
//! type.
ghost use Rattle.std.specs.Prelude.{◌≡◌, ◌≢◌, ◌⊎◌, ◌||◌, None, true, false};
ghost use Rattle.cy_outside.specs.Outside.{Rose};
ghost use Rattle.dsdl_types.specs.Definitions.{IsNamespace};
ghost use Rattle.node_run.specs.NamedTypes.{message_named};
ghost use Rattle.node_run.specs.ValueLines.{flow, AreStreamed, HasAnsweredLines};
ghost use Rattle.node_run.specs.Loaded.{calls_of};
ghost use Rattle.cyphal.specs.Job.{is_fault, printed, told_by, TookNothing, CallsAtMost};
ghost use Rattle.cyphal.specs.Cause.{outside, HasCauseOver};
ghost use Rattle.cyphal.specs.MayEnd.{of_root, of_values};
ghost use Rattle.cyphal.specs.jobs.Values.{answers_by, values_job, HasAnsweredAt};

use cy_outside::{Sink, Source, Tree};
use dsdl_types::Namespace;
use node_run::{Status, decode, encode, load};
use std::alloc::Global;

/// Which way the values of the lines go.
#[derive(Clone, Copy)]
pub enum Direction {
    /// From their texts to the hex of their bytes.
    Encode,
    /// From the hex of bytes to the texts of the values that they read as.
    Decode,
}

/// Answers each line of the input as one of values of a type of a root.
pub fn answer_lines<T: Tree, L: Source, O: Sink>(
    alloc: Global,
    direction: Direction,
    root: &str,
    name: &str,
    tree: &mut T,
    input: &mut L,
    out: &mut O,
) -> Status
    ensures answer { let told = told_by (T.files tree.old) (L.left input.old) (O.written out.old) in
        let job = values_job (answers_by direction) root.now name.now in
        is_fault result ≡ false → job.expects told result }
    ensures among { (of_root result || of_values result) ≡ true }
    ensures usage { ¬ (result ≡ Status.Usage) }
    ensures cause { let job = values_job (answers_by direction) root.now name.now in
        let old = outside (T.faults tree.old) (L.faults input.old) (O.faults out.old) input.old in
        let new = outside (T.faults tree.new) (L.faults input.new) (O.faults out.new) input.new in
        HasCauseOver job.takes_input job.serves result old new }
    ensures ran { let print = printed result (O.written out.old) (O.written out.new) in
        let old = outside (T.faults tree.old) (L.faults input.old) (O.faults out.old) input.old in
        let new = outside (T.faults tree.new) (L.faults input.new) (O.faults out.new) input.new in
        let told = flow (L.left input.old) (L.left input.new) print.before print.after in
        let answers = answers_by direction in
        TookNothing print old new
        ⊎ HasAnsweredAt answers root.now name.now (T.files tree.old) result told }
    ensures calls { CallsAtMost (calls_of root.now)
        (T.files tree.old) (T.calls tree.old) (T.calls tree.new) }
{
    let names = match load(alloc, tree, root) {
        Ok(names) => names,
        Err(status) => return status,
    };
    answer_in(alloc, direction, &names, name, input, out)
}

/// The same in a namespace.
fn answer_in<L: Source, O: Sink>(
    alloc: Global,
    direction: Direction,
    names: &Namespace,
    name: &str,
    input: &mut L,
    out: &mut O,
) -> Status
    requires { IsNamespace names.now }
    ensures did { let told = flow (L.left input.old) (L.left input.new)
        (O.written out.old) (O.written out.new) in
        let of_name = message_named names.now name.now in
        HasAnsweredLines (answers_by direction) of_name name.now result told }
    ensures streamed { let told = flow (L.left input.old) (L.left input.new)
        (O.written out.old) (O.written out.new) in
        AreStreamed (answers_by direction) (message_named names.now name.now) told }
    ensures untaken { message_named names.now name.now ≡ None → input.new ≡ input.old }
    ensures read { result ≡ Status.ReadFault → Rose (L.faults input.old) (L.faults input.new) }
    ensures write { result ≡ Status.WriteFault → Rose (O.faults out.old) (O.faults out.new) }
    ensures unread { result ≢ Status.ReadFault → L.faults input.new ≡ L.faults input.old }
    ensures unwritten { result ≢ Status.WriteFault → O.faults out.new ≡ O.faults out.old }
{
    match direction {
        Direction::Encode => encode(alloc, names, name, input, out),
        Direction::Decode => decode(alloc, names, name, input, out),
    }
}
