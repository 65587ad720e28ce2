//! `changes OLD NEW`: what an edit of a folder does to those who have its types.
ghost use Rattle.std.specs.Prelude.{◌≡◌, ◌≢◌, ◌⊎◌, false};
ghost use Rattle.cy_outside.specs.Outside.{Rose};
ghost use Rattle.type_changes.specs.Lines.{AreChanges};
ghost use Rattle.cyphal.specs.Job.{is_fault, printed, WroteNothing, CallsAtMost};
ghost use Rattle.cyphal.specs.Cause.{counts, HasCause};
ghost use Rattle.cyphal.specs.Verdicts.{HasTold};
ghost use Rattle.cyphal.specs.jobs.Changes.{ChangesEnd, TellsChanges, HasChangesAt, calls_of_both};

use crate::jobs::verdicts::write_verdicts;
use cy_outside::{Sink, Tree};
use dsdl_types::Namespace;
use node_run::{Status, load};
use std::alloc::Global;
use type_changes::{Changes, changes_of};

/// Writes what became of the types of an old folder in a new one. The old one is compiled before
/// the new one is listed.
pub fn tell_changes<T: Tree, O: Sink>(
    alloc: Global,
    old: &str,
    new: &str,
    tree: &mut T,
    out: &mut O,
) -> Status
    ensures answer { is_fault result ≡ false
        → TellsChanges old.now new.now (T.files tree.old) result }
    ensures cause { let before = counts (T.faults tree.old) (O.faults out.old) in
        let after = counts (T.faults tree.new) (O.faults out.new) in
        HasCause result before after }
    ensures ran { let print = printed result (O.written out.old) (O.written out.new) in
        WroteNothing print ⊎ HasChangesAt old.now new.now (T.files tree.old) print }
    ensures calls { CallsAtMost (calls_of_both old.now new.now)
        (T.files tree.old) (T.calls tree.old) (T.calls tree.new) }
{
    let olds = match load(alloc, tree, old) {
        Ok(olds) => olds,
        Err(status) => return status,
    };
    let news = match load(alloc, tree, new) {
        Ok(news) => news,
        Err(status) => return status,
    };
    write_changes(alloc, &olds, &news, out)
}

/// Writes a line for each message and each half of a service of two namespaces. Where memory is
/// wanting, nothing is written.
fn write_changes<O: Sink>(alloc: Global, olds: &Namespace, news: &Namespace, out: &mut O) -> Status
    ensures written { HasTold (AreChanges olds.now news.now) result
        (O.written out.old) (O.written out.new) }
    ensures ends { is_fault result ≡ false → ChangesEnd olds.now news.now result }
    ensures write { result ≡ Status.WriteFault → Rose (O.faults out.old) (O.faults out.new) }
    ensures unwritten { result ≢ Status.WriteFault → O.faults out.new ≡ O.faults out.old }
{
    let Ok(Changes { lines, first }) = changes_of(alloc, olds, news) else {
        return Status::NoMemory;
    };
    write_verdicts(lines.as_slice(), first, out)
}
