//! `migrate ROOT PLAN`: a plan's text in version 2.
ghost use Rattle.std.specs.Prelude.{◌≡◌, ◌⊎◌, ◌||◌, ◌≤◌, ◌+◌, true, false, IfErr, IfOk, OnOk};
ghost use Rattle.cy_outside.specs.Files.{front_length, reads_of};
ghost use Rattle.node_run.specs.Loaded.{HasLoadCause};
ghost use Rattle.dsdl_types.specs.Definitions.{IsNamespace};
ghost use Rattle.cyphal.specs.Job.{is_fault, is_settled, printed, WroteNothing, CallsAtMost};
ghost use Rattle.cyphal.specs.Cause.{counts, HasCause};
ghost use Rattle.cyphal.specs.MayEnd.{of_plan, of_text};
ghost use Rattle.cyphal.specs.Plans.{EndsAt, EndsIn, plan_calls, without_plan};
ghost use Rattle.cyphal.specs.jobs.Bound.{bounded};
ghost use Rattle.cyphal.specs.jobs.Migrate.{Becomes, BecomesAt, HasMigratedAt};

use crate::plan_file::{MOST, plan_refused, text_at};
use cy_bits::Bytes;
use cy_outside::{Sink, Tree, put_all};
use dsdl_types::Namespace;
use node_plan::laws::front_decides;
use node_plan::migrate;
use node_run::{Status, load};
use std::alloc::Global;

/// Writes what the plan at a path, which is read in the namespace of a root, is in version 2.
pub fn migrate_plan<T: Tree, O: Sink>(
    alloc: Global,
    root: &str,
    path: &str,
    tree: &mut T,
    out: &mut O,
) -> Status
    ensures answer { is_fault result ≡ false
        → EndsAt bounded root.now path.now (T.files tree.old) result }
    ensures among { (of_plan result || of_text result) ≡ true }
    ensures cause { let old = counts (T.faults tree.old) (O.faults out.old) in
        let new = counts (T.faults tree.new) (O.faults out.new) in
        HasCause result old new }
    ensures ran { let print = printed result (O.written out.old) (O.written out.new) in
        WroteNothing print ⊎ HasMigratedAt root.now path.now (T.files tree.old) print }
    ensures calls { CallsAtMost (plan_calls root.now path.now)
        (T.files tree.old) (T.calls tree.old) (T.calls tree.new) }
{
    let text = match migrated_at(alloc, root, path, tree) {
        Ok(text) => text,
        Err(status) => return status,
    };
    match put_all(out, text.as_slice()) {
        Ok(()) => Status::Ok,
        Err(_) => Status::WriteFault,
    }
}

/// What the plan at a path becomes, or how the command ends for want of a plan. The root comes
/// first, as in `plan_at`.
fn migrated_at<T: Tree>(
    alloc: Global,
    root: &str,
    path: &str,
    tree: &mut T,
) -> Result<Bytes, Status>
    ensures becomes { IfOk result (BecomesAt root.now path.now (T.files tree.old)) }
    ensures plan { OnOk result (EndsAt bounded root.now path.now (T.files tree.old) Status.Ok) }
    ensures cause { HasLoadCause (T.faults tree.old) (T.faults tree.new) result }
    ensures answer { IfErr result (λ stat. is_fault stat ≡ false
        → EndsAt without_plan root.now path.now (T.files tree.old) stat) }
    ensures among { IfErr result (λ stat. of_plan stat ≡ true) }
    ensures usage { IfErr result (λ stat. ¬ (stat ≡ Status.Usage)) }
    ensures write { IfErr result (λ stat. ¬ (stat ≡ Status.WriteFault)) }
    ensures early { IfErr result (λ stat. is_settled stat ≡ false) }
    ensures calls { CallsAtMost (plan_calls root.now path.now)
        (T.files tree.old) (T.calls tree.old) (T.calls tree.new) }
{
    let names = match load(alloc, tree, root) {
        Ok(names) => names,
        Err(status) => return Err(status),
    };
    migrated_in(alloc, &names, path, tree)
}

/// What the plan at a path becomes, read in a namespace.
fn migrated_in<T: Tree>(
    alloc: Global,
    names: &Namespace,
    path: &str,
    tree: &mut T,
) -> Result<Bytes, Status>
    requires { IsNamespace names.now }
    ensures becomes { IfOk result (Becomes names.now path.now (T.files tree.old)) }
    ensures cause { HasLoadCause (T.faults tree.old) (T.faults tree.new) result }
    ensures answer { IfErr result (λ stat. is_fault stat ≡ false
        → EndsIn without_plan names.now path.now (T.files tree.old) stat) }
    ensures among { IfErr result (λ stat. of_plan stat ≡ true) }
    ensures usage { IfErr result (λ stat. ¬ (stat ≡ Status.Usage)) }
    ensures write { IfErr result (λ stat. ¬ (stat ≡ Status.WriteFault)) }
    ensures early { IfErr result (λ stat. is_settled stat ≡ false) }
    ensures calls { T.calls tree.new
        ≤ T.calls tree.old + reads_of (front_length (T.files tree.old) path.now MOST) }
{
    let text = match text_at(alloc, path, tree) {
        Ok(text) => text,
        Err(status) => return Err(status),
    };
    front_decides();
    match migrate(alloc, text.as_slice(), names) {
        Ok(new) => Ok(new),
        Err(error) => Err(plan_refused(error)),
    }
}
