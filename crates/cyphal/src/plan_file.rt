//! The file of a plan, read in the namespace of a root.
ghost use Rattle.std.specs.Prelude.{◌≡◌, ◌≤◌, ◌+◌, ◌⊎◌, ℕ, true, false, IfOk, IfErr, Some};
ghost use Rattle.cy_outside.specs.Files.{ReadsFront, front_length, reads_of};
ghost use Rattle.dsdl_types.specs.Definitions.{IsNamespace};
ghost use Rattle.dsdl_types.specs.declared.namespace.Namespace.{Namespace as Names};
ghost use Rattle.node_plan.specs.IsPlan.{IsPlan};
ghost use Rattle.node_plan.specs.declared.plan.PlanWhy.{PlanWhy as Why};
ghost use Rattle.node_run.specs.Loaded.{HasLoadCause, IsLoaded, calls_of};
ghost use Rattle.cyphal.specs.Job.{is_fault, is_settled, CallsAtMost};
ghost use Rattle.cyphal.specs.MayEnd.{of_plan};
ghost use Rattle.cyphal.specs.Plans.{EndsAt, EndsIn, without_plan, plan_calls, GivesPlan, PlanAt};

use cy_bits::{Bytes, Text};
use cy_outside::{Tree, TreeError, read_file};
use dsdl_types::Namespace;
use node_plan::{MAX_TEXT, Plan, PlanError, read_plan};
use node_run::{Status, load};
use std::alloc::Global;

/// How much is read of a plan's file: more bytes than a plan has.
pub const MOST: usize = MAX_TEXT + 1;

/// The plan at a path, read in the namespace of a root, or how a command ends for want of it. The
/// root comes first: where it has no namespace, nothing of the plan is read.
pub fn plan_at<T: Tree>(alloc: Global, root: &str, path: &str, tree: &mut T) -> Result<Plan, Status>
    ensures files { T.files tree.new ≡ T.files tree.old }
    ensures plan { IfOk result (PlanAt root.now path.now (T.files tree.old)) }
    ensures sound { IfOk result IsPlan }
    ensures cause { HasLoadCause (T.faults tree.old) (T.faults tree.new) result }
    ensures answer { IfErr result (λ stat. is_fault stat ≡ false
        → EndsAt without_plan root.now path.now (T.files tree.old) stat) }
    ensures among { IfErr result (λ stat. of_plan stat ≡ true) }
    ensures usage { IfErr result (λ stat. ¬ (stat ≡ Status.Usage)) }
    ensures write { IfErr result (λ stat. ¬ (stat ≡ Status.WriteFault)) }
    ensures early { IfErr result (λ stat. is_settled stat ≡ false) }
    ensures calls { CallsAtMost (plan_calls root.now path.now)
        (T.files tree.old) (T.calls tree.old) (T.calls tree.new) }
    ensures first { ((names : Names) → IsLoaded root.now (T.files tree.old) names → ⊥)
        → CallsAtMost (calls_of root.now) (T.files tree.old) (T.calls tree.old) (T.calls tree.new) }
{
    let names = match load(alloc, tree, root) {
        Ok(names) => names,
        Err(status) => return Err(status),
    };
    plan_in(alloc, &names, path, tree)
}

/// The plan at a path, read in a namespace.
fn plan_in<T: Tree>(
    alloc: Global,
    names: &Namespace,
    path: &str,
    tree: &mut T,
) -> Result<Plan, Status>
    requires { IsNamespace names.now }
    ensures files { T.files tree.new ≡ T.files tree.old }
    ensures plan { IfOk result (GivesPlan names.now path.now (T.files tree.old)) }
    ensures sound { IfOk result IsPlan }
    ensures cause { HasLoadCause (T.faults tree.old) (T.faults tree.new) result }
    ensures answer { IfErr result (λ stat. is_fault stat ≡ false
        → EndsIn without_plan names.now path.now (T.files tree.old) stat) }
    ensures among { IfErr result (λ stat. of_plan stat ≡ true) }
    ensures usage { IfErr result (λ stat. ¬ (stat ≡ Status.Usage)) }
    ensures write { IfErr result (λ stat. ¬ (stat ≡ Status.WriteFault)) }
    ensures early { IfErr result (λ stat. is_settled stat ≡ false) }
    ensures calls { T.calls tree.new
        ≤ T.calls tree.old + reads_of (front_length (T.files tree.old) path.now MOST) }
{
    let text = match text_at(alloc, path, tree) {
        Ok(text) => text,
        Err(status) => return Err(status),
    };
    match read_plan(alloc, text.as_slice(), names) {
        Ok(plan) => Ok(plan),
        Err(error) => Err(plan_refused(error)),
    }
}

/// As much of the file at a path as decides which plan it is.
pub fn text_at<T: Tree>(alloc: Global, path: &str, tree: &mut T) -> Result<Bytes, Status>
    ensures files { T.files tree.new ≡ T.files tree.old }
    ensures text { IfOk result (λ text.
        ReadsFront (T.files tree.old) path.now MOST (Some text)) }
    ensures cause { HasLoadCause (T.faults tree.old) (T.faults tree.new) result }
    ensures answer { (names : Names) → IfErr result (λ stat. is_fault stat ≡ false
        → EndsIn without_plan names path.now (T.files tree.old) stat) }
    ensures among { IfErr result (λ stat. of_plan stat ≡ true) }
    ensures usage { IfErr result (λ stat. ¬ (stat ≡ Status.Usage)) }
    ensures write { IfErr result (λ stat. ¬ (stat ≡ Status.WriteFault)) }
    ensures early { IfErr result (λ stat. is_settled stat ≡ false) }
    ensures calls { T.calls tree.new
        ≤ T.calls tree.old + reads_of (front_length (T.files tree.old) path.now MOST) }
{
    match read_file(alloc, tree, path, MOST) {
        Ok(Some(text)) => Ok(text),
        Ok(None) => Err(no_file(alloc, path)),
        Err(TreeError::Failed) => Err(Status::ReadFault),
        Err(TreeError::NoMemory) => Err(Status::NoMemory),
    }
}

/// The status of a path that has no file.
fn no_file(alloc: Global, path: &str) -> Status
    ensures { (result ≡ Status.NoFile path.now) ⊎ (result ≡ Status.NoMemory) }
{
    match Text::from_str(alloc, path) {
        Ok(path) => Status::NoFile { path },
        Err(_) => Status::NoMemory,
    }
}

/// The status of a plan that is refused.
pub fn plan_refused(error: PlanError) -> Status
    ensures no_memory { error ≡ PlanError.NoMemory → result ≡ Status.NoMemory }
    ensures refused { (n : ℕ) (why : Why) → error ≡ PlanError.Refused n why
        → result ≡ Status.Plan n why }
    ensures among { of_plan result ≡ true }
    ensures read { ¬ (result ≡ Status.ReadFault) }
{
    match error {
        PlanError::Refused { n, why } => Status::Plan { line: n, why },
        PlanError::NoMemory => Status::NoMemory,
    }
}
