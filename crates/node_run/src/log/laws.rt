//! Laws of runs, each the contract of a call that does nothing.
ghost use Rattle.node_run.specs.FailedLines.{FailedAreNamed};
ghost use Rattle.node_run.specs.Generated.{GeneratedPlanIsRead};

use frame_log::ordered;
use node_plan::laws::plain_plans;

/// What a run names are lines of its log on which requests of files ended in which the tree failed,
/// in rising order, and no more of them than the tree's count of faults rose by, unless that stands
/// at its end.
pub fn failed_are_named()
    ensures { FailedAreNamed }
{
    ordered();
}

/// The plan of the logs that are made of numbers is what its text reads as, whatever types there
/// are.
pub fn generated_plan_is_read()
    ensures { GeneratedPlanIsRead }
{
    plain_plans();
}
