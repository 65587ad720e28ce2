//! What holds of definitions alone: the functions do nothing.
ghost use Rattle.cyphal.specs.Laws.{HeadlineLaws};
ghost use Rattle.cyphal.specs.Premises.{PremisesCanBeMet};
ghost use Rattle.cyphal.specs.TableRule.{TableDecides};

use delivery_theorems::{due_in_report, once_in_part, wire_explains_fields};
use dsdl_resolve::namespaces_keep_rules;
use frame_log::ordered;
use node_core::laws::{nothing_served, something_served, steps_follow};
use node_plan::laws::{plain_plans, plans_keep_type_rules};
use session_lines::laws::{due_values, emptying, reported, values};

/// The laws that the headline rests on.
pub fn headline_laws()
    ensures { HeadlineLaws }
{
    steps_follow();
    nothing_served();
    something_served();
    reported();
    emptying();
    wire_explains_fields();
    once_in_part();
    due_in_report();
    ordered();
    values();
    due_values();
    namespaces_keep_rules();
    plans_keep_type_rules();
}

/// The premises of once and due can be met.
pub fn premises_can_be_met()
    ensures { PremisesCanBeMet }
{
    plain_plans();
}

/// The table of the commands is the rule on words.
pub fn table_decides()
    ensures { TableDecides }
{}
