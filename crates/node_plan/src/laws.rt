//! Laws of plans, each the contract of a call that does nothing.
ghost use Rattle.node_plan.specs.Laws.{FrontDecides, PlansAreShort};
ghost use Rattle.node_plan.specs.Laws.{OnePlan, PlainPlans, PlansKeepTypeRules, PortsDiffer, PortsFit};

/// A text says one plan, or is refused at one line for one cause.
pub fn one_plan()
    ensures { OnePlan }
{}

/// The plan that is worked out of a text without registers is the text's.
pub fn plain_plans()
    ensures { PlainPlans }
{}

/// The types of a plan's subscriptions keep the rules, where those of the namespace do.
pub fn plans_keep_type_rules()
    ensures { PlansKeepTypeRules }
{}

/// The ports of a plan are in their ranges, and no two of them have the kind and the number of each
/// other.
pub fn ports_are_fit()
    ensures fit { PortsFit }
    ensures differ { PortsDiffer }
{}

/// As many first bytes of a text as a text may have, and one more, decide which plan it is; a plan's
/// text has no more than it may have.
pub fn front_decides()
    ensures front { FrontDecides }
    ensures short { PlansAreShort }
{}
