//! Laws of the definitions, each the contract of a call that does nothing.

ghost use Rattle.pnp_alloc.specs.Laws.{AllocLaws};

/// What holds of answers and owners, over every list of events.
pub fn alloc_laws()
    ensures { AllocLaws }
{}
