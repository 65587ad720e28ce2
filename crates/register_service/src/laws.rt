//! Laws of the definitions, each the contract of a call that does nothing.

ghost use Rattle.register_service.specs.Laws.{RegisterLaws};

/// What registers hold and answer, over every list of requests.
pub fn register_laws()
    ensures { RegisterLaws }
{}
