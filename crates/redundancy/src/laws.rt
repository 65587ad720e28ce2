//! Laws of the definitions, each the contract of a call that does nothing.

ghost use Rattle.redundancy.specs.Laws.{ForceLaws, HearingIs};

/// What holds of the bus in force, and of heard and late records, over every list of records.
pub fn force_laws()
    ensures { ForceLaws }
{}

/// From the bus in force and the moment last heard, one frame is answered as the records say.
pub fn hearing()
    ensures { HearingIs }
{}
