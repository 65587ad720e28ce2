ghost use Rattle.frag.specs.Raw.{FramesAreSeen, ExplainedByFields};
ghost use Rattle.frag.specs.Unbroken.{UnbrokenIsExplained};

/// Each frame of a transfer of a key with a source passes as a frame of that key, and its fields are
/// those of the transfer.
pub fn frames_are_seen()
    ensures { FramesAreSeen }
{}

/// A sent list that explains records by identifier and data explains them by their fields.
pub fn explained_by_fields()
    ensures { ExplainedByFields }
{}

/// Where no transfer is broken off on a bus, the sent list explains the records, and they have no
/// chance match.
pub fn unbroken()
    ensures { UnbrokenIsExplained }
{}
