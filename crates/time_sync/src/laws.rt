//! Laws of the definitions, each the contract of a call that does nothing.

ghost use Rattle.time_sync.specs.Laws.{SyncLaws};

/// What holds of the estimate, over every list of messages.
pub fn sync_laws()
    ensures { SyncLaws }
{}
