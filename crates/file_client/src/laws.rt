//! Laws of the definitions, the contract of a call that does nothing.

ghost use Rattle.file_client.specs.Laws.{FetchLaws};

/// What is fetched over every list of events: of a fair one a front of the file, and at Done all of it; and when each
/// end comes.
pub fn fetch_laws()
    ensures { FetchLaws }
{}
