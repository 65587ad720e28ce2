//! Laws of the definitions, each the contract of a call that does nothing.

ghost use Rattle.file_service.specs.Laws.{FileLaws};

/// No path leaves the root, a file is its pieces put together, and a folder lists each of its names
/// once, in their order.
pub fn file_laws()
    ensures { FileLaws }
{}
