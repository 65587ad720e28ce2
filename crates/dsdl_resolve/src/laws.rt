//! The law of what files are resolved to.
ghost use Rattle.dsdl_resolve.specs.Laws.{HaveOneAnswer};

use dsdl_links::{one_meaning, one_order};
use dsdl_parse::one_parsing;

/// Files are compiled to one namespace, or they have one first refusal, with its file, line and
/// cause: exactly one of the two.
pub fn one_answer()
    ensures { HaveOneAnswer }
{
    one_parsing();
    one_meaning();
    one_order();
}
