//! Lines of a plan that say which folder the node serves.
ghost use Rattle.std.specs.Prelude.{◌≡◌, ◌∷◌, [], IfOk};
ghost use Rattle.node_plan.specs.Line.{said_of_serve, IsSaid};
ghost use Rattle.node_plan.specs.Words.{words_of};

use crate::line::Said;
use cy_bits::{NoMemory, Text};
use std::alloc::Global;

/// `serve PATH`.
pub fn serve(alloc: Global, path: &[u8]) -> Result<Said, NoMemory>
    requires { words_of path.now ≡ path.now ∷ [] }
    ensures value { IfOk result (λ said. said ≡ said_of_serve path.now) }
    ensures sound { IfOk result IsSaid }
{
    if path.is_empty() {
        return Ok(Said::NoForm);
    }
    match str::from_utf8(path) {
        Ok(text) => Ok(Said::Serve(Text::from_str(alloc, text)?)),
        Err(_) => Ok(Said::NoForm),
    }
}
