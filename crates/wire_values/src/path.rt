ghost use Rattle.std.specs.Prelude.{◌≡◌, IfOk, map, reverse};
ghost use Rattle.dsdl_types.specs.Paths.{path_text, step_of};

use cy_bits::{List, NoMemory, Text};
use dsdl_types::{Step, path_text};
use std::alloc::Global;

/// The text of a path whose last step stands first.
pub fn path_of(alloc: Global, steps: List<Step>) -> Result<Text, NoMemory>
    ensures { IfOk result (λ text. text ≡ path_text (reverse (map step_of steps))) }
{
    let mut steps = steps.into_vec();
    steps.reverse();
    path_text(alloc, steps.as_slice())
}
