//! The order of the definitions.
ghost use Rattle.std.specs.Prelude.{IfOk, map};
ghost use Rattle.layout_text.specs.Namespaces.{IsByName};

use cy_bits::NoMemory;
use dsdl_types::Definition;
use std::alloc::Global;

/// The definitions by name and version. Those of one name and version keep their order.
pub fn by_name<'a>(
    alloc: Global,
    definitions: &'a [Definition],
) -> Result<Vec<&'a Definition>, NoMemory>
    ensures { IfOk result (λ sorted. IsByName definitions.now (map (λ d. d.now) sorted.items)) }
{
    let mut sorted: Vec<&Definition> = definitions.iter().collect(alloc)?;
    sorted.sort_by(|a, b| a.id.cmp(&b.id))?;
    Ok(sorted)
}
