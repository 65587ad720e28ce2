//! What is said of a type that an old or a new namespace has.
ghost use Rattle.std.specs.Prelude.{◌≡◌, IfOk};
ghost use Rattle.std.specs.Option.{option_copied};
ghost use Rattle.dsdl_types.specs.Views.{sch};
ghost use Rattle.type_changes.specs.Said.{change_of, compared};

use crate::names::same_names;
use compat_check::{Verdict, newer, same_but_names};
use cy_bits::NoMemory;
use dsdl_types::Schema;
use std::alloc::Global;

/// What is said of a message or of a half of a service.
#[derive(Drop)]
pub enum Change {
    /// Both namespaces have it, and the two schemas are one, with the names of their fields.
    Same,
    /// Both have it, and the two schemas are one but for the names of their fields, which aren't sent.
    Renamed,
    /// Both have it, and the schemas differ: whether the new one is newer.
    Compared(Verdict),
    /// The new namespace alone has it.
    Added,
    /// The old namespace alone has it.
    Gone,
}

/// What is said of a schema, as the old and as the new namespace have it; nothing where neither has it.
pub fn change_of(
    alloc: Global,
    old: Option<&Schema>,
    new: Option<&Schema>,
) -> Result<Option<Change>, NoMemory>
    ensures { IfOk result (λ change.
        change ≡ change_of (option_copied old.entry) (option_copied new.entry)) }
{
    match old {
        None => match new {
            None => Ok(None),
            Some(_) => Ok(Some(Change::Added)),
        },
        Some(old) => match new {
            None => Ok(Some(Change::Gone)),
            Some(new) => Ok(Some(compared(alloc, new, old)?)),
        },
    }
}

/// What is said of a schema that both have.
fn compared(alloc: Global, new: &Schema, old: &Schema) -> Result<Change, NoMemory>
    ensures { IfOk result (λ change. change ≡ compared (sch new.now) (sch old.now)) }
{
    if !same_but_names(new, old) {
        return Ok(Change::Compared(newer(alloc, new, old)?));
    }
    if same_names(new, old) {
        Ok(Change::Same)
    } else {
        Ok(Change::Renamed)
    }
}
