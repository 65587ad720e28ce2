//! What an edit of a namespace does to those who have its types.
ghost use Rattle.std.specs.Prelude.{IfOk};
ghost use Rattle.type_changes.specs.Lines.{AreChanges};

use crate::entries::paired;
use crate::line::lines_of;
use crate::told::{first_harm, text_of};
use compat_check::Verdict;
use cy_bits::NoMemory;
use dsdl_types::Namespace;
use layout_text::by_name;
use std::alloc::Global;

/// What is said of the types of an old and a new namespace.
#[derive(Drop)]
pub struct Changes {
    /// A line for each message and each half of a service that either has, by name and version: whether the new one's
    /// is the same, the same but for the names of fields, newer or not newer, with the first difference, or whether one
    /// alone has it; and both fixed ports, where both have the type and the ports differ.
    pub lines: Vec<u8>,
    /// The first verdict on two schemas that isn't yes. Where there is none, the first line that is of a type that is
    /// gone, or whose fixed port is no longer the one that it had: its name is the path, and `Gone` or `Port` the
    /// cause. Yes where there is none of these either: then each reads what the other sends, at the same ports.
    pub first: Verdict,
}

/// Compares two namespaces, type by type (Cyphal Specification, section 3.8). Types of major number 0 are compared too.
/// It takes time that is linear in the schemas' sizes, and that of a sort of the definitions of each.
pub fn changes_of(alloc: Global, old: &Namespace, new: &Namespace) -> Result<Changes, NoMemory>
    ensures { IfOk result (λ changes.
        AreChanges old.now new.now changes.lines.items changes.first) }
{
    let olds = by_name(alloc, old.definitions.as_slice())?;
    let news = by_name(alloc, new.definitions.as_slice())?;
    let entries = paired(alloc, olds.as_slice(), news.as_slice())?;
    let lines = lines_of(alloc, entries.as_slice())?;
    let text = text_of(alloc, lines.as_slice())?;
    let first = first_harm(alloc, lines.as_slice())?;
    Ok(Changes { lines: text, first })
}
