//! A line for each message, and for each half of a service.
ghost use Rattle.std.specs.Prelude.{◌≡◌, ◌++◌, IfOk, OnOk, map};
ghost use Rattle.std.specs.Option.{option_copied};
ghost use Rattle.layout_text.specs.Heads.{type_name};
ghost use Rattle.type_changes.specs.Entries.{entry_of};
ghost use Rattle.type_changes.specs.Lines.{entry_lines, line_where, lines_of};
ghost use Rattle.type_changes.specs.Said.{change_of};

use crate::change::{Change, change_of};
use crate::entries::Entry;
use crate::halves::{message_of, port_of, request_of, response_of};
use cy_bits::{Bytes, NoMemory};
use dsdl_names::TypeId;
use dsdl_types::Schema;
use std::alloc::Global;
use type_versions::{push_bytes, push_id};

/// What is said of a message or of a half of a service.
#[derive(Drop)]
pub struct Line {
    /// The dotted name with its version; of a half with `.Request` or `.Response` behind it.
    pub name: Bytes,
    /// What is said of it.
    pub change: Change,
    /// The fixed port in the old namespace, where it has one there.
    pub old_port: Option<u16>,
    /// The fixed port in the new namespace, where it has one there.
    pub new_port: Option<u16>,
}

/// The lines of types, in order.
pub fn lines_of(alloc: Global, entries: &[Entry<'_>]) -> Result<Vec<Line>, NoMemory>
    ensures { IfOk result (λ lines. lines.items ≡ lines_of (map entry_of entries.now)) }
{
    let mut lines = Vec::new(alloc);
    for entry in entries {
        push_entry(alloc, &mut lines, entry)?;
    }
    Ok(lines)
}

/// Appends the lines of a type: that of a message, and those of a service's halves.
fn push_entry(alloc: Global, lines: &mut Vec<Line>, entry: &Entry<'_>) -> Result<(), NoMemory>
    ensures { OnOk result (lines.new.items ≡ lines.old.items ++ entry_lines (entry_of entry.now)) }
{
    let Entry { old, new, .. } = *entry;
    push_half(alloc, lines, entry, b"", message_of(old), message_of(new))?;
    push_half(
        alloc,
        lines,
        entry,
        b".Request",
        request_of(old),
        request_of(new),
    )?;
    push_half(
        alloc,
        lines,
        entry,
        b".Response",
        response_of(old),
        response_of(new),
    )
}

/// Appends the line of a message or of a half of a service, where either namespace has it.
fn push_half(
    alloc: Global,
    lines: &mut Vec<Line>,
    entry: &Entry<'_>,
    half: &[u8],
    old: Option<&Schema>,
    new: Option<&Schema>,
) -> Result<(), NoMemory>
    ensures { OnOk result (lines.new.items ≡ lines.old.items ++ line_where (entry_of entry.now) half.now
        (change_of (option_copied old.entry) (option_copied new.entry))) }
{
    if let Some(change) = change_of(alloc, old, new)? {
        lines.push(Line {
            name: name_of(alloc, entry.id, half)?,
            change,
            old_port: port_of(entry.old),
            new_port: port_of(entry.new),
        })?;
    }
    Ok(())
}

/// A dotted name with its version, and what stands behind it.
fn name_of(alloc: Global, id: &TypeId, half: &[u8]) -> Result<Bytes, NoMemory>
    ensures { IfOk result (λ name. name ≡ type_name id.now ++ half.now) }
{
    let mut name = Vec::new(alloc);
    push_id(&mut name, id)?;
    push_bytes(&mut name, half)?;
    Ok(Bytes::new(name))
}
