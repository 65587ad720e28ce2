//! The text of lines, and the first harm that they tell.
ghost use Rattle.std.specs.Prelude.{◌≡◌, ◌++◌, IfOk, OnOk, map};
ghost use Rattle.std.specs.List.{flat_map};
ghost use Rattle.layout_text.specs.Heads.{port_text};
ghost use Rattle.type_versions.specs.Lines.{first_refusal};
ghost use Rattle.type_changes.specs.Lines.{change_text, first_harm, has_moved, is_in_both, keeps_port, line_text, loses_port, loss, ports_text, refusal, same_port};
ghost use Rattle.std.specs.Str.Lossy.{utf8_lossy};

use crate::change::Change;
use crate::line::Line;
use compat_check::{CompatWhy, Verdict};
use cy_bits::{NoMemory, Text, TryCopy};
use std::alloc::Global;
use type_versions::{push_bytes, push_number, push_verdict};

/// The text of lines.
pub fn text_of(alloc: Global, lines: &[Line]) -> Result<Vec<u8>, NoMemory>
    ensures { IfOk result (λ text. text.items ≡ flat_map line_text lines.now) }
{
    let mut text = Vec::new(alloc);
    for line in lines {
        push_line(&mut text, line)?;
    }
    Ok(text)
}

/// Appends a line: the name, what is said of it, and both ports where they differ.
fn push_line(text: &mut Vec<u8>, line: &Line) -> Result<(), NoMemory>
    ensures { OnOk result (text.new.items ≡ text.old.items ++ line_text line.now) }
{
    push_bytes(text, line.name.as_slice())?;
    push_bytes(text, b" ")?;
    push_change(text, &line.change)?;
    push_ports(text, line)?;
    push_bytes(text, b"\n")
}

/// Appends what is said of a message or of a half of a service.
fn push_change(text: &mut Vec<u8>, change: &Change) -> Result<(), NoMemory>
    ensures { OnOk result (text.new.items ≡ text.old.items ++ change_text change.now) }
{
    match change {
        Change::Same => push_bytes(text, b"same"),
        Change::Renamed => push_bytes(text, b"renamed"),
        Change::Compared(verdict) => push_verdict(text, verdict),
        Change::Added => push_bytes(text, b"added"),
        Change::Gone => push_bytes(text, b"gone"),
    }
}

/// Appends the old and the new port, where both have the type and they differ.
fn push_ports(text: &mut Vec<u8>, line: &Line) -> Result<(), NoMemory>
    ensures { OnOk result (text.new.items ≡ text.old.items ++ ports_text line.now) }
{
    if !has_moved(line) {
        return Ok(());
    }
    push_bytes(text, b" port ")?;
    push_port(text, line.old_port)?;
    push_bytes(text, b" ")?;
    push_port(text, line.new_port)
}

/// Appends a port, or `-` where there is none.
fn push_port(text: &mut Vec<u8>, port: Option<u16>) -> Result<(), NoMemory>
    ensures { OnOk result (text.new.items ≡ text.old.items ++ port_text port) }
{
    match port {
        Some(port) => push_number(text, port as u64),
        None => push_bytes(text, b"-"),
    }
}

/// Whether both have the type, and the ports differ.
fn has_moved(line: &Line) -> bool
    ensures { result ≡ has_moved line.now }
{
    is_in_both(&line.change) && !same_port(line.old_port, line.new_port)
}

/// Whether both namespaces have it.
fn is_in_both(change: &Change) -> bool
    ensures { result ≡ is_in_both change.now }
{
    !matches!(change, Change::Added | Change::Gone)
}

/// Whether two ports are one, or neither is there.
fn same_port(old: Option<u16>, new: Option<u16>) -> bool
    ensures { result ≡ same_port old new }
{
    match old {
        Some(old) => matches!(new, Some(new) if old == new),
        None => new.is_none(),
    }
}

/// The first verdict on schemas that isn't yes, or else the first type that is gone, or whose port is no longer the
/// one that it had, with its name as the path.
pub fn first_harm(alloc: Global, lines: &[Line]) -> Result<Verdict, NoMemory>
    ensures { IfOk result (λ first. first ≡ first_harm lines.now) }
{
    match first_refusal(alloc, lines)? {
        Verdict::Yes => first_loss(alloc, lines),
        Verdict::No { path, why } => Ok(Verdict::No { path, why }),
    }
}

/// The first verdict on schemas that isn't yes.
fn first_refusal(alloc: Global, lines: &[Line]) -> Result<Verdict, NoMemory>
    ensures { IfOk result (λ first. first ≡ first_refusal (map (λ l. refusal l.change) lines.now)) }
{
    for line in lines {
        match refusal(alloc, &line.change)? {
            Verdict::Yes => {}
            Verdict::No { path, why } => return Ok(Verdict::No { path, why }),
        }
    }
    Ok(Verdict::Yes)
}

/// The verdict on two schemas; yes where they are one, names aside, or one alone is there.
fn refusal(alloc: Global, change: &Change) -> Result<Verdict, NoMemory>
    ensures { IfOk result (λ verdict. verdict ≡ refusal change.now) }
{
    match change {
        Change::Compared(Verdict::No { path, why }) => Ok(Verdict::No {
            path: path.copy(alloc)?,
            why: *why,
        }),
        _ => Ok(Verdict::Yes),
    }
}

/// The first type that is gone, or whose port is no longer the one that it had.
fn first_loss(alloc: Global, lines: &[Line]) -> Result<Verdict, NoMemory>
    ensures { IfOk result (λ first. first ≡ first_refusal (map loss lines.now)) }
{
    for line in lines {
        match loss(alloc, line)? {
            Verdict::Yes => {}
            Verdict::No { path, why } => return Ok(Verdict::No { path, why }),
        }
    }
    Ok(Verdict::Yes)
}

/// Whether a type is gone, or its port is no longer the one that it had.
fn loss(alloc: Global, line: &Line) -> Result<Verdict, NoMemory>
    ensures { IfOk result (λ verdict. verdict ≡ loss line.now) }
{
    match line.change {
        Change::Gone => lost(alloc, line, CompatWhy::Gone),
        _ => {
            if loses_port(line) {
                lost(alloc, line, CompatWhy::Port)
            } else {
                Ok(Verdict::Yes)
            }
        }
    }
}

/// That a type isn't what it was for this cause, with its name as the path.
fn lost(alloc: Global, line: &Line, why: CompatWhy) -> Result<Verdict, NoMemory>
    ensures { IfOk result (λ verdict. verdict ≡ Verdict.No (utf8_lossy line.now.name) why) }
{
    let name = String::from_utf8_lossy(alloc, line.name.as_slice())?;
    Ok(Verdict::No {
        path: Text::new(name),
        why,
    })
}

/// Whether both have the type, and the old namespace's port is no longer the one of the new one.
fn loses_port(line: &Line) -> bool
    ensures { result ≡ loses_port line.now }
{
    is_in_both(&line.change) && line.old_port.is_some() && !same_port(line.old_port, line.new_port)
}
