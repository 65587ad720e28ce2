//! What a file defines, and what it refers to.
ghost use Rattle.std.specs.Prelude.{◌≡◌, ◌<◌, ◌^◌, ◌++◌, length, map, IfOk, OnOk};
ghost use Rattle.dsdl_links.specs.Mentions.{mentions, noted};

use crate::reference::{references_in, type_of};
use cy_bits::{List, NoMemory};
use dsdl_names::{FullName, TypeId};
use dsdl_parse::{Reference, Statement};
use std::alloc::Global;

/// A file of a namespace: the type that it defines, and the types that its text refers to.
#[derive(Drop)]
pub struct Source {
    /// The type that it defines.
    pub id: TypeId,
    /// The types that it refers to, in the order of the text, each as often as it stands there.
    pub mentions: List<Mention>,
}

/// A type that a line refers to (Cyphal Specification, section 3.4.5).
#[derive(Drop)]
pub struct Mention {
    /// The line, counted from 1.
    pub line: u32,
    /// The type.
    pub id: TypeId,
}

/// The types that the statements of a definition refer to (Cyphal Specification, section 3.4.5), in
/// the order of the text: on a line a type, then its bound, then a value. A reference without a
/// namespace means the namespace of `own`, the type that the statements define. There are fewer
/// than 2^32 statements.
pub fn mentions_of(
    alloc: Global,
    own: &FullName,
    lines: &[Statement],
) -> Result<List<Mention>, NoMemory>
    requires { length lines.now < 2 ^ 32 }
    ensures { IfOk result (λ found. found ≡ mentions own.now lines.now) }
{
    let mut found = List::empty(alloc);
    for i in 0..lines.len() {
        let references = references_in(alloc, &lines[i])?;
        note(alloc, own, i as u32 + 1, &references, &mut found)?;
    }
    Ok(found)
}

/// Adds the types that references of a line mean.
fn note(
    alloc: Global,
    own: &FullName,
    line: u32,
    references: &[&Reference],
    found: &mut List<Mention>,
) -> Result<(), NoMemory>
    ensures { OnOk result (found.new ≡ found.old
        ++ noted own.now line (map (λ r. r.now) references.now)) }
{
    for reference in references {
        if let Some(id) = type_of(alloc, own, reference)? {
            found.push(Mention { line, id })?;
        }
    }
    Ok(())
}
