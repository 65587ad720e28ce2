//! What is said of the versions of a namespace.
ghost use Rattle.std.specs.Prelude.{◌≡◌, ◌↔◌, ◌++◌, IfOk, OnOk, map};
ghost use Rattle.std.specs.List.{flat_map};
ghost use Rattle.compat_check.specs.Services.{both};
ghost use Rattle.type_versions.specs.Lines.{refusal_text, verdict_text, verdict_line, pair_verdict, pair_line, first_refusal, AreVersions};
ghost use Rattle.type_versions.specs.Pairs.{pair_of};

use crate::pairs::{VersionPair, version_pairs};
use crate::parts::parts_newer;
use crate::words::{compat_why_text, push_bytes, push_id};
use compat_check::Verdict;
use cy_bits::NoMemory;
use dsdl_types::Namespace;
use layout_text::by_name;
use std::alloc::Global;

/// What is said of the versions of a namespace.
#[derive(Drop)]
pub struct Versions {
    /// A line for each version that has one before it: both names, and the verdict.
    pub lines: Vec<u8>,
    /// The first verdict that isn't yes, or yes where each is.
    pub first: Verdict,
}

/// Compares each version of a type with the one before it, of the same major number, by name and
/// version. Those of major number 0 are compared with none. It takes time that is linear in the
/// schemas' sizes, and that of a sort of the definitions.
pub fn versions_of(alloc: Global, names: &Namespace) -> Result<Versions, NoMemory>
    ensures { IfOk result (λ versions. AreVersions names.now versions.lines.items versions.first) }
{
    let sorted = by_name(alloc, names.definitions.as_slice())?;
    let pairs = version_pairs(alloc, sorted.as_slice())?;
    compared(alloc, pairs.as_slice())
}

/// Compares each version with the one before it.
fn compared(alloc: Global, pairs: &[VersionPair<'_>]) -> Result<Versions, NoMemory>
    ensures lines { IfOk result (λ versions.
        versions.lines.items ≡ flat_map pair_line (map pair_of pairs.now)) }
    ensures first { IfOk result (λ versions.
        versions.first ≡ first_refusal (map pair_verdict (map pair_of pairs.now))) }
{
    let mut versions = Versions {
        lines: Vec::new(alloc),
        first: Verdict::Yes,
    };
    for pair in pairs {
        push_pair(alloc, &mut versions, pair)?;
    }
    Ok(versions)
}

/// Appends the line of a version, and keeps its verdict where it is the first that isn't yes.
fn push_pair(alloc: Global, versions: &mut Versions, pair: &VersionPair<'_>) -> Result<(), NoMemory>
    ensures line { OnOk result
        (versions.new.lines.items ≡ versions.old.lines.items ++ pair_line (pair_of pair.now)) }
    ensures first { OnOk result
        (versions.new.first ≡ both versions.old.first (pair_verdict (pair_of pair.now))) }
{
    let verdict = parts_newer(alloc, &pair.new.parts, &pair.old.parts)?;
    push_line(&mut versions.lines, pair, &verdict)?;
    if matches!(versions.first, Verdict::Yes) {
        versions.first = verdict;
    }
    Ok(())
}

/// Appends both names and a verdict, as a line.
fn push_line(text: &mut Vec<u8>, pair: &VersionPair<'_>, verdict: &Verdict) -> Result<(), NoMemory>
    ensures { OnOk result
        (text.new.items ≡ text.old.items ++ verdict_line (pair_of pair.now) verdict.now) }
{
    push_id(text, &pair.new.id)?;
    push_bytes(text, b" ")?;
    push_id(text, &pair.old.id)?;
    push_bytes(text, b" ")?;
    push_verdict(text, verdict)?;
    push_bytes(text, b"\n")
}

/// Appends a verdict in words.
pub fn push_verdict(text: &mut Vec<u8>, verdict: &Verdict) -> Result<(), NoMemory>
    ensures { OnOk result (text.new.items ≡ text.old.items ++ verdict_text verdict.now) }
{
    match verdict {
        Verdict::Yes => push_bytes(text, b"newer"),
        Verdict::No { path, why } => {
            push_refusal(text, path.as_str().as_bytes(), compat_why_text(*why))
        }
    }
}

/// Appends where a type isn't newer, and why.
fn push_refusal(text: &mut Vec<u8>, path: &[u8], why: &[u8]) -> Result<(), NoMemory>
    ensures { OnOk result (text.new.items ≡ text.old.items ++ refusal_text path.now why.now) }
{
    push_bytes(text, b"not newer at ")?;
    push_bytes(text, path)?;
    push_bytes(text, b": ")?;
    push_bytes(text, why)
}
