//! The versions of the types of a namespace, each with the one before it.
ghost use Rattle.std.specs.Prelude.{◌≡◌, ◌++◌, IfOk, OnOk, map};
ghost use Rattle.std.specs.Str.{bytes_eq};
ghost use Rattle.type_versions.specs.Pairs.{are_versions, pair_among, version_pairs, pair_of};

use cy_bits::NoMemory;
use dsdl_names::TypeId;
use dsdl_types::Definition;
use std::alloc::Global;

/// A version of a type, with the one before it.
#[derive(Clone, Copy)]
pub struct VersionPair<'a> {
    /// The version.
    pub new: &'a Definition,
    /// The one before it, of the same major number.
    pub old: &'a Definition,
}

/// Of definitions by name and version, each that has a version before it, with that.
pub fn version_pairs<'a>(
    alloc: Global,
    sorted: &[&'a Definition],
) -> Result<Vec<VersionPair<'a>>, NoMemory>
    ensures { IfOk result (λ pairs.
        map pair_of pairs.items ≡ version_pairs (map (λ d. d.now) sorted.now)) }
{
    let mut pairs = Vec::new(alloc);
    for at in 0..sorted.len().saturating_sub(1) {
        push_versions(&mut pairs, sorted[at + 1], sorted[at])?;
    }
    Ok(pairs)
}

/// Appends two definitions, where the first is a later version of the second.
fn push_versions<'a>(
    pairs: &mut Vec<VersionPair<'a>>,
    new: &'a Definition,
    old: &'a Definition,
) -> Result<(), NoMemory>
    ensures { OnOk result (map pair_of pairs.new.items
        ≡ map pair_of pairs.old.items ++ pair_among (new.entry.now, old.entry.now)) }
{
    if are_versions(&new.id, &old.id) {
        pairs.push(VersionPair { new, old })?;
    }
    Ok(())
}

/// Whether two types are versions of one, of the same major number, which isn't 0, and the first is
/// the later one.
fn are_versions(new: &TypeId, old: &TypeId) -> bool
    ensures { result ≡ are_versions new.now old.now }
{
    same_name(new, old) && new.major == old.major && new.major != 0 && old.minor < new.minor
}

/// Whether two types have the same full name.
fn same_name(new: &TypeId, old: &TypeId) -> bool
    ensures { result ≡ bytes_eq new.now.name old.now.name }
{
    new.name == old.name
}
