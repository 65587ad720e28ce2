//! The lengths that a section so far can have, which `_offset_` means.
ghost use Rattle.std.specs.Prelude.{◌≡◌, ◌≢◌, ℕ, [], ◌+◌, ◌<◌, ◌≤◌, ◌^◌, ◌-◌, length, take, false, true, IfOk, Ok, Err};
ghost use Rattle.bit_length.specs.Lengths.{Has, Same};
ghost use Rattle.dsdl_types.specs.Greatest.{longest_fields, longest_variant};
ghost use Rattle.dsdl_types.specs.Lengths.{VariantLength};
ghost use Rattle.dsdl_types.specs.Rules.{AreFormed, NoPadding};
ghost use Rattle.dsdl_types.specs.Schemas.{tag_bits, variants};
ghost use Rattle.dsdl_types.specs.Views.{flds};
ghost use Rattle.dsdl_resolve.specs.Opens.{AreOffsets};
ghost use Rattle.dsdl_resolve.specs.Said.{offsets};
ghost use Rattle.dsdl_resolve.specs.SoundSections.{AreFine};
ghost use Rattle.dsdl_resolve.specs.Totals.{AreTotals};

use crate::totals::{Totals, tag_bits};
use bit_length::{LengthError, LengthSet};
use cy_bits::NoMemory;
use dsdl_types::Field;
use layout::{ends_after, part_lengths};
use std::alloc::Global;

/// The lengths that a section with some of its fields can have.
#[derive(Drop)]
pub struct Offsets {
    /// The lengths, before padding.
    pub set: LengthSet,
    /// How many fields the section has, padding among them.
    pub fields: usize,
}

/// The set or want of memory, of a set that isn't too long.
fn short(set: Result<LengthSet, LengthError>) -> Result<LengthSet, NoMemory>
    requires { (g : ℕ) → set ≢ Err (LengthError.Long g) }
    ensures { IfOk result (λ s. set ≡ Ok s) }
{
    match set {
        Ok(set) => Ok(set),
        Err(LengthError::NoMemory) => Err(NoMemory),
        Err(LengthError::Long { .. }) => unreachable!(),
    }
}

/// The lengths of a structure with these fields, from those with the first of them.
fn ends_behind(known: Offsets, alloc: Global, fields: &[Field]) -> Result<LengthSet, NoMemory>
    requires formed { AreFormed (flds fields.now) }
    requires greatest { longest_fields (flds fields.now) 0 ≤ 2 ^ 32 }
    requires within { known.fields ≤ length fields.now }
    requires known { known.set ≡ offsets false (take known.fields fields.now) }
    ensures { IfOk result (λ s. s ≡ offsets false fields.now) }
{
    let Offsets { set, fields: from } = known;
    let mut ends = set;
    // `count` says that the members ascend.
    let _ = ends.count();
    for i in from..fields.len() {
        ends = ends_after(alloc, &ends, &fields[i])?;
        let _ = ends.count();
    }
    Ok(ends)
}

/// The lengths of the variants of a union.
fn variants_of(alloc: Global, fields: &[Field]) -> Result<LengthSet, NoMemory>
    requires some { 0 < variants (flds fields.now) }
    requires formed { AreFormed (flds fields.now) }
    requires packed { NoPadding (flds fields.now) }
    requires greatest { longest_variant (flds fields.now) ≤ 2 ^ 32 }
    ensures { IfOk result (λ s. Same (Has s) (VariantLength (flds fields.now))) }
{
    let mut joined = part_lengths(alloc, &fields[0].schema)?;
    for i in 1..fields.len() {
        let lengths = part_lengths(alloc, &fields[i].schema)?;
        joined = short(joined.join(&lengths))?;
    }
    Ok(joined)
}

/// The lengths of a union: the tag and a variant.
fn of_union(alloc: Global, fields: &[Field], count: u64) -> Result<LengthSet, NoMemory>
    requires some { 0 < count }
    requires count { count ≡ variants (flds fields.now) }
    requires formed { AreFormed (flds fields.now) }
    requires packed { NoPadding (flds fields.now) }
    requires greatest { tag_bits count + longest_variant (flds fields.now) ≤ 2 ^ 32 }
    ensures { IfOk result (λ s. s ≡ offsets true fields.now) }
{
    let tag = short(LengthSet::of(alloc, tag_bits(count)))?;
    let joined = variants_of(alloc, fields)?;
    let lengths = short(tag.sum(&joined))?;
    // `count` says that the members ascend.
    let _ = lengths.count();
    Ok(lengths)
}

/// The lengths of a section with these totals and fields, where those were known with the first of
/// them.
pub fn offsets_of(
    alloc: Global,
    totals: Totals,
    fields: &[Field],
    known: Option<Offsets>,
) -> Result<LengthSet, NoMemory>
    requires totals { AreTotals totals totals.union (flds fields.now) }
    requires fine { AreFine totals.union fields.now }
    requires some { totals.union ≡ true → 0 < totals.variants }
    requires known { AreOffsets totals.union fields.now known }
    ensures { IfOk result (λ s. s ≡ offsets totals.union fields.now) }
{
    if let Some(known) = known {
        if known.fields == fields.len() {
            let Offsets { set, fields: _ } = known;
            return Ok(set);
        }
        if !totals.union {
            return ends_behind(known, alloc, fields);
        }
    }
    if totals.union {
        return of_union(alloc, fields, totals.variants);
    }
    ends_behind(nothing(alloc)?, alloc, fields)
}

/// The lengths of a structure without fields.
fn nothing(alloc: Global) -> Result<Offsets, NoMemory>
    ensures { IfOk result (λ o. (o.fields ≡ 0) × (o.set ≡ offsets false [])) }
{
    let set = short(LengthSet::of(alloc, 0))?;
    // `count` says that the members ascend.
    let _ = set.count();
    Ok(Offsets { set, fields: 0 })
}
