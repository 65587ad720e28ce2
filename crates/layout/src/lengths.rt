ghost use Rattle.std.specs.Prelude.{◌≡◌, ℕ, ◌^◌, ◌≤◌, true, false, IfOk, MatchOption};
ghost use Rattle.bit_length.specs.Lengths.{Has, Same};
ghost use Rattle.dsdl_types.specs.Schemas.{is_aligned, is_delimited, extent_of, holding_bits, length_field_bits, tag_bits};
ghost use Rattle.dsdl_types.specs.Greatest.{longest};
ghost use Rattle.dsdl_types.specs.Lengths.{Length, Size};
ghost use Rattle.dsdl_types.specs.Rules.{IsFormed};
ghost use Rattle.layout.specs.Sets.{IsShortPart};
ghost use Rattle.dsdl_types.specs.Views.{Padding, is_padding, kind_of, sch};

use crate::bodies::{lengths_of_struct, lengths_of_union};
use crate::within::{delimited, only, repeat, sum, up_to};
use bit_length::LengthSet;
use cy_bits::NoMemory;
use dsdl_types::Schema;
use std::alloc::Global;

/// The lengths that a type can have by itself, without a delimiter header.
#[cycle(lengths)]
pub fn own_lengths(alloc: Global, schema: &Schema) -> Result<LengthSet, NoMemory>
    requires formed { IsFormed (sch schema.now) }
    requires short { longest (sch schema.now) ≤ 2 ^ 32 }
    ensures { IfOk result (λ s. Same (Has s) (Length (sch schema.now))) }
{
    match schema {
        Schema::Bool => only(alloc, 1),
        Schema::Uint { bits, .. } | Schema::Int { bits } | Schema::Float { bits, .. } => {
            only(alloc, u64::from(*bits))
        }
        Schema::Void { .. } => unreachable!(),
        Schema::Fixed { item, len } => repeat(&part_lengths(alloc, item.get())?, *len),
        Schema::Var { item, cap } => {
            let items = up_to(&part_lengths(alloc, item.get())?, *cap)?;
            sum(&only(alloc, length_field_bits(u64::from(*cap)))?, &items)
        }
        Schema::Struct(body) => lengths_of_struct(alloc, body),
        Schema::Union(body) => lengths_of_union(alloc, body),
    }
}

/// The lengths that a type can have as a part of another, in bits (Cyphal Specification,
/// section 3.7.5): those of a delimited type count its delimiter header, and go to its extent. None
/// of them is above 2^32 bits.
#[cycle(lengths)]
pub fn part_lengths(alloc: Global, schema: &Schema) -> Result<LengthSet, NoMemory>
    requires formed { IsFormed (sch schema.now) }
    requires short { IsShortPart (sch schema.now) }
    ensures { IfOk result (λ s. Same (Has s) (Size (sch schema.now))) }
{
    match delimited_extent(schema) {
        Some(extent) => delimited(alloc, extent),
        None => own_lengths(alloc, schema),
    }
}

/// The extent of a delimited composite; of any other type none.
fn delimited_extent(schema: &Schema) -> Option<u64>
    ensures { MatchOption result
        (is_delimited (sch schema.now) ≡ false)
        (λ e. (is_delimited (sch schema.now) ≡ true) × (e ≡ extent_of (sch schema.now))) }
{
    match schema {
        Schema::Struct(body) | Schema::Union(body) => {
            if body.sealed { None } else { Some(body.extent) }
        }
        _ => None,
    }
}

/// The bits of an array's length field (Cyphal Specification, section 3.7.4), by its capacity.
fn length_field_bits(capacity: u64) -> u64
    ensures { result ≡ length_field_bits capacity }
{
    holding_bits(capacity)
}

/// The bits of a union's tag (Cyphal Specification, section 3.7.5), by the number of its variants.
pub fn tag_bits(variants: u64) -> u64
    ensures { result ≡ tag_bits variants }
{
    holding_bits(variants.saturating_sub(1))
}

/// Of 8, 16, 32 and 64 bits the least that hold the numbers up to this one.
fn holding_bits(greatest: u64) -> u64
    ensures { result ≡ holding_bits greatest }
{
    match greatest {
        0..0x100 => 8,
        0x100..0x1_0000 => 16,
        0x1_0000..0x1_0000_0000 => 32,
        _ => 64,
    }
}

/// Whether a type begins at a multiple of 8 bits: a composite, and an array of such.
pub fn is_aligned(schema: &Schema) -> bool
    ensures { result ≡ is_aligned (sch schema.now) }
{
    match schema {
        Schema::Fixed { item, .. } | Schema::Var { item, .. } => is_aligned(item.get()),
        Schema::Struct(_) | Schema::Union(_) => true,
        _ => false,
    }
}

/// The bits of padding; of a type none.
pub fn padding(schema: &Schema) -> Option<u64>
    ensures { MatchOption result (is_padding (kind_of schema.now) ≡ false)
        (λ n. kind_of schema.now ≡ Padding n) }
{
    match schema {
        Schema::Void { bits } => Some(u64::from(*bits)),
        _ => None,
    }
}
