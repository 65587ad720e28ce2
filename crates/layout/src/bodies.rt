//! The lengths of composites alone (Cyphal Specification, section 3.7.5), where no row of a field
//! is asked for.
ghost use Rattle.std.specs.Prelude.{ℕ, ◌^◌, ◌≤◌, IfOk};
ghost use Rattle.bit_length.specs.Lengths.{Has, Same};
ghost use Rattle.dsdl_types.specs.Greatest.{longest};
ghost use Rattle.dsdl_types.specs.Lengths.{Length};
ghost use Rattle.dsdl_types.specs.Rules.{IsFormed};
ghost use Rattle.layout.specs.Bodies.{struct_of, union_of};

use crate::ends::ends_after;
use crate::fixed::bits_with;
use crate::lengths::{part_lengths, tag_bits};
use crate::within::{join, moved, only, pad, sum};
use bit_length::LengthSet;
use cy_bits::NoMemory;
use dsdl_types::Body;
use std::alloc::Global;

/// The lengths that a structure can have by itself. Zeros bring its end to a multiple of 8 bits.
/// Fields of one length each add to a number alone: a set is made only where another field comes.
#[cycle(lengths)]
pub fn lengths_of_struct(alloc: Global, body: &Body) -> Result<LengthSet, NoMemory>
    requires formed { IsFormed (struct_of body.now) }
    requires short { longest (struct_of body.now) ≤ 2 ^ 32 }
    ensures { IfOk result (λ s. Same (Has s) (Length (struct_of body.now))) }
{
    let mut places = only(alloc, 0)?;
    let mut behind = 0;
    for field in body.fields.as_slice() {
        match bits_with(behind, field) {
            Some(bits) => behind = bits,
            None => {
                places = ends_after(alloc, &moved(alloc, places, behind)?, field)?;
                behind = 0;
            }
        }
    }
    pad(&moved(alloc, places, behind)?)
}

/// The lengths that a union can have by itself. Each variant stands behind the tag, and zeros bring
/// its end to a multiple of 8 bits.
#[cycle(lengths)]
pub fn lengths_of_union(alloc: Global, body: &Body) -> Result<LengthSet, NoMemory>
    requires formed { IsFormed (union_of body.now) }
    requires short { longest (union_of body.now) ≤ 2 ^ 32 }
    ensures { IfOk result (λ s. Same (Has s) (Length (union_of body.now))) }
{
    let tag = only(alloc, tag_bits(body.fields.len() as u64))?;
    let mut lengths = None;
    for field in body.fields.as_slice() {
        let variant = part_lengths(alloc, &field.schema)?;
        lengths = Some(join(lengths, &variant)?);
    }
    match lengths {
        Some(lengths) => pad(&sum(&tag, &lengths)?),
        None => unreachable!(),
    }
}
