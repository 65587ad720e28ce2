ghost use Rattle.std.specs.Prelude.{ℕ, ◌^◌, ◌≤◌, IfOk};
ghost use Rattle.bit_length.specs.Lengths.{Has, Same};
ghost use Rattle.dsdl_types.specs.Greatest.{longest_fields};
ghost use Rattle.dsdl_types.specs.Rules.{AreFormed};
ghost use Rattle.dsdl_types.specs.Views.{named};
ghost use Rattle.layout.specs.Ends.{alone, EndsBehind};

use crate::lengths::{is_aligned, padding, part_lengths};
use crate::within::{only, pad, sum};
use bit_length::LengthSet;
use cy_bits::NoMemory;
use dsdl_types::Field;
use std::alloc::Global;

/// Where the fields of a structure can end that has one field more, from the places where those
/// before it can end (Cyphal Specification, section 3.7.5): no padding at the structure's own end
/// is counted. None of these ends is above 2^32 bits.
#[cycle(lengths)]
pub fn ends_after(alloc: Global, places: &LengthSet, field: &Field) -> Result<LengthSet, NoMemory>
    requires formed { AreFormed (alone (named field.now)) }
    requires small { longest_fields (alone (named field.now)) 0 ≤ 2 ^ 32 }
    requires short { (p : ℕ) → Has places.now p →
        longest_fields (alone (named field.now)) p ≤ 2 ^ 32 }
    ensures { IfOk result (λ s.
        Same (Has s) (EndsBehind (alone (named field.now)) (Has places.now))) }
{
    match padding(&field.schema) {
        Some(bits) => sum(places, &only(alloc, bits)?),
        None => {
            let lengths = part_lengths(alloc, &field.schema)?;
            if is_aligned(&field.schema) {
                sum(&pad(places)?, &lengths)
            } else {
                sum(places, &lengths)
            }
        }
    }
}
