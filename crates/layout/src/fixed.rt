//! Fields of one length each, which begin where the last one ends.
ghost use Rattle.std.specs.Prelude.{◌≡◌, ℕ, ◌+◌, ◌^◌, ◌≤◌, IfSome};
ghost use Rattle.dsdl_types.specs.Views.{kind_of, named};
ghost use Rattle.layout.specs.Ends.{IsBits};

use dsdl_types::{Field, Schema};

/// The greatest bit length that is computed with.
const LONGEST: u64 = 1 << 32;

/// The bits of a truth value, a number or padding; of another type nothing.
fn bits_of(schema: &Schema) -> Option<u64>
    ensures { IfSome result (IsBits (kind_of schema.now)) }
{
    match schema {
        Schema::Bool => Some(1),
        Schema::Uint { bits, .. } | Schema::Int { bits } | Schema::Float { bits, .. } => {
            Some(u64::from(*bits))
        }
        Schema::Void { bits } => Some(u64::from(*bits)),
        _ => None,
    }
}

/// So many bits and those of a field that has one length, at most 2^32; nothing of another field.
pub fn bits_with(before: u64, field: &Field) -> Option<u64>
    ensures one { IfSome result (λ bits.
        (k : ℕ) × (bits ≡ before + k) × IsBits (named field.now).1 k) }
    ensures short { IfSome result (λ bits. bits ≤ 2 ^ 32) }
{
    let bits = before.checked_add(bits_of(&field.schema)?)?;
    if bits <= LONGEST { Some(bits) } else { None }
}
