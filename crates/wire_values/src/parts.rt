//! What a value or a schema is made of.
ghost use Rattle.std.specs.Prelude.{◌≡◌, ◌≤◌, ◌<◌, ◌%◌, ◌^◌, true, false, MatchOption};
ghost use Rattle.dsdl_types.specs.Schemas.{is_aligned, is_delimited, holding_bits, length_field_bits, tag_bits, variants};
ghost use Rattle.dsdl_types.specs.Views.{Padding, body_of, is_padding, kind_of, sch};

use dsdl_types::{Body, Schema};

/// Whether a type begins at a multiple of 8 bits.
pub fn is_aligned(schema: &Schema) -> bool
    ensures { result ≡ is_aligned (sch schema.now) }
{
    match schema {
        Schema::Fixed { item, .. } | Schema::Var { item, .. } => is_aligned(item.get()),
        Schema::Struct(_) | Schema::Union(_) => true,
        _ => false,
    }
}

/// Whether a type stands behind a delimiter header inside another one.
pub fn is_delimited(schema: &Schema) -> bool
    ensures value { result ≡ is_delimited (sch schema.now) }
    ensures aligned { result ≡ true → is_aligned (sch schema.now) ≡ true }
{
    match schema {
        Schema::Struct(body) | Schema::Union(body) => !body.sealed,
        _ => false,
    }
}

/// The bits of an array's length field, by its capacity.
pub fn length_field_bits(capacity: u64) -> u32
    ensures value { result ≡ length_field_bits capacity }
    ensures few { result ≤ 64 }
    ensures whole { result % 8 ≡ 0 }
{
    holding_bits(capacity)
}

/// The bits of a union's tag, by the number of its variants.
pub fn tag_bits(variants: u64) -> u32
    ensures value { result ≡ tag_bits variants }
    ensures few { result ≤ 64 }
    ensures whole { result % 8 ≡ 0 }
{
    holding_bits(variants.saturating_sub(1))
}

/// Of 8, 16, 32 and 64 bits the least that hold the numbers up to this one.
fn holding_bits(greatest: u64) -> u32
    ensures value { result ≡ holding_bits greatest }
    ensures few { result ≤ 64 }
    ensures whole { result % 8 ≡ 0 }
{
    if greatest < 1 << 8 {
        8
    } else if greatest < 1 << 16 {
        16
    } else if greatest < 1 << 32 {
        32
    } else {
        64
    }
}

/// The number of fields that aren't padding.
pub fn variants(body: &Body) -> u64
    ensures { result ≡ variants (body_of body.now).0 }
{
    let mut count = 0;
    for field in body.fields.as_slice() {
        if !field.schema.is_padding() {
            count += 1;
        }
    }
    count
}

/// The bits of padding; nothing for a type of values.
pub fn padding(schema: &Schema) -> Option<u8>
    ensures { MatchOption result (is_padding (kind_of schema.now) ≡ false)
        (λ n. kind_of schema.now ≡ Padding n) }
{
    match schema {
        Schema::Void { bits } => Some(*bits),
        _ => None,
    }
}
