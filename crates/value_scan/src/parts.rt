//! What a schema is made of.
ghost use Rattle.std.specs.Prelude.{◌≡◌, ◌≤◌};
ghost use Rattle.dsdl_types.specs.Schemas.{holding_bits, is_aligned, is_delimited, length_field_bits, tag_bits, variants};
ghost use Rattle.dsdl_types.specs.Views.{body_of, sch};
ghost use Rattle.value_text.specs.Texts.{is_uint8};

use dsdl_types::{Body, Schema};

/// Whether a type begins at a multiple of 8 bits.
pub fn is_aligned(schema: &Schema) -> bool
    ensures { result ≡ is_aligned (sch schema.now) }
{
    match schema {
        Schema::Fixed { item, .. } | Schema::Var { item, .. } => is_aligned(item.get()),
        Schema::Struct(_) | Schema::Union(_) => true,
        _ => false,
    }
}

/// Whether a type stands behind a delimiter header inside another one.
pub fn is_delimited(schema: &Schema) -> bool
    ensures { result ≡ is_delimited (sch schema.now) }
{
    match schema {
        Schema::Struct(body) | Schema::Union(body) => !body.sealed,
        _ => false,
    }
}

/// Whether a type is that of bytes.
pub fn is_uint8(schema: &Schema) -> bool
    ensures { result ≡ is_uint8 (sch schema.now) }
{
    matches!(schema, Schema::Uint { bits: 8, .. })
}

/// The bits of an array's length field, by its capacity.
pub fn length_field_bits(capacity: u32) -> u32
    ensures value { result ≡ length_field_bits capacity }
    ensures few { result ≤ 64 }
{
    holding_bits(u64::from(capacity))
}

/// The bits of a union's tag.
pub fn tag_bits(body: &Body) -> u32
    ensures value { result ≡ tag_bits (variants (body_of body.now).0) }
    ensures few { result ≤ 64 }
{
    holding_bits(variants(body).saturating_sub(1))
}

/// Of 8, 16, 32 and 64 bits the least that hold the numbers up to this one.
fn holding_bits(greatest: u64) -> u32
    ensures value { result ≡ holding_bits greatest }
    ensures few { result ≤ 64 }
{
    if greatest < 1 << 8 {
        8
    } else if greatest < 1 << 16 {
        16
    } else if greatest < 1 << 32 {
        32
    } else {
        64
    }
}

/// The number of fields that aren't padding.
fn variants(body: &Body) -> u64
    ensures { result ≡ variants (body_of body.now).0 }
{
    let mut count = 0;
    for field in body.fields.as_slice() {
        if !field.schema.is_padding() {
            count += 1;
        }
    }
    count
}
