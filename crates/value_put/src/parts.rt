//! What a type is made of.
ghost use Rattle.std.specs.Prelude.{◌≡◌, ◌≤◌, true};
ghost use Rattle.dsdl_types.specs.Schemas.{holding_bits, is_aligned, is_delimited, variants};
ghost use Rattle.dsdl_types.specs.Views.{body_of, sch};
ghost use Rattle.value_text.specs.Texts.{is_uint8};
ghost use Rattle.value_put.specs.Parts.{is_simple};

use dsdl_types::{Body, Schema};

/// Whether a type is a primitive; padding is none.
#[inline(always)]
pub fn is_simple(schema: &Schema) -> bool
    ensures { result ≡ true → is_simple (sch schema.now) ≡ true }
{
    matches!(
        schema,
        Schema::Bool | Schema::Uint { .. } | Schema::Int { .. } | Schema::Float { .. }
    )
}

/// Whether a type is that of bytes.
#[inline(always)]
pub fn is_uint8(schema: &Schema) -> bool
    ensures { result ≡ is_uint8 (sch schema.now) }
{
    matches!(schema, Schema::Uint { bits: 8, .. })
}

/// Whether a type begins at a multiple of 8 bits.
pub fn is_aligned(schema: &Schema) -> bool
    ensures { result ≡ is_aligned (sch schema.now) }
{
    match schema {
        Schema::Fixed { item, .. } | Schema::Var { item, .. } => is_aligned(item.get()),
        Schema::Struct(_) | Schema::Union(_) => true,
        _ => false,
    }
}

/// Whether a type stands behind a delimiter header inside another one.
#[inline(always)]
pub fn is_delimited(schema: &Schema) -> bool
    ensures { result ≡ is_delimited (sch schema.now) }
{
    match schema {
        Schema::Struct(body) | Schema::Union(body) => !body.sealed,
        _ => false,
    }
}

/// The number of fields that aren't padding.
pub fn variants(body: &Body) -> u64
    ensures { result ≡ variants (body_of body.now).0 }
{
    let mut count = 0;
    for field in body.fields.as_slice() {
        if !field.schema.is_padding() {
            count += 1;
        }
    }
    count
}

/// Of 8, 16, 32 and 64 bits the least that hold the numbers up to this one.
#[inline(always)]
pub fn holding_bits(greatest: u64) -> u32
    ensures value { result ≡ holding_bits greatest }
    ensures few { result ≤ 64 }
{
    if greatest < 1 << 8 {
        8
    } else if greatest < 1 << 16 {
        16
    } else if greatest < 1 << 32 {
        32
    } else {
        64
    }
}
