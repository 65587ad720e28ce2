//! Types to write and read.
ghost use Rattle.std.specs.Prelude.{◌≡◌, true, IfOk};
ghost use Rattle.dsdl_types.specs.Schemas.{Struct};
ghost use Rattle.dsdl_types.specs.Views.{Typed, flds, kind_of, named};
ghost use Rattle.outside_tests.specs.Samples.{inner, numbers, outer, uint};

use cy_bits::{List, NoMemory, Text};
use dsdl_types::{Body, Cast, Field, Schema, Shared};
use layout::{Layout, LayoutError, layout_of};
use std::alloc::Global;

/// A saturated unsigned integer.
fn uint(bits: u8) -> Schema
    ensures { kind_of result ≡ Typed (uint bits) }
{
    Schema::Uint {
        bits,
        cast: Cast::Saturated,
    }
}

/// A field.
fn field(alloc: Global, name: &str, schema: Schema) -> Result<Field, NoMemory>
    ensures { IfOk result (λ f. named f ≡ (name.now, kind_of schema)) }
{
    Ok(Field {
        name: Text::from_str(alloc, name)?,
        schema,
    })
}

/// A structure.
fn structure(
    alloc: Global,
    fields: Vec<Field>,
    extent: u64,
    sealed: bool,
) -> Result<Schema, NoMemory>
    ensures { IfOk result (λ s. kind_of s ≡ Typed
        (Struct (flds fields.items) (record { extent = extent; sealed = sealed }))) }
{
    Ok(Schema::Struct(Body {
        fields: Shared::new(alloc, List::new(fields))?,
        extent,
        sealed,
    }))
}

fn inner(alloc: Global) -> Result<Schema, NoMemory>
    ensures { IfOk result (λ s. kind_of s ≡ Typed inner) }
{
    let fields = vec![in alloc; field(alloc, "a", uint(8))?]?;
    structure(alloc, fields, 64, false)
}

fn outer(alloc: Global) -> Result<Schema, NoMemory>
    ensures { IfOk result (λ s. kind_of s ≡ Typed outer) }
{
    let fields = vec![in alloc;
        field(alloc, "inner", inner(alloc)?)?,
        field(alloc, "z", uint(8))?,
    ]?;
    structure(alloc, fields, 128, false)
}

fn numbers(alloc: Global) -> Result<Schema, NoMemory>
    ensures { IfOk result (λ s. kind_of s ≡ Typed numbers) }
{
    let truncated = Schema::Uint {
        bits: 8,
        cast: Cast::Truncated,
    };
    let fields = vec![in alloc; field(alloc, "a", uint(8))?, field(alloc, "b", truncated)?]?;
    structure(alloc, fields, 16, true)
}

/// The layout of a structure in another.
pub fn outer_layout(alloc: Global) -> Result<Layout, LayoutError> {
    layout_of(alloc, &outer(alloc)?)
}

/// The layout of two numbers, a saturated one and a truncated one.
pub fn numbers_layout(alloc: Global) -> Result<Layout, LayoutError> {
    layout_of(alloc, &numbers(alloc)?)
}
