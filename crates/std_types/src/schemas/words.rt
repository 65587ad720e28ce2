//! The words of a schema (Cyphal Specification, section 3.4).
ghost use Rattle.std.specs.Prelude.{◌≡◌, IfOk, [], true, false};
ghost use Rattle.dsdl_types.specs.Schemas.{End, Fixed, Struct, Union, Var};
ghost use Rattle.dsdl_types.specs.Views.{Padding, Typed, flds, kind_of, sch, with_field};
ghost use Rattle.std_types.specs.FieldRows.{and_field};
ghost use Rattle.std_types.specs.Schemas.{bytes, float, sint, truncated, uint};

use cy_bits::{Boxed, List, NoMemory, Text};
use dsdl_types::{Body, Cast, Field, Schema, Shared};
use std::alloc::Global;

/// A saturated unsigned integer.
pub fn uint(bits: u8) -> Schema
    ensures { kind_of result ≡ Typed (uint bits) }
{
    Schema::Uint {
        bits,
        cast: Cast::Saturated,
    }
}

/// A truncated unsigned integer.
pub fn truncated(bits: u8) -> Schema
    ensures { kind_of result ≡ Typed (truncated bits) }
{
    Schema::Uint {
        bits,
        cast: Cast::Truncated,
    }
}

/// A signed integer.
pub fn sint(bits: u8) -> Schema
    ensures { kind_of result ≡ Typed (sint bits) }
{
    Schema::Int { bits }
}

/// A saturated float.
pub fn float(bits: u8) -> Schema
    ensures { kind_of result ≡ Typed (float bits) }
{
    Schema::Float {
        bits,
        cast: Cast::Saturated,
    }
}

/// An array of at most so many items.
pub fn array(alloc: Global, item: Schema, cap: u32) -> Result<Schema, NoMemory>
    ensures { IfOk result (λ s. kind_of s ≡ Typed (Var (sch item) cap)) }
{
    Ok(Schema::Var {
        item: Boxed::new(alloc, item)?,
        cap,
    })
}

/// An array of so many items.
pub fn fixed(alloc: Global, item: Schema, len: u32) -> Result<Schema, NoMemory>
    ensures { IfOk result (λ s. kind_of s ≡ Typed (Fixed (sch item) len)) }
{
    Ok(Schema::Fixed {
        item: Boxed::new(alloc, item)?,
        len,
    })
}

/// An array of at most so many bytes.
pub fn bytes(alloc: Global, cap: u32) -> Result<Schema, NoMemory>
    ensures { IfOk result (λ s. kind_of s ≡ Typed (bytes cap)) }
{
    array(alloc, uint(8), cap)
}

/// A sealed structure of one field, with an extent in bits.
pub fn single(alloc: Global, name: &str, schema: Schema, extent: u64) -> Result<Schema, NoMemory>
    ensures { IfOk result (λ s. kind_of s ≡ Typed
        (Struct (with_field name.now (kind_of schema) End)
        (record { extent = extent; sealed = true }))) }
{
    Fields::new(alloc).with(name, schema)?.sealed(extent)
}

/// The fields of a structure or the variants of a union, in order.
#[derive(Drop)]
pub struct Fields {
    alloc: Global,
    fields: List<Field>,
}

impl Fields {
    /// No fields.
    pub fn new(alloc: Global) -> Fields
        ensures { flds result.fields ≡ End }
    {
        Fields {
            alloc,
            fields: List::empty(alloc),
        }
    }

    /// One more field or variant, behind the others.
    #[tactic(auto, using(crate::proofs::FieldRows::flds_push))]
    pub fn with(mut self, name: &str, schema: Schema) -> Result<Fields, NoMemory>
        ensures { IfOk result (λ fs. flds fs.fields
            ≡ and_field (flds self.fields) name.now (kind_of schema)) }
    {
        let name = Text::from_str(self.alloc, name)?;
        self.fields.push(Field { name, schema })?;
        Ok(self)
    }

    /// So many bits of padding behind the fields.
    pub fn padded(self, bits: u8) -> Result<Fields, NoMemory>
        ensures { IfOk result (λ fs. flds fs.fields
            ≡ and_field (flds self.fields) [] (Padding bits)) }
    {
        self.with("", Schema::Void { bits })
    }

    /// A sealed structure of these fields, with an extent in bits.
    pub fn sealed(self, extent: u64) -> Result<Schema, NoMemory>
        ensures { IfOk result (λ s. kind_of s ≡ Typed
            (Struct (flds self.fields) (record { extent = extent; sealed = true }))) }
    {
        Ok(Schema::Struct(Body {
            fields: Shared::new(self.alloc, self.fields)?,
            extent,
            sealed: true,
        }))
    }

    /// A sealed union of these variants, with an extent in bits.
    pub fn sealed_union(self, extent: u64) -> Result<Schema, NoMemory>
        ensures { IfOk result (λ s. kind_of s ≡ Typed
            (Union (flds self.fields) (record { extent = extent; sealed = true }))) }
    {
        Ok(Schema::Union(Body {
            fields: Shared::new(self.alloc, self.fields)?,
            extent,
            sealed: true,
        }))
    }

    /// A delimited structure of these fields, with an extent in bits.
    pub fn of_extent(self, extent: u64) -> Result<Schema, NoMemory>
        ensures { IfOk result (λ s. kind_of s ≡ Typed
            (Struct (flds self.fields) (record { extent = extent; sealed = false }))) }
    {
        Ok(Schema::Struct(Body {
            fields: Shared::new(self.alloc, self.fields)?,
            extent,
            sealed: false,
        }))
    }
}
