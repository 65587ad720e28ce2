ghost use Rattle.std.specs.Prelude.{◌≡◌, ◌*◌, IfOk};
ghost use Rattle.dsdl_types.specs.Schemas.{extent_of};
ghost use Rattle.dsdl_types.specs.Rules.{IsSchema};
ghost use Rattle.dsdl_types.specs.Views.{kind_of, is_padding, sch};

use crate::shared::Shared;
use cy_bits::{Boxed, List, NoMemory, Text, TryCopy};
use std::alloc::Global;

/// What is done to a number that its type doesn't hold, when it is written (Cyphal Specification, section 3.4.3).
#[derive(Clone, Copy, PartialEq, Eq, Debug)]
pub enum Cast {
    /// The nearest end of the type's range is written.
    Saturated,
    /// The low bits are written.
    Truncated,
}

/// A data type in which all names are resolved (Cyphal Specification, section 3.4).
#[derive(Drop)]
#[cycle(schema)]
pub enum Schema {
    /// A truth value, in 1 bit.
    Bool,
    /// An unsigned integer.
    Uint {
        /// Its bits, from 1 to 64.
        bits: u8,
        /// Saturated or truncated.
        cast: Cast,
    },
    /// A signed integer, which is saturated.
    Int {
        /// Its bits, from 2 to 64.
        bits: u8,
    },
    /// A floating-point number.
    Float {
        /// Its bits: 16, 32 or 64.
        bits: u8,
        /// Saturated or truncated.
        cast: Cast,
    },
    /// Padding, in a structure alone. The name of its field is empty, and a value has no entry for it.
    Void {
        /// Its bits, from 1 to 64.
        bits: u8,
    },
    /// An array of a fixed number of items.
    Fixed {
        /// The type of the items, which is no array.
        item: Boxed<Schema>,
        /// The number of items, from 1 to 2^20.
        len: u32,
    },
    /// An array of at most so many items.
    Var {
        /// The type of the items, which is no array.
        item: Boxed<Schema>,
        /// The capacity, from 1 to 2^20.
        cap: u32,
    },
    /// A structure of fields.
    Struct(Body),
    /// A union of two variants or more.
    Union(Body),
}

/// What is in a composite, which is a structure or a union (Cyphal Specification, section 3.4.5).
#[derive(Drop)]
#[cycle(schema)]
pub struct Body {
    /// The fields or variants, in order.
    pub fields: Shared<List<Field>>,
    /// The extent in bits: of a sealed composite its greatest length.
    pub extent: u64,
    /// Whether it is sealed. One that isn't is delimited.
    pub sealed: bool,
}

/// A field of a structure or a variant of a union (Cyphal Specification, section 3.5).
#[derive(Drop)]
#[cycle(schema)]
pub struct Field {
    /// Its name, which is empty for padding.
    pub name: Text,
    /// Its type.
    pub schema: Schema,
}

impl Schema {
    /// Whether it is padding, and no type of values.
    pub fn is_padding(&self) -> bool
        ensures { result ≡ is_padding (kind_of self.now) }
    {
        matches!(self, Schema::Void { .. })
    }

    /// The extent of a composite in bytes; 0 of another type. The schema keeps the rules.
    #[tactic(auto, using(crate::proofs::SchemaRules::extent_whole, crate::proofs::Views::extent_is))]
    pub fn extent_bytes(&self) -> usize
        requires { IsSchema (sch self.now) }
        ensures { 8 * result ≡ extent_of (sch self.now) }
    {
        match self {
            Schema::Struct(body) | Schema::Union(body) => (body.extent / 8) as usize,
            _ => 0,
        }
    }
}

impl TryCopy for Schema {
    #[cycle(copy_schema)]
    fn copy(&self, alloc: Global) -> Result<Schema, NoMemory> {
        match self {
            Schema::Bool => Ok(Schema::Bool),
            Schema::Uint { bits, cast } => Ok(Schema::Uint {
                bits: *bits,
                cast: *cast,
            }),
            Schema::Int { bits } => Ok(Schema::Int { bits: *bits }),
            Schema::Float { bits, cast } => Ok(Schema::Float {
                bits: *bits,
                cast: *cast,
            }),
            Schema::Void { bits } => Ok(Schema::Void { bits: *bits }),
            Schema::Fixed { item, len } => Ok(Schema::Fixed {
                item: copy_item(alloc, item)?,
                len: *len,
            }),
            Schema::Var { item, cap } => Ok(Schema::Var {
                item: copy_item(alloc, item)?,
                cap: *cap,
            }),
            Schema::Struct(body) => Ok(Schema::Struct(copy_body(alloc, body)?)),
            Schema::Union(body) => Ok(Schema::Union(copy_body(alloc, body)?)),
        }
    }
}

/// An equal item.
#[cycle(copy_schema)]
fn copy_item(alloc: Global, item: &Boxed<Schema>) -> Result<Boxed<Schema>, NoMemory>
    ensures { IfOk result (λ r. r ≡ item.now) }
{
    let item = item.get().copy(alloc)?;
    Boxed::new(alloc, item)
}

/// An equal body, which has its fields in common with this one.
fn copy_body(alloc: Global, body: &Body) -> Result<Body, NoMemory>
    ensures { IfOk result (λ r. r ≡ body.now) }
{
    Ok(Body {
        fields: body.fields.copy(alloc)?,
        extent: body.extent,
        sealed: body.sealed,
    })
}
