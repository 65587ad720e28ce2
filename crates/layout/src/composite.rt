ghost use Rattle.std.specs.Prelude.{◌≡◌, ℕ, ◌^◌, ◌≤◌, true, IfOk};
ghost use Rattle.bit_length.specs.Lengths.{Has, Same};
ghost use Rattle.dsdl_types.specs.Schemas.{is_composite};
ghost use Rattle.dsdl_types.specs.Greatest.{longest};
ghost use Rattle.dsdl_types.specs.Lengths.{Size};
ghost use Rattle.dsdl_types.specs.Rules.{IsFormed};
ghost use Rattle.dsdl_types.specs.Views.{type_of, named, sch};
ghost use Rattle.layout.specs.Bodies.{struct_of, union_of};
ghost use Rattle.layout.specs.Layouts.{IsLayout, cast_of};
ghost use Rattle.layout.specs.Sets.{Leads, IsShort, IsShortPart};

use crate::lengths::{is_aligned, padding, part_lengths, tag_bits};
use crate::row::{Row, cast_of};
use crate::within::{copy, join, only, pad, sum};
use bit_length::LengthSet;
use cy_bits::{List, NoMemory, TryCopy};
use dsdl_types::{Body, Field, Schema};
use std::alloc::Global;

/// The rows of a composite, and the lengths that it can have by itself (Cyphal Specification,
/// section 3.7.5).
#[derive(Drop)]
pub struct Composite {
    /// A row for each field or variant that isn't padding, in order.
    pub rows: List<Row>,
    /// The lengths in bits, without a delimiter header.
    pub lengths: LengthSet,
}

/// The rows and lengths of a composite.
pub fn rows_of(alloc: Global, schema: &Schema) -> Result<Composite, NoMemory>
    requires formed { IsFormed (sch schema.now) }
    requires short { longest (sch schema.now) ≤ 2 ^ 32 }
    requires composite { is_composite (sch schema.now) ≡ true }
    ensures { IfOk result (λ c. IsLayout (sch schema.now) c.rows c.lengths) }
{
    match schema {
        Schema::Struct(body) => struct_rows(alloc, body),
        Schema::Union(body) => union_rows(alloc, body),
        _ => unreachable!(),
    }
}

/// The rows and lengths of a structure. Its fields stand in order, and zeros bring its end to a
/// multiple of 8 bits.
pub fn struct_rows(alloc: Global, body: &Body) -> Result<Composite, NoMemory>
    requires formed { IsFormed (struct_of body.now) }
    requires short { longest (struct_of body.now) ≤ 2 ^ 32 }
    ensures { IfOk result (λ c. IsLayout (struct_of body.now) c.rows c.lengths) }
{
    let mut rows = Vec::new(alloc);
    let mut ends = only(alloc, 0)?;
    for field in body.fields.as_slice() {
        if let Some(bits) = padding(&field.schema) {
            ends = sum(&ends, &only(alloc, bits)?)?;
            continue;
        }
        let offsets = leads(ends, is_aligned(&field.schema))?;
        let row = row_of(alloc, field, offsets)?;
        ends = sum(&row.offsets, &row.lengths)?;
        rows.push(row)?;
    }
    Ok(Composite {
        rows: List::new(rows),
        lengths: pad(&ends)?,
    })
}

/// The rows and lengths of a union. Each variant stands behind the tag, and zeros bring its end to
/// a multiple of 8 bits.
pub fn union_rows(alloc: Global, body: &Body) -> Result<Composite, NoMemory>
    requires formed { IsFormed (union_of body.now) }
    requires short { longest (union_of body.now) ≤ 2 ^ 32 }
    ensures { IfOk result (λ c. IsLayout (union_of body.now) c.rows c.lengths) }
{
    let tag = only(alloc, tag_bits(body.fields.len() as u64))?;
    let mut rows = Vec::new(alloc);
    let mut lengths = None;
    for field in body.fields.as_slice() {
        let row = row_of(alloc, field, copy(&tag)?)?;
        lengths = Some(join(lengths, &row.lengths)?);
        rows.push(row)?;
    }
    match lengths {
        Some(lengths) => Ok(Composite {
            rows: List::new(rows),
            lengths: pad(&sum(&tag, &lengths)?)?,
        }),
        None => unreachable!(),
    }
}

/// Where a part begins behind one of these places: a part that has to, at a multiple of 8 bits.
fn leads(places: LengthSet, aligned: bool) -> Result<LengthSet, NoMemory>
    requires { IsShort (Leads aligned (Has places)) }
    ensures { IfOk result (λ s. Same (Has s) (Leads aligned (Has places))) }
{
    if aligned { pad(&places) } else { Ok(places) }
}

/// The row of a field that can stand at these places.
fn row_of(alloc: Global, field: &Field, offsets: LengthSet) -> Result<Row, NoMemory>
    requires formed { IsFormed (type_of (named field.now).1) }
    requires short { IsShortPart (type_of (named field.now).1) }
    ensures name { IfOk result (λ r. r.name ≡ (named field.now).0) }
    ensures offsets { IfOk result (λ r. r.offsets ≡ offsets) }
    ensures lengths { IfOk result (λ r.
        Same (Has r.lengths) (Size (type_of (named field.now).1))) }
    ensures cast { IfOk result (λ r. r.cast ≡ cast_of (type_of (named field.now).1)) }
{
    Ok(Row {
        name: field.name.copy(alloc)?,
        offsets,
        lengths: part_lengths(alloc, &field.schema)?,
        cast: cast_of(&field.schema),
    })
}
