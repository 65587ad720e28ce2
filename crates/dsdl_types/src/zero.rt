ghost use Rattle.std.specs.Prelude.{◌≡◌, IfOk};
ghost use Rattle.dsdl_types.specs.Values.{same_items};
ghost use Rattle.dsdl_types.specs.Zero.{zero_of, zero_fields, zero_variant};
ghost use Rattle.dsdl_types.specs.Views.{sch, val, vals, body_of};

use crate::{Body, Schema, Value};
use cy_bits::{Boxed, List, NoMemory};
use std::alloc::Global;

/// The zero of a schema: what no bytes read as (Cyphal Specification, section 3.7.1). It is false,
/// 0, as many zeros as a fixed array has items, no items of a variable one, the zero of each field,
/// and the first variant with its zero.
#[cycle(zero)]
pub fn zero_of(alloc: Global, schema: &Schema) -> Result<Value, NoMemory>
    ensures { IfOk result (λ v. val v ≡ zero_of (sch schema.now)) }
{
    match schema {
        Schema::Bool => Ok(Value::Bool(false)),
        Schema::Uint { .. } | Schema::Int { .. } | Schema::Void { .. } => Ok(Value::Num(0)),
        Schema::Float { .. } => Ok(Value::Bits(0)),
        Schema::Fixed { item, len } => Ok(Value::Items(zeros(alloc, item.get(), *len)?)),
        Schema::Var { .. } => Ok(Value::Items(List::empty(alloc))),
        Schema::Struct(body) => Ok(Value::Struct(zero_fields(alloc, body)?)),
        Schema::Union(body) => Ok(Value::Union {
            tag: 0,
            value: Boxed::new(alloc, zero_variant(alloc, body)?)?,
        }),
    }
}

/// As many zeros of one schema.
#[cycle(zero)]
fn zeros(alloc: Global, schema: &Schema, len: u32) -> Result<List<Value>, NoMemory>
    ensures { IfOk result (λ vs. vals vs ≡ same_items len (zero_of (sch schema.now))) }
{
    let mut values = Vec::new(alloc);
    for _ in 0..len {
        values.push(zero_of(alloc, schema)?)?;
    }
    Ok(List::new(values))
}

/// The zero of each field that isn't padding.
#[cycle(zero)]
fn zero_fields(alloc: Global, body: &Body) -> Result<List<Value>, NoMemory>
    ensures { IfOk result (λ vs. vals vs ≡ zero_fields (body_of body.now).0) }
{
    let mut values = Vec::new(alloc);
    for field in body.fields.as_slice() {
        if !field.schema.is_padding() {
            values.push(zero_of(alloc, &field.schema)?)?;
        }
    }
    Ok(List::new(values))
}

/// The zero of the first variant.
#[cycle(zero)]
fn zero_variant(alloc: Global, body: &Body) -> Result<Value, NoMemory>
    ensures { IfOk result (λ v. val v ≡ zero_variant (body_of body.now).0) }
{
    for field in body.fields.as_slice() {
        if !field.schema.is_padding() {
            return zero_of(alloc, &field.schema);
        }
    }
    Ok(Value::Items(List::empty(alloc)))
}
