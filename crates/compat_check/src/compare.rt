//! The first difference of two types (Cyphal Specification, section 3.8).
ghost use Rattle.std.specs.Prelude.{◌≡◌, ◌≢◌, ◌==◌, ◌&&◌, Bool, IfOk, OnErr, None};
ghost use Rattle.dsdl_types.specs.Difference.{Item, Kind, below, difference, difference_fields, unless};
ghost use Rattle.dsdl_types.specs.Views.{body_of, kind_of, named, sch};
ghost use Rattle.compat_check.specs.Parts.{body_difference, field_difference, kind_difference, name_of};
ghost use Rattle.compat_check.specs.Verdicts.{found_of};

use crate::difference::{Cause, Difference, below, unless};
use crate::equal::same_fields;
use crate::path::Turn;
use crate::primitive::same_primitives;
use cy_bits::{NoMemory, Text, TryCopy};
use dsdl_types::{Body, Field, Schema};
use std::alloc::Global;

/// The first difference of a new and an old type.
#[cycle(difference)]
pub fn difference(alloc: Global, new: &Schema, old: &Schema) -> Result<Option<Difference>, NoMemory>
    ensures found { IfOk result (λ d. found_of d ≡ difference (sch new.now) (sch old.now)) }
    ensures memory { OnErr result (difference (sch new.now) (sch old.now) ≢ None) }
{
    match new {
        Schema::Fixed { item, len } => match old {
            Schema::Fixed {
                item: older,
                len: size,
            } => item_difference(alloc, item.get(), older.get(), len == size),
            _ => Ok(Difference::here(alloc, Cause::Kind)),
        },
        Schema::Var { item, cap } => match old {
            Schema::Var {
                item: older,
                cap: size,
            } => item_difference(alloc, item.get(), older.get(), cap == size),
            _ => Ok(Difference::here(alloc, Cause::Kind)),
        },
        Schema::Struct(body) => match old {
            Schema::Struct(older) => {
                body_difference(alloc, body, older, body.fields.len() >= older.fields.len())
            }
            _ => Ok(Difference::here(alloc, Cause::Kind)),
        },
        Schema::Union(body) => match old {
            Schema::Union(older) => {
                body_difference(alloc, body, older, body.fields.len() == older.fields.len())
            }
            _ => Ok(Difference::here(alloc, Cause::Kind)),
        },
        _ => Ok(unless(alloc, same_primitives(new, old), Cause::Kind)),
    }
}

/// The first difference of two arrays of one kind, by their items and whether they are as long.
#[cycle(difference)]
fn item_difference(
    alloc: Global,
    new: &Schema,
    old: &Schema,
    as_long: bool,
) -> Result<Option<Difference>, NoMemory>
    ensures found { IfOk result (λ d. found_of d
        ≡ unless as_long Kind (below Item (difference (sch new.now) (sch old.now)))) }
    ensures memory { OnErr result
        (unless as_long Kind (below Item (difference (sch new.now) (sch old.now))) ≢ None) }
{
    if !as_long {
        return Ok(Difference::here(alloc, Cause::Kind));
    }
    below(difference(alloc, new, old)?, Turn::Item)
}

/// The first difference of two composites of one kind, by what is in them and whether the number of fields is allowed.
#[cycle(difference)]
fn body_difference(
    alloc: Global,
    new: &Body,
    old: &Body,
    enough: bool,
) -> Result<Option<Difference>, NoMemory>
    ensures found { IfOk result (λ d. found_of d
        ≡ body_difference enough (body_of new.now) (body_of old.now)) }
    ensures memory { OnErr result (body_difference enough (body_of new.now) (body_of old.now)
        ≢ None) }
{
    if new.sealed != old.sealed {
        return Ok(Difference::here(alloc, Cause::Sealing));
    }
    if new.extent != old.extent {
        return Ok(Difference::here(alloc, Cause::Extent));
    }
    if new.sealed {
        return Ok(unless(alloc, same_fields(new, old), Cause::Sealed));
    }
    if !enough {
        return Ok(Difference::here(alloc, Cause::Count));
    }
    fields_difference(alloc, new, old)
}

/// The first difference of fields in order. Further fields of the new type are none.
#[cycle(difference)]
fn fields_difference(alloc: Global, new: &Body, old: &Body) -> Result<Option<Difference>, NoMemory>
    ensures found { IfOk result (λ d. found_of d
        ≡ difference_fields (body_of new.now).0 (body_of old.now).0) }
    ensures memory { OnErr result (difference_fields (body_of new.now).0 (body_of old.now).0
        ≢ None) }
{
    for (field, older) in new.fields.as_slice().iter().zip(old.fields.as_slice()) {
        let found = field_difference(alloc, field, older)?;
        if found.is_some() {
            return Ok(found);
        }
    }
    Ok(None)
}

/// The first difference of two fields, with the name of the new one.
#[cycle(difference)]
fn field_difference(alloc: Global, new: &Field, old: &Field) -> Result<Option<Difference>, NoMemory>
    ensures found { IfOk result (λ d. found_of d
        ≡ field_difference (named new.now) (named old.now)) }
    ensures memory { OnErr result (field_difference (named new.now) (named old.now) ≢ None) }
{
    match kind_difference(alloc, &new.schema, &old.schema)? {
        None => Ok(None),
        Some(found) => below(Some(found), Turn::Named(name_of(alloc, new)?)),
    }
}

/// The name of a field, which is empty for padding.
fn name_of(alloc: Global, field: &Field) -> Result<Text, NoMemory>
    ensures { IfOk result (λ name. name ≡ name_of (named field.now)) }
{
    if field.schema.is_padding() {
        Text::from_str(alloc, "")
    } else {
        field.name.copy(alloc)
    }
}

/// The first difference of the types of two fields.
#[cycle(difference)]
fn kind_difference(
    alloc: Global,
    new: &Schema,
    old: &Schema,
) -> Result<Option<Difference>, NoMemory>
    ensures found { IfOk result (λ d. found_of d
        ≡ kind_difference (kind_of new.now) (kind_of old.now)) }
    ensures memory { OnErr result (kind_difference (kind_of new.now) (kind_of old.now) ≢ None) }
{
    match new {
        Schema::Void { bits } => {
            let same = matches!(old, Schema::Void { bits: older } if bits == older);
            Ok(unless(alloc, same, Cause::Kind))
        }
        _ => {
            if old.is_padding() {
                return Ok(Difference::here(alloc, Cause::Kind));
            }
            difference(alloc, new, old)
        }
    }
}
