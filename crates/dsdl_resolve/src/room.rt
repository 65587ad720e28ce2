//! The room that is left for the fields of a namespace.
ghost use Rattle.std.specs.Prelude.{◌≡◌, ◌<◌, ◌+◌, OnErr, OnOk};
ghost use Rattle.dsdl_resolve.specs.Places.{ArePlacesIn};

use crate::finding::Places;
use crate::form::message;
use const_expr::Scope;
use cy_bits::NoMemory;
use dsdl_links::type_of;
use dsdl_parse::{Reference, Scalar, Statement};
use std::alloc::Global;

/// Takes so many fields and paddings from the room that is left. Want of memory is the answer exactly
/// where there is no room for them; it stays as it was then.
fn take(fields: u32, room: &mut u32) -> Result<(), NoMemory>
    ensures taken { OnOk result (room.old ≡ fields + room.new) }
    ensures full { OnErr result (room.old < fields) }
    ensures kept { OnErr result (room.new ≡ room.old) }
{
    if fields > *room {
        return Err(NoMemory);
    }
    *room -= fields;
    Ok(())
}

/// Takes the fields and paddings of the message that a reference means, counted through nested
/// types.
fn take_message(
    alloc: Global,
    scope: &Scope,
    places: &Places,
    reference: &Reference,
    room: &mut u32,
) -> Result<(), NoMemory>
    requires { ArePlacesIn scope.now places.now }
{
    let Some(id) = type_of(alloc, &scope.own, reference)? else {
        return Ok(());
    };
    match message(scope, places, &id) {
        Some((_, counts)) => take(counts.fields, room),
        None => Ok(()),
    }
}

/// Takes the fields and paddings that a statement adds from the room that is left, counted through
/// nested types, before anything is copied. Want of memory is the answer where there is no room for
/// them (which is tested, not proved).
pub fn reserve(
    alloc: Global,
    scope: &Scope,
    places: &Places,
    statement: &Statement,
    room: &mut u32,
) -> Result<(), NoMemory>
    requires { ArePlacesIn scope.now places.now }
{
    match statement {
        Statement::Padding { .. } => take(1, room),
        Statement::Field { form, name: _ } => {
            take(1, room)?;
            match &form.scalar {
                Scalar::Reference(reference) => take_message(alloc, scope, places, reference, room),
                _ => Ok(()),
            }
        }
        _ => Ok(()),
    }
}
