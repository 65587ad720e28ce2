//! Whether two types are equal, names aside.
ghost use Rattle.std.specs.Prelude.{◌≡◌, ◌==◌, ◌&&◌};
ghost use Rattle.dsdl_types.specs.Difference.{same, same_bool, same_fields, same_outline};
ghost use Rattle.dsdl_types.specs.Views.{body_of, kind_of, named, sch};
ghost use Rattle.compat_check.specs.Parts.{same_kind};

use crate::primitive::same_primitives;
use dsdl_types::{Body, Schema};

/// Whether two types are equal, the names of their fields aside. Takes no memory, and time that is linear in
/// their sizes.
#[cycle(same)]
pub fn same_but_names(a: &Schema, b: &Schema) -> bool
    ensures { result ≡ same (sch a.now) (sch b.now) }
{
    match a {
        Schema::Fixed { item, len } => match b {
            Schema::Fixed {
                item: other,
                len: size,
            } => len == size && same_but_names(item.get(), other.get()),
            _ => false,
        },
        Schema::Var { item, cap } => match b {
            Schema::Var {
                item: other,
                cap: size,
            } => cap == size && same_but_names(item.get(), other.get()),
            _ => false,
        },
        Schema::Struct(body) => match b {
            Schema::Struct(other) => same_body(body, other),
            _ => false,
        },
        Schema::Union(body) => match b {
            Schema::Union(other) => same_body(body, other),
            _ => false,
        },
        _ => same_primitives(a, b),
    }
}

/// Whether two composites of one kind are equal, names aside.
#[cycle(same)]
fn same_body(a: &Body, b: &Body) -> bool
    ensures { result ≡ same_outline (body_of a.now).1 (body_of b.now).1
        && same_fields (body_of a.now).0 (body_of b.now).0 }
{
    a.extent == b.extent && a.sealed == b.sealed && same_fields(a, b)
}

/// Whether the fields of two composites are equal, names aside.
#[cycle(same)]
pub fn same_fields(a: &Body, b: &Body) -> bool
    ensures { result ≡ same_fields (body_of a.now).0 (body_of b.now).0 }
{
    if a.fields.len() != b.fields.len() {
        return false;
    }
    for (field, other) in a.fields.as_slice().iter().zip(b.fields.as_slice()) {
        if !same_kind(&field.schema, &other.schema) {
            return false;
        }
    }
    true
}

/// Whether the types of two fields are equal, names aside.
#[cycle(same)]
fn same_kind(a: &Schema, b: &Schema) -> bool
    ensures { result ≡ same_kind (kind_of a.now) (kind_of b.now) }
{
    match a {
        Schema::Void { bits } => matches!(b, Schema::Void { bits: others } if bits == others),
        _ => !b.is_padding() && same_but_names(a, b),
    }
}
