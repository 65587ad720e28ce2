//! Whether the fields of two types have the same names.
ghost use Rattle.std.specs.Prelude.{◌≡◌};
ghost use Rattle.dsdl_types.specs.Views.{body_of, named, sch};
ghost use Rattle.type_changes.specs.Names.{same_field, same_field_names, same_names};

use dsdl_types::{Body, Field, Schema};

/// Whether the fields of two types that are equal, names aside, have the same names.
#[cycle(names)]
pub fn same_names(new: &Schema, old: &Schema) -> bool
    ensures { result ≡ same_names (sch new.now) (sch old.now) }
{
    match new {
        Schema::Fixed { item, .. } => match old {
            Schema::Fixed { item: older, .. } => same_names(item.get(), older.get()),
            _ => true,
        },
        Schema::Var { item, .. } => match old {
            Schema::Var { item: older, .. } => same_names(item.get(), older.get()),
            _ => true,
        },
        Schema::Struct(body) => match old {
            Schema::Struct(older) => same_field_names(body, older),
            _ => true,
        },
        Schema::Union(body) => match old {
            Schema::Union(older) => same_field_names(body, older),
            _ => true,
        },
        _ => true,
    }
}

/// Whether the fields of two composites have the same names, pair by pair, and so have theirs.
#[cycle(names)]
fn same_field_names(new: &Body, old: &Body) -> bool
    ensures { result ≡ same_field_names (body_of new.now).0 (body_of old.now).0 }
{
    for (field, older) in new.fields.as_slice().iter().zip(old.fields.as_slice()) {
        if !same_field(field, older) {
            return false;
        }
    }
    true
}

/// Whether two fields have the same name, and so have the fields of their types. Padding has none.
#[cycle(names)]
fn same_field(new: &Field, old: &Field) -> bool
    ensures { result ≡ same_field (named new.now) (named old.now) }
{
    if new.schema.is_padding() || old.schema.is_padding() {
        return true;
    }
    new.name.as_str() == old.name.as_str() && same_names(&new.schema, &old.schema)
}
