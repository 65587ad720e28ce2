//! The text of a definition.
ghost use Rattle.std.specs.Prelude.{◌≡◌, OnOk, length};
ghost use Rattle.dsdl_types.specs.Definitions.{IsDefinition};
ghost use Rattle.dsdl_types.specs.Views.{sch};
ghost use Rattle.layout.specs.Layouts.{IsLayout};
ghost use Rattle.layout_text.specs.Appends.{Appends};
ghost use Rattle.layout_text.specs.Definitions.{IsDefinitionText, IsTypeText};

use crate::fields::push_fields;
use crate::head::{Role, push_named, push_outline};
use cy_bits::{NoMemory, Text};
use dsdl_names::TypeId;
use dsdl_types::{Definition, Parts, Schema};
use layout::{Composite, composite_of};
use std::alloc::Global;

/// Appends the text of a definition.
pub fn push_definition(
    alloc: Global,
    text: &mut Vec<u8>,
    definition: &Definition,
) -> Result<(), NoMemory>
    requires { IsDefinition definition.now }
    ensures { OnOk result (Appends
        (IsDefinitionText definition.now) text.old.items text.new.items) }
{
    let Definition {
        id,
        port,
        types,
        parts,
    } = definition;
    let types = types.as_slice();
    match parts {
        Parts::Message(schema) => {
            let layout = composite_of(alloc, schema)?;
            push_composite(text, Role::Message, id, *port, schema, &layout, types)
        }
        Parts::Service { request, response } => {
            let first = composite_of(alloc, request)?;
            let second = composite_of(alloc, response)?;
            let (asked, answered) = types.split_at(first.rows.len());
            push_composite(text, Role::Request, id, *port, request, &first, asked)?;
            push_composite(text, Role::Response, id, *port, response, &second, answered)
        }
    }
}

/// Appends the lines of a composite and of its fields.
fn push_composite(
    text: &mut Vec<u8>,
    role: Role,
    id: &TypeId,
    port: Option<u16>,
    schema: &Schema,
    layout: &Composite,
    types: &[Text],
) -> Result<(), NoMemory>
    requires layout { IsLayout (sch schema.now) layout.now.rows layout.now.lengths }
    requires texts { length types.now ≡ length layout.now.rows }
    ensures { OnOk result (Appends
        (IsTypeText role id.now port (sch schema.now) types.now) text.old.items text.new.items) }
{
    push_named(text, role, id, port)?;
    push_outline(text, schema, &layout.lengths)?;
    push_fields(text, schema, layout.rows.as_slice(), types)
}
