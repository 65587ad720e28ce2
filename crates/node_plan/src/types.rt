//! The message type that a word names.
ghost use Rattle.std.specs.Prelude.{◌≡◌, IfOk, IfSome};
ghost use Rattle.dsdl_types.specs.Definitions.{IsDefinition, IsNamespace};
ghost use Rattle.node_plan.specs.IsPlan.{IsShape};
ghost use Rattle.node_plan.specs.Types.{message_with, shape_named};

use crate::plan::SubShape;
use cy_bits::{NoMemory, TryCopy};
use dsdl_names::{NameError, parse_type_id};
use dsdl_types::{Definition, Namespace, Parts};
use std::alloc::Global;

/// What a payload is read as where this word is the type, or nothing where it names no message of
/// the namespace.
pub fn shape_named(
    alloc: Global,
    names: &Namespace,
    word: &[u8],
) -> Result<Option<SubShape>, NoMemory>
    requires { IsNamespace names.now }
    ensures value { IfOk result (λ shape. shape ≡ shape_named names.now word.now) }
    ensures sound { IfOk result (λ shape. IfSome shape IsShape) }
{
    let Ok(text) = str::from_utf8(word) else {
        return Ok(None);
    };
    match parse_type_id(alloc, text) {
        Ok(id) => match names.find(&id) {
            Some(definition) => message_in(alloc, definition),
            None => Ok(None),
        },
        Err(NameError::NoMemory) => Err(NoMemory),
        Err(_) => Ok(None),
    }
}

/// The message of a definition, or nothing where it is a service.
fn message_in(alloc: Global, definition: &Definition) -> Result<Option<SubShape>, NoMemory>
    requires { IsDefinition definition.now }
    ensures value { IfOk result (λ shape.
        shape ≡ message_with definition.now.id definition.now.parts) }
    ensures sound { IfOk result (λ shape. IfSome shape IsShape) }
{
    match &definition.parts {
        Parts::Message(schema) => Ok(Some(SubShape::Named {
            id: definition.id.copy(alloc)?,
            schema: schema.copy(alloc)?,
        })),
        Parts::Service { .. } => Ok(None),
    }
}
