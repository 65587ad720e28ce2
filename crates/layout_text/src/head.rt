//! The first line of a composite.
ghost use Rattle.std.specs.Prelude.{◌≡◌, [], ◌∷◌, ◌++◌, OnOk};
ghost use Rattle.dsdl_types.specs.Schemas.{extent_of, is_delimited};
ghost use Rattle.dsdl_types.specs.Views.{sch};
ghost use Rattle.layout_text.specs.Heads.{half_text, kind_text, named_words, outline_words, port_text, sealing_text, type_name};
ghost use Rattle.bit_length.specs.Ascending.{Ascend};
ghost use Rattle.layout_text.specs.Sets.{set_text};
ghost use Rattle.layout_text.specs.Words.{line_of, spaced};

use crate::set::push_set;
use crate::words::{push_bytes, push_number};
use bit_length::LengthSet;
use cy_bits::NoMemory;
use dsdl_names::TypeId;
use dsdl_types::Schema;

/// What a composite is used for.
#[derive(Clone, Copy)]
pub enum Role {
    /// A message, or a part of other types.
    Message,
    /// The requests of a service.
    Request,
    /// The responses of a service.
    Response,
}

/// Appends what a composite is named, what it is used for, and its port.
pub fn push_named(
    text: &mut Vec<u8>,
    role: Role,
    id: &TypeId,
    port: Option<u16>,
) -> Result<(), NoMemory>
    ensures { OnOk result (text.new.items ≡ text.old.items
        ++ spaced (named_words role id.now port)) }
{
    push_bytes(text, b"type ")?;
    push_id(text, id)?;
    push_bytes(text, label(role))?;
    push_port(text, port)?;
    push_bytes(text, b" ")
}

/// What stands between the name and the port.
fn label(role: Role) -> &'static [u8]
    ensures { result.now ≡ half_text role ++ 32 ∷ (kind_text role ++ 32 ∷ []) }
{
    match role {
        Role::Message => b" message ",
        Role::Request => b".Request service ",
        Role::Response => b".Response service ",
    }
}

/// Appends a dotted name with its version.
fn push_id(text: &mut Vec<u8>, id: &TypeId) -> Result<(), NoMemory>
    ensures { OnOk result (text.new.items ≡ text.old.items ++ type_name id.now) }
{
    push_bytes(text, id.name.as_bytes())?;
    push_bytes(text, b".")?;
    push_number(text, id.major as u64)?;
    push_bytes(text, b".")?;
    push_number(text, id.minor as u64)
}

/// Appends a port, where there is one.
fn push_port(text: &mut Vec<u8>, port: Option<u16>) -> Result<(), NoMemory>
    ensures { OnOk result (text.new.items ≡ text.old.items ++ port_text port) }
{
    match port {
        Some(port) => push_number(text, port as u64),
        None => push_bytes(text, b"-"),
    }
}

/// Appends the extent of a composite in bits, whether it is sealed, and its lengths.
pub fn push_outline(
    text: &mut Vec<u8>,
    schema: &Schema,
    lengths: &LengthSet,
) -> Result<(), NoMemory>
    ensures text { OnOk result
        (text.new.items ≡ text.old.items
        ++ line_of (outline_words (sch schema.now) (set_text lengths.now))) }
    ensures ascending { OnOk result (Ascend lengths.now) }
{
    push_bytes(text, b"extent ")?;
    push_number(text, extent(schema))?;
    push_bytes(text, sealing(is_delimited(schema)))?;
    push_bytes(text, b"lengths ")?;
    push_set(text, lengths)?;
    push_bytes(text, b"\n")
}

/// Whether a composite is sealed, as a word.
fn sealing(delimited: bool) -> &'static [u8]
    ensures { result.now ≡ 32 ∷ (sealing_text delimited ++ 32 ∷ []) }
{
    if delimited {
        b" delimited "
    } else {
        b" sealed "
    }
}

/// The extent of a composite, in bits.
#[tactic(auto, using(dsdl_types::proofs::Views::body_is))]
fn extent(schema: &Schema) -> u64
    ensures { result ≡ extent_of (sch schema.now) }
{
    match schema {
        Schema::Struct(body) | Schema::Union(body) => body.extent,
        _ => 0,
    }
}

/// Whether a schema is a delimited composite.
#[tactic(auto, using(dsdl_types::proofs::Views::body_is))]
fn is_delimited(schema: &Schema) -> bool
    ensures { result ≡ is_delimited (sch schema.now) }
{
    match schema {
        Schema::Struct(body) | Schema::Union(body) => !body.sealed,
        _ => false,
    }
}
