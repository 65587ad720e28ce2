//! The schemas of the standard types: registers (Cyphal Specification, section 5.3.10).
ghost use Rattle.std.specs.Prelude.{◌≡◌, IfOk};
ghost use Rattle.dsdl_types.specs.Views.{Typed, kind_of};
ghost use Rattle.std_types.specs.Schemas.{access_reply, access_request, list_reply, list_request, register_name, register_value};

use super::arrays::{
    bit, empty, integer8, integer16, integer32, integer64, natural8, natural16, natural32,
    natural64, real16, real32, real64, string, unstructured,
};
use super::node::synchronized_timestamp;
use super::words::{Fields, bytes, single, uint};
use cy_bits::NoMemory;
use dsdl_types::Schema;
use std::alloc::Global;

/// `uavcan.register.Name.1.0`.
pub fn register_name(alloc: Global) -> Result<Schema, NoMemory>
    ensures { IfOk result (λ s. kind_of s ≡ Typed register_name) }
{
    single(alloc, "name", bytes(alloc, 255)?, 2048)
}

/// `uavcan.register.Value.1.0`.
pub fn register_value(alloc: Global) -> Result<Schema, NoMemory>
    ensures { IfOk result (λ s. kind_of s ≡ Typed register_value) }
{
    let fields = Fields::new(alloc)
        .with("empty", empty(alloc)?)?
        .with("string", string(alloc)?)?
        .with("unstructured", unstructured(alloc)?)?
        .with("bit", bit(alloc)?)?
        .with("integer64", integer64(alloc)?)?
        .with("integer32", integer32(alloc)?)?
        .with("integer16", integer16(alloc)?)?
        .with("integer8", integer8(alloc)?)?
        .with("natural64", natural64(alloc)?)?
        .with("natural32", natural32(alloc)?)?
        .with("natural16", natural16(alloc)?)?
        .with("natural8", natural8(alloc)?)?
        .with("real64", real64(alloc)?)?
        .with("real32", real32(alloc)?)?
        .with("real16", real16(alloc)?)?;
    fields.sealed_union(2072)
}

/// `uavcan.register.Access.1.0`, with the port 384.
pub fn access_request(alloc: Global) -> Result<Schema, NoMemory>
    ensures { IfOk result (λ s. kind_of s ≡ Typed access_request) }
{
    let fields = Fields::new(alloc)
        .with("name", register_name(alloc)?)?
        .with("value", register_value(alloc)?)?;
    fields.of_extent(4120)
}

/// Its reply.
pub fn access_reply(alloc: Global) -> Result<Schema, NoMemory>
    ensures { IfOk result (λ s. kind_of s ≡ Typed access_reply) }
{
    let fields = Fields::new(alloc)
        .with("timestamp", synchronized_timestamp(alloc)?)?
        .with("mutable", Schema::Bool)?
        .with("persistent", Schema::Bool)?
        .padded(6)?
        .with("value", register_value(alloc)?)?;
    fields.of_extent(2136)
}

/// `uavcan.register.List.1.0`, with the port 385.
pub fn list_request(alloc: Global) -> Result<Schema, NoMemory>
    ensures { IfOk result (λ s. kind_of s ≡ Typed list_request) }
{
    single(alloc, "index", uint(16), 16)
}

/// Its reply.
pub fn list_reply(alloc: Global) -> Result<Schema, NoMemory>
    ensures { IfOk result (λ s. kind_of s ≡ Typed list_reply) }
{
    single(alloc, "name", register_name(alloc)?, 2048)
}
