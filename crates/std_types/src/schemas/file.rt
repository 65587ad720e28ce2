//! The schemas of the standard types: files (Cyphal Specification, section 5.3.7).
ghost use Rattle.std.specs.Prelude.{◌≡◌, IfOk};
ghost use Rattle.dsdl_types.specs.Views.{Typed, kind_of};
ghost use Rattle.std_types.specs.Schemas.{file_error, file_list_reply, file_list_request, info_reply, info_request, path, read_reply, read_request};

use super::arrays::unstructured;
use super::words::{Fields, bytes, single, truncated, uint};
use cy_bits::NoMemory;
use dsdl_types::Schema;
use std::alloc::Global;

/// `uavcan.file.Path.2.0`.
pub fn path(alloc: Global) -> Result<Schema, NoMemory>
    ensures { IfOk result (λ s. kind_of s ≡ Typed path) }
{
    single(alloc, "path", bytes(alloc, 255)?, 2048)
}

/// `uavcan.file.Error.1.0`.
pub fn file_error(alloc: Global) -> Result<Schema, NoMemory>
    ensures { IfOk result (λ s. kind_of s ≡ Typed file_error) }
{
    single(alloc, "value", uint(16), 16)
}

/// `uavcan.file.GetInfo.1.0`, with the port 405.
pub fn info_request(alloc: Global) -> Result<Schema, NoMemory>
    ensures { IfOk result (λ s. kind_of s ≡ Typed info_request) }
{
    let fields = Fields::new(alloc).with("path", path(alloc)?)?;
    fields.of_extent(2400)
}

/// Its reply.
pub fn info_reply(alloc: Global) -> Result<Schema, NoMemory>
    ensures { IfOk result (λ s. kind_of s ≡ Typed info_reply) }
{
    let fields = Fields::new(alloc)
        .with("error", file_error(alloc)?)?
        .with("size", truncated(40))?
        .with("unix_timestamp_of_last_modification", truncated(40))?
        .with("is_file_not_directory", Schema::Bool)?
        .with("is_link", Schema::Bool)?
        .with("is_readable", Schema::Bool)?
        .with("is_writeable", Schema::Bool)?
        .padded(4)?;
    fields.of_extent(384)
}

/// `uavcan.file.List.1.0`, with the port 406.
pub fn file_list_request(alloc: Global) -> Result<Schema, NoMemory>
    ensures { IfOk result (λ s. kind_of s ≡ Typed file_list_request) }
{
    let fields = Fields::new(alloc)
        .with("entry_index", uint(32))?
        .padded(32)?
        .with("directory_path", path(alloc)?)?;
    fields.of_extent(2400)
}

/// Its reply.
pub fn file_list_reply(alloc: Global) -> Result<Schema, NoMemory>
    ensures { IfOk result (λ s. kind_of s ≡ Typed file_list_reply) }
{
    let fields = Fields::new(alloc)
        .padded(32)?
        .with("entry_base_name", path(alloc)?)?;
    fields.of_extent(2400)
}

/// `uavcan.file.Read.1.0`, with the port 408.
pub fn read_request(alloc: Global) -> Result<Schema, NoMemory>
    ensures { IfOk result (λ s. kind_of s ≡ Typed read_request) }
{
    let fields = Fields::new(alloc)
        .with("offset", truncated(40))?
        .with("path", path(alloc)?)?;
    fields.of_extent(2400)
}

/// Its reply.
pub fn read_reply(alloc: Global) -> Result<Schema, NoMemory>
    ensures { IfOk result (λ s. kind_of s ≡ Typed read_reply) }
{
    let fields = Fields::new(alloc)
        .with("error", file_error(alloc)?)?
        .with("data", unstructured(alloc)?)?;
    fields.of_extent(2400)
}
