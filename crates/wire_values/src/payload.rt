ghost use Rattle.std.specs.Prelude.{◌≡◌, true, IfOk, IfSome, option_map};
ghost use Rattle.dsdl_types.specs.Rules.{IsSchema};
ghost use Rattle.dsdl_types.specs.Schemas.{is_composite};
ghost use Rattle.dsdl_types.specs.Stored.{IsStored};
ghost use Rattle.dsdl_types.specs.Views.{sch, val};
ghost use Rattle.wire_values.specs.Payloads.{payload_value};

use crate::error::ReadError;
use crate::serialized::read_as;
use cy_bits::NoMemory;
use dsdl_types::{Schema, Value};
use std::alloc::Global;

/// The value of a composite schema that a payload, cut to its extent, is read as; `None` where it
/// can't be read.
pub fn payload_value(
    alloc: Global,
    schema: &Schema,
    payload: &[u8],
) -> Result<Option<Value>, NoMemory>
    requires rules { IsSchema (sch schema.now) }
    requires composite { is_composite (sch schema.now) ≡ true }
    ensures value { IfOk result (λ read.
        option_map val read ≡ payload_value (sch schema.now) payload.now) }
    ensures stored { IfOk result (λ read.
        IfSome read (λ v. IsStored (sch schema.now) (val v))) }
{
    let size = schema.extent_bytes().min(payload.len());
    match read_as(alloc, schema, &payload[..size]) {
        Ok(value) => Ok(Some(value)),
        Err(ReadError::Bad { .. }) => Ok(None),
        Err(ReadError::NoMemory) => Err(NoMemory),
    }
}
