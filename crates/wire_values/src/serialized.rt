//! The calls that write and read.
ghost use Rattle.std.specs.Prelude.{◌≡◌, ◌*◌, ◌^◌, ◌≤◌, true, IfOk, OnErr, length};
ghost use Rattle.dsdl_types.specs.Greatest.{longest};
ghost use Rattle.dsdl_types.specs.Laws.{Reads};
ghost use Rattle.dsdl_types.specs.Rules.{IsSchema};
ghost use Rattle.dsdl_types.specs.Schemas.{is_composite};
ghost use Rattle.dsdl_types.specs.Views.{sch, val};
ghost use Rattle.wire_values.specs.Results.{IsWritten, NamesMisfit, NamesRefusal};

use crate::error::{ReadError, WriteError};
use crate::fitting::write_fitting;
use crate::misfit::misfit;
use crate::path::path_of;
use crate::reader::read_own;
use crate::stop::{Refusal, Stop};
use cy_bits::BitReader;
use dsdl_types::{Schema, Value};
use std::alloc::Global;

/// Writes the serialized form of a value of a schema in front of a buffer that has room for the
/// greatest one, with zeros behind, and answers the number of its bytes (Cyphal Specification,
/// section 3.7). A saturated number is brought to the nearest end of its range, and a truncated one
/// keeps its low bits. After an error the buffer is as it was.
pub fn write_as(
    alloc: Global,
    schema: &Schema,
    value: &Value,
    out: &mut [u8],
) -> Result<usize, WriteError>
    requires rules { IsSchema (sch schema.now) }
    requires room { longest (sch schema.now) ≤ 8 * length out.old }
    requires small { length out.old ≤ 2 ^ 37 }
    ensures ok { IfOk result (λ n. IsWritten (sch schema.now) (val value.now) n out.new) }
    ensures misfit { NamesMisfit (sch schema.now) (val value.now) result }
    ensures kept { OnErr result (out.new ≡ out.old) }
{
    match misfit(alloc, schema, value)? {
        None => Ok(write_fitting(schema, value, out)),
        Some(steps) => {
            let path = path_of(alloc, steps)?;
            Err(WriteError::Misfit { path })
        }
    }
}

/// Reads bytes as a value of a composite schema (Cyphal Specification, section 3.7). Past the end
/// of the bytes, and past that of a delimited part, zeros are read; surplus bytes are ignored.
pub fn read_as(alloc: Global, schema: &Schema, bytes: &[u8]) -> Result<Value, ReadError>
    requires rules { IsSchema (sch schema.now) }
    requires composite { is_composite (sch schema.now) ≡ true }
    requires small { length bytes.now ≤ 2 ^ 36 }
    ensures ok { IfOk result (λ v. Reads (sch schema.now) bytes.now (val v)) }
    ensures refused { NamesRefusal (sch schema.now) bytes.now result }
{
    let mut at = BitReader::new(bytes);
    match read_own(alloc, schema, &mut at) {
        Ok(value) => Ok(value),
        Err(Stop::NoMemory) => Err(ReadError::NoMemory),
        Err(Stop::Refused(refusal)) => {
            let Refusal { steps, why } = refusal;
            let path = path_of(alloc, steps)?;
            Err(ReadError::Bad { path, why })
        }
    }
}
