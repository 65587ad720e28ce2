//! The calls that write and read by a layout.
ghost use Rattle.std.specs.Prelude.{◌≡◌, ◌*◌, ◌^◌, ◌≤◌, IfOk, OnErr, length};
ghost use Rattle.dsdl_types.specs.Greatest.{longest};
ghost use Rattle.dsdl_types.specs.Laws.{Reads};
ghost use Rattle.dsdl_types.specs.Views.{sch, val};
ghost use Rattle.wire_values.specs.Results.{IsWritten, NamesMisfit, NamesRefusal};

use dsdl_types::{Shape, Value};
use layout::Layout;
use std::alloc::Global;
use wire_values::{ReadError, WriteError, read_as, write_as};

/// Writes the serialized form of a value in front of a buffer that has room for the greatest one,
/// with zeros behind, and answers the number of its bytes (Cyphal Specification, section 3.7). A
/// saturated number is brought to the nearest end of its range, and a truncated one keeps its low
/// bits. After an error the buffer is as it was.
pub fn write(
    alloc: Global,
    layout: &Layout,
    value: &Value,
    out: &mut [u8],
) -> Result<usize, WriteError>
    requires room { longest (sch layout.now.schema) ≤ 8 * length out.old }
    requires small { length out.old ≤ 2 ^ 37 }
    ensures ok { IfOk result (λ n. IsWritten (sch layout.now.schema) (val value.now) n out.new) }
    ensures misfit { NamesMisfit (sch layout.now.schema) (val value.now) result }
    ensures kept { OnErr result (out.new ≡ out.old) }
{
    write_as(alloc, &layout.schema, value, out)
}

/// Reads bytes as a value (Cyphal Specification, section 3.7). Past the end of the bytes, and past
/// that of a delimited part, zeros are read; surplus bytes are ignored.
pub fn read(alloc: Global, layout: &Layout, bytes: &[u8]) -> Result<Value, ReadError>
    requires { length bytes.now ≤ 2 ^ 36 }
    ensures ok { IfOk result (λ v. Reads (sch layout.now.schema) bytes.now (val v)) }
    ensures refused { NamesRefusal (sch layout.now.schema) bytes.now result }
{
    read_as(alloc, &layout.schema, bytes)
}
