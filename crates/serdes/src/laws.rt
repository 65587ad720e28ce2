//! The laws of writing and reading, and the call that does both.
ghost use Rattle.std.specs.Prelude.{◌≡◌, ◌*◌, ◌^◌, ◌≤◌, ℕ, List, Err, IfOk, length};
ghost use Rattle.dsdl_types.specs.Cast.{cast};
ghost use Rattle.dsdl_types.specs.Greatest.{longest};
ghost use Rattle.dsdl_types.specs.Views.{sch, val};
ghost use Rattle.wire_values.specs.Results.{IsMisfit};

use crate::serialized::{read, write};
use dsdl_types::Value;
use layout::Layout;
use std::alloc::Global;
pub use wire_values::laws::{extent_has_room, fits_or_misfit, versions_read, written_reads};
use wire_values::{ReadError, WriteError};

/// Writes a value and reads it again: the same value, with its numbers in range.
pub fn through_bytes(
    alloc: Global,
    layout: &Layout,
    value: &Value,
    out: &mut [u8],
) -> Result<Value, WriteError>
    requires room { longest (sch layout.now.schema) ≤ 8 * length out.old }
    requires small { length out.old ≤ 2 ^ 36 }
    ensures same { IfOk result (λ v. val v ≡ cast (sch layout.now.schema) (val value.now)) }
    ensures misfit { (path : List ℕ) → result ≡ Err (WriteError.Misfit path)
        → IsMisfit (sch layout.now.schema) (val value.now) path }
{
    let len = write(alloc, layout, value, out)?;
    match read(alloc, layout, &out[..len]) {
        Ok(value) => Ok(value),
        Err(ReadError::NoMemory) => Err(WriteError::NoMemory),
        Err(ReadError::Bad { .. }) => unreachable!(),
    }
}
