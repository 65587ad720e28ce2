//! What a payload says, before its text.
ghost use Rattle.std.specs.Prelude.{◌≡◌, IfOk, Some};
ghost use Rattle.dsdl_types.specs.Views.{sch};
ghost use Rattle.report_lines.specs.Readings.{reading_of};
ghost use Rattle.json_lines.specs.Said.{FitsSaid, reading_as};

use cy_bits::{NoMemory, Text};
use dsdl_types::laws::{readings_stored, rules_suffice, same_values};
use dsdl_types::{ReadWhy, Shape, Value};
use report_lines::CompiledShape;
use std::alloc::Global;
use wire_values::{ReadError, read_as};

/// What a payload says on a port with a type.
#[derive(Drop)]
pub enum Said {
    /// A value of the type.
    Value(Value),
    /// No value: the bytes can't be read.
    Bad {
        /// The path to the part that is refused first in reading order.
        path: Text,
        /// Why it is refused, with the number that was read.
        why: ReadWhy,
    },
}

/// Reads the bytes of a payload up to the extent of its type. The one error is want of memory.
pub fn read_payload(alloc: Global, shape: &CompiledShape, payload: &[u8]) -> Result<Said, NoMemory>
    ensures reading { IfOk result (λ said. reading_as (sch shape.now.schema) said
        ≡ reading_of (Some (sch shape.now.schema)) payload.now) }
    ensures fits { IfOk result (λ said. FitsSaid (sch shape.now.schema) said) }
{
    rules_suffice();
    readings_stored();
    same_values();
    let kept = &payload[..payload.len().min(shape.extent_bytes())];
    match read_as(alloc, &shape.schema, kept) {
        Ok(value) => Ok(Said::Value(value)),
        Err(ReadError::Bad { path, why }) => Ok(Said::Bad { path, why }),
        Err(ReadError::NoMemory) => Err(NoMemory),
    }
}
