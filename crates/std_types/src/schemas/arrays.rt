//! The schemas of the standard types: primitives and arrays (Cyphal Specification, section 5.3.6).
ghost use Rattle.std.specs.Prelude.{◌≡◌, IfOk, codes, true};
ghost use Rattle.dsdl_types.specs.Schemas.{End, Field, Struct, Var};
ghost use Rattle.dsdl_types.specs.Views.{Typed, kind_of, sch};
ghost use Rattle.std_types.specs.Schemas.{bit, empty, integer16, integer32, integer64, integer8, natural16, natural32, natural64, natural8, real16, real32, real64, string, unstructured};

use super::words::{Fields, array, float, single, sint, uint};
use cy_bits::NoMemory;
use dsdl_types::Schema;
use std::alloc::Global;

/// `uavcan.primitive.Empty.1.0`.
pub fn empty(alloc: Global) -> Result<Schema, NoMemory>
    ensures { IfOk result (λ s. kind_of s ≡ Typed empty) }
{
    Fields::new(alloc).sealed(0)
}

/// `uavcan.primitive.String.1.0`.
pub fn string(alloc: Global) -> Result<Schema, NoMemory>
    ensures { IfOk result (λ s. kind_of s ≡ Typed string) }
{
    values(alloc, uint(8), 256, 2064)
}

/// `uavcan.primitive.Unstructured.1.0`.
pub fn unstructured(alloc: Global) -> Result<Schema, NoMemory>
    ensures { IfOk result (λ s. kind_of s ≡ Typed unstructured) }
{
    values(alloc, uint(8), 256, 2064)
}

/// `uavcan.primitive.array.Bit.1.0`.
pub fn bit(alloc: Global) -> Result<Schema, NoMemory>
    ensures { IfOk result (λ s. kind_of s ≡ Typed bit) }
{
    values(alloc, Schema::Bool, 2048, 2064)
}

/// `uavcan.primitive.array.Integer64.1.0`.
pub fn integer64(alloc: Global) -> Result<Schema, NoMemory>
    ensures { IfOk result (λ s. kind_of s ≡ Typed integer64) }
{
    values(alloc, sint(64), 32, 2056)
}

/// `uavcan.primitive.array.Integer32.1.0`.
pub fn integer32(alloc: Global) -> Result<Schema, NoMemory>
    ensures { IfOk result (λ s. kind_of s ≡ Typed integer32) }
{
    values(alloc, sint(32), 64, 2056)
}

/// `uavcan.primitive.array.Integer16.1.0`.
pub fn integer16(alloc: Global) -> Result<Schema, NoMemory>
    ensures { IfOk result (λ s. kind_of s ≡ Typed integer16) }
{
    values(alloc, sint(16), 128, 2056)
}

/// `uavcan.primitive.array.Integer8.1.0`.
pub fn integer8(alloc: Global) -> Result<Schema, NoMemory>
    ensures { IfOk result (λ s. kind_of s ≡ Typed integer8) }
{
    values(alloc, sint(8), 256, 2064)
}

/// `uavcan.primitive.array.Natural64.1.0`.
pub fn natural64(alloc: Global) -> Result<Schema, NoMemory>
    ensures { IfOk result (λ s. kind_of s ≡ Typed natural64) }
{
    values(alloc, uint(64), 32, 2056)
}

/// `uavcan.primitive.array.Natural32.1.0`.
pub fn natural32(alloc: Global) -> Result<Schema, NoMemory>
    ensures { IfOk result (λ s. kind_of s ≡ Typed natural32) }
{
    values(alloc, uint(32), 64, 2056)
}

/// `uavcan.primitive.array.Natural16.1.0`.
pub fn natural16(alloc: Global) -> Result<Schema, NoMemory>
    ensures { IfOk result (λ s. kind_of s ≡ Typed natural16) }
{
    values(alloc, uint(16), 128, 2056)
}

/// `uavcan.primitive.array.Natural8.1.0`.
pub fn natural8(alloc: Global) -> Result<Schema, NoMemory>
    ensures { IfOk result (λ s. kind_of s ≡ Typed natural8) }
{
    values(alloc, uint(8), 256, 2064)
}

/// `uavcan.primitive.array.Real64.1.0`.
pub fn real64(alloc: Global) -> Result<Schema, NoMemory>
    ensures { IfOk result (λ s. kind_of s ≡ Typed real64) }
{
    values(alloc, float(64), 32, 2056)
}

/// `uavcan.primitive.array.Real32.1.0`.
pub fn real32(alloc: Global) -> Result<Schema, NoMemory>
    ensures { IfOk result (λ s. kind_of s ≡ Typed real32) }
{
    values(alloc, float(32), 64, 2056)
}

/// `uavcan.primitive.array.Real16.1.0`.
pub fn real16(alloc: Global) -> Result<Schema, NoMemory>
    ensures { IfOk result (λ s. kind_of s ≡ Typed real16) }
{
    values(alloc, float(16), 128, 2056)
}

/// A sealed structure of one array of at most so many items, with an extent in bits.
fn values(alloc: Global, item: Schema, cap: u32, extent: u64) -> Result<Schema, NoMemory>
    ensures { IfOk result (λ s. kind_of s ≡ Typed
        (Struct (Field (codes "value") (Var (sch item) cap) End)
        (record { extent = extent; sealed = true }))) }
{
    single(alloc, "value", array(alloc, item, cap)?, extent)
}
