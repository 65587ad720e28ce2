//! The value of a register.
ghost use Rattle.std.specs.Prelude.{◌≡◌, IfOk};
ghost use Rattle.dsdl_types.specs.Values.{Tagged, inner_of, tag_of};
ghost use Rattle.dsdl_types.specs.Views.{val};
ghost use Rattle.std_types.specs.RegisterValues.{made_at, makers, variant_value};

use crate::Standard;
use crate::held::{
    byte_array, byte_array_value, float_array_value, floats, number_array_value, numbers, part,
    structure, truth_array_value, truths,
};
use cy_bits::{Boxed, Bytes, List, NoMemory, TryCopy};
use dsdl_types::Value;
use std::alloc::Global;

/// `uavcan.register.Value.1.0` (Cyphal Specification, section 5.3.10).
#[derive(Drop)]
pub enum RegisterValue {
    /// No value.
    Empty,
    /// The bytes of a text, at most 256.
    String(Bytes),
    /// Bytes, at most 256.
    Unstructured(Bytes),
    /// Truth values, at most 2,048.
    Bit(List<bool>),
    /// Signed integers, at most 32.
    Integer64(List<i64>),
    /// Signed integers, at most 64.
    Integer32(List<i32>),
    /// Signed integers, at most 128.
    Integer16(List<i16>),
    /// Signed integers, at most 256.
    Integer8(List<i8>),
    /// Unsigned integers, at most 32.
    Natural64(List<u64>),
    /// Unsigned integers, at most 64.
    Natural32(List<u32>),
    /// Unsigned integers, at most 128.
    Natural16(List<u16>),
    /// Unsigned integers, at most 256.
    Natural8(List<u8>),
    /// The raw bits of floats, at most 32.
    Real64(List<u64>),
    /// The raw bits of floats, at most 64.
    Real32(List<u32>),
    /// The raw bits of floats, at most 128.
    Real16(List<u16>),
}

impl Standard for RegisterValue {
    ghost use Rattle.std_types.specs.RegisterValueLaws.{variant_back, variant_forth};
    ghost use Rattle.std_types.specs.RegisterValues.{FitsRegisterValue, variant_of, variant_value};
    ghost use Rattle.std_types.specs.Schemas.{register_value};

    ghost schema = { register_value };

    ghost fits = { FitsRegisterValue };

    ghost value = { variant_value };

    ghost made_of = { variant_of };

    ghost back = { variant_back };

    ghost forth = { variant_forth };

    #[tactic(auto, using(crate::proofs::Variants::variant_tagged))]
    fn to_value(&self, alloc: Global) -> Result<Value, NoMemory> {
        let value = variant_value(alloc, self)?;
        tagged(alloc, tag(self), value)
    }

    fn of_value(alloc: Global, from: &Value) -> Result<RegisterValue, NoMemory> {
        match from {
            Value::Union { tag, value } => variant(alloc, *tag, value.get()),
            _ => Ok(RegisterValue::Empty),
        }
    }
}

impl TryCopy for RegisterValue {
    fn copy(&self, alloc: Global) -> Result<RegisterValue, NoMemory> {
        Ok(match self {
            RegisterValue::Empty => RegisterValue::Empty,
            RegisterValue::String(bytes) => RegisterValue::String(bytes.copy(alloc)?),
            RegisterValue::Unstructured(bytes) => RegisterValue::Unstructured(bytes.copy(alloc)?),
            RegisterValue::Bit(items) => RegisterValue::Bit(copy_items(alloc, items)?),
            RegisterValue::Integer64(items) => RegisterValue::Integer64(copy_items(alloc, items)?),
            RegisterValue::Integer32(items) => RegisterValue::Integer32(copy_items(alloc, items)?),
            RegisterValue::Integer16(items) => RegisterValue::Integer16(copy_items(alloc, items)?),
            RegisterValue::Integer8(items) => RegisterValue::Integer8(copy_items(alloc, items)?),
            RegisterValue::Natural64(items) => RegisterValue::Natural64(copy_items(alloc, items)?),
            RegisterValue::Natural32(items) => RegisterValue::Natural32(copy_items(alloc, items)?),
            RegisterValue::Natural16(items) => RegisterValue::Natural16(copy_items(alloc, items)?),
            RegisterValue::Natural8(items) => RegisterValue::Natural8(copy_items(alloc, items)?),
            RegisterValue::Real64(items) => RegisterValue::Real64(copy_items(alloc, items)?),
            RegisterValue::Real32(items) => RegisterValue::Real32(copy_items(alloc, items)?),
            RegisterValue::Real16(items) => RegisterValue::Real16(copy_items(alloc, items)?),
        })
    }
}

/// An equal list.
pub fn copy_items<T: Copy>(alloc: Global, items: &List<T>) -> Result<List<T>, NoMemory>
    ensures { IfOk result (λ l. l ≡ items.now) }
{
    Ok(List::new(Vec::from_slice(alloc, items.as_slice())?))
}

/// The tag of a variant, which is its number in the union.
fn tag(variant: &RegisterValue) -> u32
    ensures { result ≡ tag_of (variant_value variant.now) }
{
    match variant {
        RegisterValue::Empty => 0,
        RegisterValue::String(_) => 1,
        RegisterValue::Unstructured(_) => 2,
        RegisterValue::Bit(_) => 3,
        RegisterValue::Integer64(_) => 4,
        RegisterValue::Integer32(_) => 5,
        RegisterValue::Integer16(_) => 6,
        RegisterValue::Integer8(_) => 7,
        RegisterValue::Natural64(_) => 8,
        RegisterValue::Natural32(_) => 9,
        RegisterValue::Natural16(_) => 10,
        RegisterValue::Natural8(_) => 11,
        RegisterValue::Real64(_) => 12,
        RegisterValue::Real32(_) => 13,
        RegisterValue::Real16(_) => 14,
    }
}

/// The value of what a variant has.
fn variant_value(alloc: Global, variant: &RegisterValue) -> Result<Value, NoMemory>
    ensures { IfOk result (λ v. val v ≡ inner_of (variant_value variant.now)) }
{
    match variant {
        RegisterValue::Empty => Ok(structure(Vec::new(alloc))),
        RegisterValue::String(items) => byte_array_value(alloc, items),
        RegisterValue::Unstructured(items) => byte_array_value(alloc, items),
        RegisterValue::Bit(items) => truth_array_value(alloc, items),
        RegisterValue::Integer64(items) => number_array_value(alloc, items),
        RegisterValue::Integer32(items) => number_array_value(alloc, items),
        RegisterValue::Integer16(items) => number_array_value(alloc, items),
        RegisterValue::Integer8(items) => number_array_value(alloc, items),
        RegisterValue::Natural64(items) => number_array_value(alloc, items),
        RegisterValue::Natural32(items) => number_array_value(alloc, items),
        RegisterValue::Natural16(items) => number_array_value(alloc, items),
        RegisterValue::Natural8(items) => number_array_value(alloc, items),
        RegisterValue::Real64(items) => float_array_value(alloc, items),
        RegisterValue::Real32(items) => float_array_value(alloc, items),
        RegisterValue::Real16(items) => float_array_value(alloc, items),
    }
}

/// The value of a union, by the tag and the value of its variant.
fn tagged(alloc: Global, tag: u32, value: Value) -> Result<Value, NoMemory>
    ensures { IfOk result (λ v. val v ≡ Tagged tag (val value)) }
{
    Ok(Value::Union {
        tag,
        value: Boxed::new(alloc, value)?,
    })
}

/// The variant of a tag, by its value; the empty one of another tag.
fn variant(alloc: Global, tag: u32, value: &Value) -> Result<RegisterValue, NoMemory>
    ensures { IfOk result (λ v. v ≡ made_at makers tag (val value.now)) }
{
    match tag {
        0 => Ok(RegisterValue::Empty),
        1 => Ok(RegisterValue::String(byte_array(alloc, value)?)),
        2 => Ok(RegisterValue::Unstructured(byte_array(alloc, value)?)),
        3 => Ok(RegisterValue::Bit(truths(alloc, part(value, 0))?)),
        4 => Ok(RegisterValue::Integer64(numbers(alloc, part(value, 0))?)),
        5 => Ok(RegisterValue::Integer32(numbers(alloc, part(value, 0))?)),
        6 => Ok(RegisterValue::Integer16(numbers(alloc, part(value, 0))?)),
        7 => Ok(RegisterValue::Integer8(numbers(alloc, part(value, 0))?)),
        8 => Ok(RegisterValue::Natural64(numbers(alloc, part(value, 0))?)),
        9 => Ok(RegisterValue::Natural32(numbers(alloc, part(value, 0))?)),
        10 => Ok(RegisterValue::Natural16(numbers(alloc, part(value, 0))?)),
        11 => Ok(RegisterValue::Natural8(numbers(alloc, part(value, 0))?)),
        12 => Ok(RegisterValue::Real64(floats(alloc, part(value, 0))?)),
        13 => Ok(RegisterValue::Real32(floats(alloc, part(value, 0))?)),
        14 => Ok(RegisterValue::Real16(floats(alloc, part(value, 0))?)),
        _ => Ok(RegisterValue::Empty),
    }
}
