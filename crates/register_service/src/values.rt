//! What is asked of a register's value, and copies of registers.
ghost use Rattle.std.specs.Prelude.{◌≡◌, IfOk};
ghost use Rattle.register_service.specs.Variants.{count, is_text, variant};

use cy_bits::{List, NoMemory, TryCopy};
use std::alloc::Global;
use std_types::register_value::RegisterValue;
use std_types::registers::Register;

/// The number of a value's variant, in the order of `uavcan.register.Value`; the empty one has 0.
pub fn variant(value: &RegisterValue) -> u8
    ensures { result ≡ variant value.now }
{
    match value {
        RegisterValue::Empty => 0,
        RegisterValue::String(_) => 1,
        RegisterValue::Unstructured(_) => 2,
        RegisterValue::Bit(_) => 3,
        RegisterValue::Integer64(_) => 4,
        RegisterValue::Integer32(_) => 5,
        RegisterValue::Integer16(_) => 6,
        RegisterValue::Integer8(_) => 7,
        RegisterValue::Natural64(_) => 8,
        RegisterValue::Natural32(_) => 9,
        RegisterValue::Natural16(_) => 10,
        RegisterValue::Natural8(_) => 11,
        RegisterValue::Real64(_) => 12,
        RegisterValue::Real32(_) => 13,
        RegisterValue::Real16(_) => 14,
    }
}

/// Whether a value is a string or unstructured: of any length.
pub fn is_text(value: &RegisterValue) -> bool
    ensures { result ≡ is_text value.now }
{
    matches!(
        value,
        RegisterValue::String(_) | RegisterValue::Unstructured(_)
    )
}

/// The number of a value's items.
pub fn count(value: &RegisterValue) -> usize
    ensures { result ≡ count value.now }
{
    match value {
        RegisterValue::Empty => 0,
        RegisterValue::String(bytes) | RegisterValue::Unstructured(bytes) => bytes.len(),
        RegisterValue::Bit(items) => items.len(),
        RegisterValue::Integer64(items) => items.len(),
        RegisterValue::Integer32(items) => items.len(),
        RegisterValue::Integer16(items) => items.len(),
        RegisterValue::Integer8(items) => items.len(),
        RegisterValue::Natural64(items) => items.len(),
        RegisterValue::Natural32(items) => items.len(),
        RegisterValue::Natural16(items) => items.len(),
        RegisterValue::Natural8(items) => items.len(),
        RegisterValue::Real64(items) => items.len(),
        RegisterValue::Real32(items) => items.len(),
        RegisterValue::Real16(items) => items.len(),
    }
}

/// An equal list of registers.
pub fn copy_registers(alloc: Global, registers: &[Register]) -> Result<List<Register>, NoMemory>
    ensures { IfOk result (λ l. l ≡ registers.now) }
{
    let mut list = Vec::new(alloc);
    for register in registers {
        list.push(register.copy(alloc)?)?;
    }
    Ok(List::new(list))
}
