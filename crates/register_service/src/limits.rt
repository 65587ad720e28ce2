//! What numbers of registers are kept within.
ghost use Rattle.std.specs.Prelude.{◌≡◌, IfOk, map};
ghost use Rattle.register_service.specs.Within.{is_allowed, is_within, limits_of};

use cy_bits::{List, NoMemory};
use std::alloc::Global;
use std_types::limits::lie_within;
use std_types::register_value::RegisterValue;
use std_types::registers::{Limits, Register};

/// Whether a value is within limits, where there are any.
pub fn is_within(limits: Option<Limits>, value: &RegisterValue) -> bool
    ensures { result ≡ is_within limits value.now }
{
    match limits {
        Some(limits) => lie_within(limits, value),
        None => true,
    }
}

/// The limits of registers, in their order.
pub fn limits_of(alloc: Global, registers: &[Register]) -> Result<List<Option<Limits>>, NoMemory>
    ensures { IfOk result (λ l. l ≡ limits_of registers.now) }
{
    let mut limits = Vec::new(alloc);
    for register in registers {
        limits.push(register.limits)?;
    }
    Ok(List::new(limits))
}

/// The answer of a guard that keeps registers within these limits: yes where the value is within
/// those of the register of that number, counted from 0, and no where there is none.
pub fn is_allowed(limits: &[Option<Limits>], number: u16, value: &RegisterValue) -> bool
    ensures { result ≡ is_allowed limits.now number value.now }
{
    match limits.get(number as usize) {
        Some(limits) => is_within(*limits, value),
        None => false,
    }
}
