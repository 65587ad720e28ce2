use crate::register_value::RegisterValue;
use cy_bits::{NoMemory, Text, TryCopy};
use std::alloc::Global;

/// A register of a node (Cyphal Specification, section 5.3.10): a named value that others read, and
/// write where it is mutable.
#[derive(Drop)]
pub struct Register {
    /// Its name.
    pub name: Text,
    /// Whether others can write it.
    pub mutable: bool,
    /// Its value.
    pub value: RegisterValue,
    /// What its numbers are kept within, where there are limits.
    pub limits: Option<Limits>,
}

impl TryCopy for Register {
    fn copy(&self, alloc: Global) -> Result<Register, NoMemory> {
        Ok(Register {
            name: self.name.copy(alloc)?,
            mutable: self.mutable,
            value: self.value.copy(alloc)?,
            limits: self.limits,
        })
    }
}

/// What the numbers of a register of integers are kept within.
#[derive(Clone, Copy)]
pub struct Limits {
    /// The least number.
    pub low: i128,
    /// The greatest number.
    pub high: i128,
}
