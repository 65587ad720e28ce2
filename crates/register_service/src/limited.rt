//! Registers that are kept within their limits.
ghost use Rattle.std.specs.Prelude.{◌≡◌, ◌≤◌, IfOk, IfSome, OnErr, length};
ghost use Rattle.std.specs.Option.{option_copied};
ghost use Rattle.std_types.specs.RegisterValues.{FitsRegisterValue};
ghost use Rattle.std_types.specs.Registers.{FitsAccessReply};
ghost use Rattle.register_service.specs.Kept.{AreKept};
ghost use Rattle.register_service.specs.RegisterMap.{access_reply, after_access, name_at};
ghost use Rattle.register_service.specs.Within.{is_allowed, limits_of};

use crate::limits::{is_allowed, limits_of};
use crate::register_list::{access, name};
use crate::values::copy_registers;
use cy_bits::{List, NoMemory};
use std::alloc::Global;
use std::marker::Model;
use std_types::register::AccessReply;
use std_types::register_value::RegisterValue;
use std_types::registers::{Limits, Register};

/// The registers of a node, each kept within its limits (Cyphal Specification, section 5.3.10). A
/// clause sees the list of the registers, in which the number of a register is its place.
#[derive(Drop)]
pub struct Limited {
    list: Vec<Register>,
    limits: List<Option<Limits>>,
    alloc: Global,
}

impl Model for Limited {
    ghost use Rattle.std.specs.Prelude.{List as ListOf, ◌≡◌};
    ghost use Rattle.std_types.specs.declared.registers.Register.{Register};
    ghost use Rattle.register_service.specs.Kept.{AreKept};
    ghost use Rattle.register_service.specs.Within.{limits_of};

    ghost Value = { ListOf Register };

    ghost view = { λ r. r.list.items };

    ghost invariant = { λ r. AreKept r.list.items × (r.limits ≡ limits_of r.list.items) };
}

impl Limited {
    /// A copy of registers: at most 256, whose names differ and have at most 255 bytes, whose
    /// arrays are within their capacities, and each within its limits. Want of memory is the only
    /// refusal.
    pub fn open(alloc: Global, registers: &[Register]) -> Result<Limited, NoMemory>
        requires { AreKept registers.now }
        ensures { IfOk result (λ r. r ≡ registers.now) }
    {
        let limits = limits_of(alloc, registers)?;
        let list = copy_registers(alloc, registers)?.into_vec();
        Ok(Limited {
            list,
            limits,
            alloc,
        })
    }

    /// Reads the register with a name, and writes it first where it takes the value.
    ///
    /// It takes a value that isn't empty, where it is mutable, the value is of its variant, has as
    /// many items (strings and unstructured aside), and is within its limits. The reply has the
    /// value after the call; of an unknown name it is empty and not mutable. Want of memory changes
    /// nothing.
    pub fn access(&mut self, name: &[u8], value: RegisterValue) -> Result<AccessReply, NoMemory>
        requires { FitsRegisterValue value }
        ensures reply { IfOk result (λ r.
            r ≡ access_reply (is_allowed (limits_of self.old)) self.old name.now value) }
        ensures left { IfOk result (λ _.
            self.new ≡ after_access (is_allowed (limits_of self.old)) self.old name.now value) }
        ensures fits { IfOk result (λ r. FitsAccessReply r) }
        ensures memory { OnErr result (self.new ≡ self.old) }
        ensures limits { limits_of self.new ≡ limits_of self.old }
        ensures kept { AreKept self.new }
    {
        let limits = self.limits.as_slice();
        let guard = |number: u16, value: &RegisterValue| -> bool
            ensures { result ≡ is_allowed limits.entry.now number value.now }
        { is_allowed(limits, number, value) };
        access(self.alloc, &mut self.list, &guard, name, value)
    }

    /// The name of the register with this number, counted from 0, which has at most 255 bytes;
    /// `None` past the last. Takes no memory.
    pub fn name(&self, index: u16) -> Option<&[u8]>
        ensures name { option_copied result ≡ name_at self.now index }
        ensures short { IfSome result (λ n. length n.now ≤ 255) }
    {
        name(self.list.as_slice(), index)
    }
}
