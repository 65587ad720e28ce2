ghost use Rattle.std.specs.Prelude.{◌≡◌, ℕ, ◌≤◌, ◌∷◌, [], Bool, IfOk, IfErr, IfSome, OnErr, List as ListOf, length};
ghost use Rattle.std.specs.Option.{option_copied};
ghost use Rattle.std_types.specs.RegisterValues.{FitsRegisterValue};
ghost use Rattle.std_types.specs.Registers.{FitsAccessReply};
ghost use Rattle.register_service.specs.Kept.{AllowsBy, AreGuarded, AreRegisters, IsGuard, Stand};
ghost use Rattle.register_service.specs.RegisterMap.{Access, IsAccess, Listing, Request, access_reply, after, name_at};
ghost use Rattle.register_service.specs.Within.{IsOutside, first_outside};

use crate::OpenError;
use crate::limits::is_within;
use crate::register_list::{access, name};
use crate::values::copy_registers;
use cy_bits::{List, NoMemory};
use std::alloc::Global;
use std_types::register::AccessReply;
use std_types::register_value::RegisterValue;
use std_types::registers::Register;

/// The registers of a node (Cyphal Specification, section 5.3.10), with the guard that is asked
/// before one of them is written.
///
/// They stand for a list of requests: those that they were called with.
#[derive(Drop)]
pub struct Registers<G> {
    /// The registers. The number of a register is its place, counted from 0, and never changes.
    pub list: Vec<Register>,
    /// Whether the register with a number may hold a value of its variant. Yes means that the value
    /// is within the register's limits.
    pub guard: G,
    alloc: Global,
}

impl<G: Fn(u16, &RegisterValue) -> bool + Drop> Registers<G> {
    /// Registers with their guard. `Outside` names the first one whose value isn't within its
    /// limits. There are at most 256 registers, whose names differ and have at most 255 bytes, and
    /// whose arrays are within their capacities.
    #[tactic(auto, using(crate::proofs::Map::opening))]
    pub fn open(alloc: Global, list: List<Register>, guard: G) -> Result<Registers<G>, OpenError>
        requires registers { AreRegisters list }
        requires guarded { IsGuard G.Fn guard list }
        ensures list { IfOk result (λ r. r.list.items ≡ list) }
        ensures guard { IfOk result (λ r. r.guard ≡ guard) }
        ensures guarded { IfOk result (λ r. AreGuarded G.Fn r) }
        ensures within { IfOk result (λ _. first_outside list ≡ None) }
        ensures outside { IfErr result (λ e. IsOutside e (first_outside list)) }
        ensures stands { (allowed : ℕ → RegisterValue → Bool) → AllowsBy G.Fn guard allowed
            → IfOk result (λ r. Stand G.Fn allowed list [] r) }
    {
        let list = list.into_vec();
        for (index, register) in list.iter().enumerate() {
            if !is_within(register.limits, &register.value) {
                let index = index as u16;
                return Err(OpenError::Outside { index });
            }
        }
        Ok(Registers { list, guard, alloc })
    }

    /// Reads the register with a name, and writes it first where it takes the value.
    ///
    /// It takes a value that isn't empty, where it is mutable, the value is of its variant and has
    /// as many items (strings and unstructured aside), and the guard says yes. The reply has the
    /// value after the call; of an unknown name it is empty and not mutable. Want of memory changes
    /// nothing.
    pub fn access(&mut self, name: &[u8], value: RegisterValue) -> Result<AccessReply, NoMemory>
        requires guarded { AreGuarded G.Fn self.old }
        requires fits { FitsRegisterValue value }
        ensures guarded { AreGuarded G.Fn self.new }
        ensures guard { self.new.guard ≡ self.old.guard }
        ensures memory { OnErr result (self.new ≡ self.old) }
        ensures access { IfOk result (λ r.
            IsAccess self.old.list.items name.now value self.new.list.items r) }
        ensures fits { IfOk result (λ r. FitsAccessReply r) }
        ensures reply { (allowed : ℕ → RegisterValue → Bool) (opened : ListOf Register)
            (past : ListOf Request) → Stand G.Fn allowed opened past self.old
            → IfOk result (λ r. r
            ≡ access_reply allowed (after allowed opened past) name.now value) }
        ensures stands { (allowed : ℕ → RegisterValue → Bool) (opened : ListOf Register)
            (past : ListOf Request) → Stand G.Fn allowed opened past self.old
            → IfOk result (λ _.
            Stand G.Fn allowed opened (Access name.now value ∷ past) self.new) }
    {
        access(self.alloc, &mut self.list, &self.guard, name, value)
    }

    /// The name of the register with this number, counted from 0; `None` past the last. Takes no
    /// memory.
    pub fn list(&self, index: u16) -> Option<&[u8]>
        ensures name { option_copied result ≡ name_at self.now.list.items index }
        ensures reply { (allowed : ℕ → RegisterValue → Bool) (opened : ListOf Register)
            (past : ListOf Request) → Stand G.Fn allowed opened past self.now
            → option_copied result ≡ name_at (after allowed opened past) index }
        ensures short { AreRegisters self.now.list.items
            → IfSome result (λ n. length n.now ≤ 255) }
        ensures stands { (allowed : ℕ → RegisterValue → Bool) (opened : ListOf Register)
            (past : ListOf Request) → Stand G.Fn allowed opened past self.now
            → Stand G.Fn allowed opened (Listing index ∷ past) self.now }
    {
        name(self.list.as_slice(), index)
    }

    /// An equal list of the registers.
    pub fn copy(&self) -> Result<List<Register>, NoMemory>
        ensures { IfOk result (λ l. l ≡ self.now.list.items) }
    {
        copy_registers(self.alloc, self.list.as_slice())
    }
}
