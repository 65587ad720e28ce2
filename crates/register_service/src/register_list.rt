//! A list of registers that are read, listed and written behind a guard that is lent.
ghost use Rattle.std.specs.Prelude.{◌≡◌, ℕ, ◌≤◌, Bool, IsTrue, IfOk, IfSome, OnErr, length};
ghost use Rattle.std.specs.Option.{option_copied, option_map};
ghost use Rattle.std_types.specs.RegisterValues.{FitsRegisterValue};
ghost use Rattle.std_types.specs.Registers.{FitsAccessReply};
ghost use Rattle.register_service.specs.Kept.{AllowsBy, AreKept, AreRegisters, IsAt, IsGuard, IsGuardOf, IsOfVariant};
ghost use Rattle.register_service.specs.RegisterMap.{IsAccess, access_reply, after_access, entry, is_alike, name_at, reply, takes};
ghost use Rattle.register_service.specs.Within.{is_within, limits_of};

use crate::values::{count, is_text, variant};
use cy_bits::{NoMemory, TryCopy};
use std::alloc::Global;
use std_types::register::AccessReply;
use std_types::register_value::RegisterValue;
use std_types::registers::Register;
use std_types::time::SynchronizedTimestamp;

/// Reads the register with a name, and writes it first where it takes the value (Cyphal
/// Specification, section 5.3.10).
///
/// It takes a value that isn't empty, where it is mutable, the value is of its variant and has as
/// many items (strings and unstructured aside), and the guard says yes. The reply has the value
/// after the call; of an unknown name it is empty and not mutable. Want of memory changes nothing.
#[tactic(auto, using(crate::proofs::Map::accessing))]
pub fn access<G: Fn(u16, &RegisterValue) -> bool>(
    alloc: Global,
    list: &mut Vec<Register>,
    guard: &G,
    name: &[u8],
    value: RegisterValue,
) -> Result<AccessReply, NoMemory>
    requires kept { AreKept list.old.items }
    requires guarded { IsGuard G.Fn guard.now list.old.items }
    requires fits { FitsRegisterValue value }
    ensures kept { AreKept list.new.items }
    ensures guarded { IsGuard G.Fn guard.now list.new.items }
    ensures limits { limits_of list.new.items ≡ limits_of list.old.items }
    ensures memory { OnErr result (list.new ≡ list.old) }
    ensures access { IfOk result (λ r. IsAccess list.old.items name.now value list.new.items r) }
    ensures fits { IfOk result (λ r. FitsAccessReply r) }
    ensures reply { (allowed : ℕ → RegisterValue → Bool) → AllowsBy G.Fn guard.now allowed
        → IfOk result (λ r. r ≡ access_reply allowed list.old.items name.now value) }
    ensures left { (allowed : ℕ → RegisterValue → Bool) → AllowsBy G.Fn guard.now allowed
        → IfOk result (λ _.
        list.new.items ≡ after_access allowed list.old.items name.now value) }
{
    let Some((number, register)) = entry(list.as_slice(), name) else {
        return Ok(reply(false, RegisterValue::Empty));
    };
    let mutable = register.mutable;
    if !takes(guard, number, register, &value) {
        return Ok(reply(mutable, register.value.copy(alloc)?));
    }
    let copy = value.copy(alloc)?;
    list[number as usize].value = value;
    Ok(reply(mutable, copy))
}

/// The name of the register with this number, counted from 0; `None` past the last. Takes no
/// memory.
pub fn name(list: &[Register], index: u16) -> Option<&[u8]>
    ensures name { option_copied result ≡ name_at list.now index }
    ensures short { AreRegisters list.now → IfSome result (λ n. length n.now ≤ 255) }
{
    let register = list.get(index as usize)?;
    Some(register.name.as_str().as_bytes())
}

/// The register with a name, and its number.
#[tactic(auto, using(crate::proofs::Map::finding))]
fn entry<'a>(list: &'a [Register], name: &[u8]) -> Option<(u16, &'a Register)>
    requires { length list.now ≤ 256 }
    ensures entry { option_map (λ e. (e.0, e.1.now)) result ≡ entry name.now list.now }
    ensures at { IfSome result (λ e. IsAt list.now e.0 e.1.now) }
{
    for (number, register) in list.iter().enumerate() {
        if register.name.as_str().as_bytes() == name {
            return Some((number as u16, register));
        }
    }
    None
}

/// Whether a register takes a value.
#[tactic(auto, using(crate::proofs::Map::alike_variant))]
fn takes<G: Fn(u16, &RegisterValue) -> bool>(
    guard: &G,
    number: u16,
    register: &Register,
    value: &RegisterValue,
) -> bool
    requires guarded { IsGuardOf G.Fn guard.now number register.now }
    requires fits { FitsRegisterValue value.now }
    ensures within { IsTrue result → IsTrue (is_within register.now.limits value.now) }
    ensures mutable { IsTrue result → IsTrue register.now.mutable }
    ensures alike { IsTrue result → IsTrue (is_alike register.now.value value.now) }
    ensures takes { (allowed : ℕ → RegisterValue → Bool) → AllowsBy G.Fn guard.now allowed
        → result ≡ takes allowed number register.now value.now }
{
    register.mutable && is_alike(&register.value, value) && ask(guard, number, register, value)
}

/// Asks the guard whether a register may hold a value of its variant.
fn ask<G: Fn(u16, &RegisterValue) -> bool>(
    guard: &G,
    number: u16,
    register: &Register,
    value: &RegisterValue,
) -> bool
    requires guarded { IsGuardOf G.Fn guard.now number register.now }
    requires variant { IsOfVariant register.now value.now }
    ensures within { IsTrue result → IsTrue (is_within register.now.limits value.now) }
    ensures allowed { (allowed : ℕ → RegisterValue → Bool) → AllowsBy G.Fn guard.now allowed
        → result ≡ allowed number value.now }
{
    guard(number, value)
}

/// Whether a register that holds a value can be written with another one.
fn is_alike(held: &RegisterValue, value: &RegisterValue) -> bool
    ensures { result ≡ is_alike held.now value.now }
{
    variant(value) != 0
        && variant(value) == variant(held)
        && (is_text(value) || count(value) == count(held))
}

/// The reply of a register that is mutable or not, and has a value.
fn reply(mutable: bool, value: RegisterValue) -> AccessReply
    ensures { result ≡ reply mutable value }
{
    AccessReply {
        timestamp: SynchronizedTimestamp { microsecond: 0 },
        mutable,
        persistent: false,
        value,
    }
}
