ghost use Rattle.std.specs.Prelude.{◌≡◌, ◌≢◌, ◌⊎◌, ℕ, ◌%◌, ◌≤◌, ◌^◌, ◌<◌, IfOk, Ok, Err};
ghost use Rattle.bit_length.specs.Lengths.{Has, Same, Only, Delimited, Sums, Joins, Repeats, UpTo, Pads};
ghost use Rattle.layout.specs.Sets.{IsShort, HasIn};

use bit_length::{LengthError, LengthSet};
use cy_bits::NoMemory;
use std::alloc::Global;

/// The set or want of memory, of a set that isn't too long.
fn short(set: Result<LengthSet, LengthError>) -> Result<LengthSet, NoMemory>
    requires { (g : ℕ) → set ≢ Err (LengthError.Long g) }
    ensures { IfOk result (λ s. set ≡ Ok s) }
{
    match set {
        Ok(set) => Ok(set),
        Err(LengthError::NoMemory) => Err(NoMemory),
        Err(LengthError::Long { .. }) => unreachable!(),
    }
}

/// The set of one length.
pub fn only(alloc: Global, n: u64) -> Result<LengthSet, NoMemory>
    requires { n ≤ 2 ^ 32 }
    ensures { IfOk result (λ s. Same (Has s) (Only n)) }
{
    short(LengthSet::of(alloc, n))
}

/// The lengths of a delimited type of an extent, its delimiter header among them.
pub fn delimited(alloc: Global, extent: u64) -> Result<LengthSet, NoMemory>
    requires whole { extent % 8 ≡ 0 }
    requires small { extent ≤ 2 ^ 63 }
    requires short { IsShort (Delimited extent) }
    ensures { IfOk result (λ s. Same (Has s) (Delimited extent)) }
{
    short(LengthSet::delimited(alloc, extent))
}

/// All sums of a member each.
pub fn sum(a: &LengthSet, b: &LengthSet) -> Result<LengthSet, NoMemory>
    requires { IsShort (Sums (Has a.now) (Has b.now)) }
    ensures { IfOk result (λ s. Same (Has s) (Sums (Has a.now) (Has b.now))) }
{
    short(a.sum(b))
}

/// Each member with so many bits more.
pub fn moved(alloc: Global, a: LengthSet, bits: u64) -> Result<LengthSet, NoMemory>
    requires small { bits ≤ 2 ^ 32 }
    requires short { IsShort (Sums (Has a) (Only bits)) }
    ensures { IfOk result (λ s. Same (Has s) (Sums (Has a) (Only bits))) }
{
    if bits == 0 {
        return Ok(a);
    }
    sum(&a, &only(alloc, bits)?)
}

/// All sums of so many members.
pub fn repeat(a: &LengthSet, n: u32) -> Result<LengthSet, NoMemory>
    requires { IsShort (Repeats (Has a.now) n) }
    ensures { IfOk result (λ s. Same (Has s) (Repeats (Has a.now) n)) }
{
    short(a.repeat(n))
}

/// All sums of at most so many members.
pub fn up_to(a: &LengthSet, n: u32) -> Result<LengthSet, NoMemory>
    requires { IsShort (UpTo (Has a.now) n) }
    ensures { IfOk result (λ s. Same (Has s) (UpTo (Has a.now) n)) }
{
    short(a.up_to(n))
}

/// Each member, brought up to a multiple of 8.
pub fn pad(a: &LengthSet) -> Result<LengthSet, NoMemory>
    requires { IsShort (Pads (Has a.now) 8) }
    ensures { IfOk result (λ s. Same (Has s) (Pads (Has a.now) 8)) }
{
    short(a.pad(8))
}

/// An equal set.
pub fn copy(a: &LengthSet) -> Result<LengthSet, NoMemory>
    ensures { IfOk result (λ s. s ≡ a.now) }
{
    short(a.copy())
}

/// The members of a set that may be absent and those of another.
pub fn join(a: Option<LengthSet>, b: &LengthSet) -> Result<LengthSet, NoMemory>
    ensures { IfOk result (λ s. Same (Has s) (λ n. HasIn a n ⊎ Has b.now n)) }
{
    match a {
        Some(a) => short(a.join(b)),
        None => copy(b),
    }
}
