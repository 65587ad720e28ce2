//! Sets of whole numbers, with a number that is to be added to each member.
ghost use Rattle.std.specs.Prelude.{◌≡◌, ◌<◌, ℤ, ◌+ℤ◌, length, slice_index_or, true};
ghost use Rattle.std.specs.Prelude.{FitsSigned, IfOk, IfSome, MatchResult};
ghost use Rattle.std.specs.Int.{w128};
ghost use Rattle.const_expr.specs.declared.constant.Const.TheVariants as c;
ghost use Rattle.const_expr.specs.Constants.{IsAscending, whole};
ghost use Rattle.const_expr.specs.Shifts.{Ascend, Fit, IsMoved, moved, wholes};

use crate::constant::Const;
use crate::whole::{whole, whole_of};
use cy_bits::{List, NoMemory};
use std::alloc::Global;
use std::marker::Model;

/// Whole numbers, ascending.
#[derive(Drop)]
pub struct Shifted {
    /// The numbers before.
    before: Vec<i128>,
    /// What is to be added to each.
    shift: i128,
}

impl Model for Shifted {
    ghost use Rattle.std.specs.Prelude.{ℤ, List};
    ghost use Rattle.const_expr.specs.Shifts.{CanMove, moved};

    ghost Value = { List ℤ };

    ghost view = { λ a. moved a.shift a.before.items };

    ghost invariant = { λ a. CanMove a.before.items a.shift };
}

/// Whether a number can be added to the one at this place within 128 bits.
fn has_sum(numbers: &[i128], place: usize, k: i128) -> bool
    requires { place < length numbers.now }
    ensures { result ≡ true → (d : ℤ)
        → FitsSigned w128 (slice_index_or numbers.now place d +ℤ k) }
{
    numbers[place].checked_add(k).is_some()
}

/// Whether a number can be added to each of others within 128 bits: to the least and the greatest.
fn have_sums(numbers: &[i128], k: i128) -> bool
    requires { Ascend numbers.now }
    ensures { result ≡ true → Fit (moved k numbers.now) }
{
    if numbers.is_empty() {
        return true;
    }
    has_sum(numbers, 0, k) && has_sum(numbers, numbers.len() - 1, k)
}

/// The whole number that a constant is.
fn whole_in(constant: &Const) -> Option<i128>
    ensures { IfSome result (λ n. constant.now ≡ c.Number (whole n)) }
{
    match constant {
        Const::Number(x) => whole_of(*x),
        Const::Truth(_) | Const::Str(_) => None,
        Const::Set(_) | Const::Lengths(_) | Const::Named(_) => None,
    }
}

/// The whole numbers that constants are; nothing where one is none.
fn wholes_in(alloc: Global, constants: &[Const]) -> Result<Option<Vec<i128>>, NoMemory>
    ensures same { IfOk result (λ found. IfSome found (λ numbers.
        wholes numbers.items ≡ constants.now)) }
    ensures fit { IfOk result (λ found. IfSome found (λ numbers. Fit numbers.items)) }
{
    let mut numbers = Vec::new(alloc);
    for constant in constants {
        match whole_in(constant) {
            Some(n) => numbers.push(n)?,
            None => return Ok(None),
        }
    }
    Ok(Some(numbers))
}

/// Whole numbers with another added to each, as constants.
fn sums(alloc: Global, numbers: &[i128], k: i128) -> Result<List<Const>, NoMemory>
    requires { Fit (moved k numbers.now) }
    ensures { IfOk result (λ members. members ≡ wholes (moved k numbers.now)) }
{
    let mut members = List::empty(alloc);
    for n in numbers {
        members.push(Const::Number(whole(*n + k)))?;
    }
    Ok(members)
}

/// Whole numbers, and one that is to be added to each.
fn with_shift(before: Vec<i128>, shift: i128) -> Shifted
    requires ascend { Ascend before.items }
    requires fit { Fit (moved shift before.items) }
    ensures { result ≡ moved shift before.items }
{
    Shifted { before, shift }
}

impl Shifted {
    /// The members of a set; nothing where one is no whole number.
    pub fn of(alloc: Global, set: &[Const]) -> Result<Option<Shifted>, NoMemory>
        requires { IsAscending set.now }
        ensures { IfOk result (λ found. IfSome found (λ numbers. wholes numbers ≡ set.now)) }
    {
        match wholes_in(alloc, set)? {
            Some(numbers) => Ok(Some(with_shift(numbers, 0))),
            None => Ok(None),
        }
    }

    /// Adds a number to each. Where one of them could leave 128 bits, gives them back as they are.
    pub fn moved(self, k: i128) -> Result<Shifted, Shifted>
        ensures { MatchResult result (IsMoved self k) (λ same. same ≡ self) }
    {
        let Some(shift) = self.shift.checked_add(k) else {
            return Err(self);
        };
        if !have_sums(self.before.as_slice(), shift) {
            return Err(self);
        }
        let Shifted { before, shift: _ } = self;
        Ok(with_shift(before, shift))
    }

    /// The numbers in a row.
    pub fn into_members(self, alloc: Global) -> Result<List<Const>, NoMemory>
        ensures { IfOk result (λ members. members ≡ wholes self) }
    {
        sums(alloc, self.before.as_slice(), self.shift)
    }
}
