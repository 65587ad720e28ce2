//! Sets of constants: ascending, each member once.
ghost use Rattle.std.specs.Prelude.{◌≡◌, ◌<◌, ◌≤◌, length, IfOk, OnOk, true};
ghost use Rattle.const_expr.specs.Binary.{without};
ghost use Rattle.const_expr.specs.Constants.{IsAscending, IsPlace, has, with_all, gathered};

use crate::constant::Const;
use crate::order::order;
use crate::ranked::Ranked;
use cy_bits::{List, NoMemory};
use std::alloc::Global;
use std::cmp::Ordering;
use std::collections::BTreeSet;

/// The place at which a constant goes into a set, or nothing where it is a member.
#[tactic(auto, using(crate::proofs::SetLemmas::before_less, crate::proofs::SetLemmas::behind_greater))]
fn place_in(set: &[Const], constant: &Const) -> Option<usize>
    requires { IsAscending set.now }
    ensures { IsPlace set.now constant.now result }
{
    let mut low = 0;
    let mut high = set.len();
    while low < high {
        let middle = low + (high - low) / 2;
        match order(constant, &set[middle]) {
            Ordering::Less => high = middle,
            Ordering::Equal => return None,
            Ordering::Greater => low = middle + 1,
        }
    }
    Some(low)
}

/// Whether a set has a member.
pub fn has(set: &[Const], constant: &Const) -> bool
    requires { IsAscending set.now }
    ensures { result ≡ has set.now constant.now }
{
    place_in(set, constant).is_none()
}

/// Adds constants to a set, those that are no members.
#[tactic(auto, using(crate::proofs::SetChanges::inserted))]
pub fn add_all(set: &mut BTreeSet<Ranked>, constants: List<Const>) -> Result<(), NoMemory>
    ensures added { OnOk result (set.new.keys ≡ with_all set.old.keys constants) }
{
    for constant in constants.into_vec() {
        set.insert(Ranked { constant })?;
    }
    Ok(())
}

/// Takes constants out of a set, and gives those that are no members.
pub fn take_out(
    alloc: Global,
    set: &mut BTreeSet<Ranked>,
    constants: List<Const>,
) -> Result<List<Const>, NoMemory>
    requires set { IsAscending set.old.keys }
    requires constants { IsAscending constants }
    ensures left { OnOk result (set.new.keys ≡ without set.old.keys constants) }
    ensures others { IfOk result (λ others. others ≡ without constants set.old.keys) }
{
    let mut others = List::empty(alloc);
    for constant in constants.into_vec() {
        let member = Ranked { constant };
        if !set.remove(&member) {
            others.push(member.constant)?;
        }
    }
    Ok(others)
}

/// The members of a set in a row.
#[tactic(auto, using(crate::proofs::SetChanges::keys_ascend))]
pub fn in_a_row(alloc: Global, set: BTreeSet<Ranked>) -> Result<List<Const>, NoMemory>
    ensures members { IfOk result (λ members. members ≡ set.keys) }
    ensures ascending { IfOk result IsAscending }
{
    let mut members = List::empty(alloc);
    for member in set {
        members.push(member.constant)?;
    }
    Ok(members)
}

/// The set of some constants, member by member.
pub fn ordered(alloc: Global, constants: List<Const>) -> Result<BTreeSet<Ranked>, NoMemory>
    ensures { IfOk result (λ set. set.keys ≡ gathered constants) }
{
    let mut set = BTreeSet::new(alloc);
    add_all(&mut set, constants)?;
    Ok(set)
}

/// Whether each constant stands before the next one, and so before all next ones.
fn is_ascending(constants: &[Const]) -> bool
    ensures { result ≡ true → IsAscending constants.now }
{
    for place in 1..constants.len() {
        if order(&constants[place - 1], &constants[place]) != Ordering::Less {
            return false;
        }
    }
    true
}

/// The set of some constants. Those that ascend are the set.
#[tactic(auto, using(crate::proofs::SetChanges::set_of_ascending))]
pub fn gathered(alloc: Global, constants: List<Const>) -> Result<List<Const>, NoMemory>
    ensures set { IfOk result (λ set. set ≡ gathered constants) }
    ensures ascending { IfOk result (λ set. IsAscending set) }
{
    if is_ascending(constants.as_slice()) {
        return Ok(constants);
    }
    in_a_row(alloc, ordered(alloc, constants)?)
}
