//! The members of runs as a list.
ghost use Rattle.std.specs.Prelude.{◌<◌, ◌∷◌, IfOk, OnOk, All};
ghost use Rattle.bit_length.specs.Ascending.{Ascend};
ghost use Rattle.bit_length.specs.Lengths.{Has, Same, Joins};
ghost use Rattle.bit_length.specs.Moved.{Moved, IsShortAt};
ghost use Rattle.bit_length.specs.Runs.{IsRun, InRun, InSome};

use crate::run::Run;
use cy_bits::{List, NoMemory};
use std::alloc::Global;

/// Appends the members of a run.
fn push_members(members: &mut Vec<u64>, run: &Run, step: u64) -> Result<(), NoMemory>
    requires { IsRun step run.now }
    ensures { OnOk result
        (Same (Has members.new.items) (Joins (Has members.old.items) (InRun step run.now))) }
{
    for quotient in run.first..run.last + 1 {
        members.push(run.member(step, quotient))?;
    }
    Ok(())
}

/// The members of some runs, moved up by a number, in the order of the runs, in room for so many.
fn members_of(
    alloc: Global,
    others: &[Run],
    last: &Run,
    step: u64,
    by: u64,
    room: usize,
) -> Result<Vec<u64>, NoMemory>
    requires others { All (IsRun step) others.now }
    requires last { IsRun step last.now }
    requires short { IsShortAt by (InSome step (last.now ∷ others.now)) }
    ensures { IfOk result
        (λ m. Same (Has m.items) (Moved by (InSome step (last.now ∷ others.now)))) }
{
    let mut members = Vec::with_capacity(alloc, room)?;
    push_members(&mut members, &last.moved(step, by), step)?;
    for run in others {
        push_members(&mut members, &run.moved(step, by), step)?;
    }
    Ok(members)
}

/// The numbers in order, each once.
fn in_order(mut members: Vec<u64>) -> List<u64>
    ensures order { Ascend result }
    ensures same { Same (Has result) (Has members.items) }
{
    members.sort_unstable();
    members.dedup();
    List::new(members)
}

/// The members of some runs, moved up by a number, ascending, in room for so many.
pub fn listed(
    alloc: Global,
    others: &[Run],
    last: &Run,
    step: u64,
    by: u64,
    room: usize,
) -> Result<List<u64>, NoMemory>
    requires others { All (IsRun step) others.now }
    requires last { IsRun step last.now }
    requires short { IsShortAt by (InSome step (last.now ∷ others.now)) }
    ensures order { IfOk result Ascend }
    ensures same { IfOk result
        (λ m. Same (Has m) (Moved by (InSome step (last.now ∷ others.now)))) }
{
    Ok(in_order(members_of(alloc, others, last, step, by, room)?))
}
