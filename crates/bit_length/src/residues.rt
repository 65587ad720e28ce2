//! Remainders of a set's members.
ghost use Rattle.std.specs.Prelude.{◌≡◌, ◌*◌, ◌%◌, ◌^◌, ◌<◌, ◌≤◌, IfOk, length, All, ◌∷◌};
ghost use Rattle.bit_length.specs.Moved.{Moved, IsShortAt};
ghost use Rattle.bit_length.specs.Residues.{AreAtMost, AreNone, AreResidues, Notes, marked_of};
ghost use Rattle.bit_length.specs.Runs.{IsRun, InSome};

use crate::reaches::{mark_reached, note};
use crate::run::Run;
use crate::steps::common_divisor;
use cy_bits::{List, NoMemory};
use std::alloc::Global;

/// As many places, none of them marked.
pub fn unmarked(alloc: Global, count: u64) -> Result<Vec<bool>, NoMemory>
    ensures count { IfOk result (λ marks. length marks.items ≡ count) }
    ensures none { IfOk result (λ marks. AreNone marks.items) }
{
    Ok(vec![in alloc; false; count as usize]?)
}

/// As many places, none of which reaches any.
pub fn unreached(alloc: Global, count: u64) -> Result<Vec<u64>, NoMemory>
    ensures count { IfOk result (λ reaches. length reaches.items ≡ count) }
    ensures none { IfOk result (λ reaches. AreAtMost reaches.items 0) }
{
    Ok(vec![in alloc; 0; count as usize]?)
}

/// Notes what the members of some runs, moved up by a number, leave.
fn note_all(reaches: &mut [u64], runs: &[Run], step: u64, by: u64, round: u64)
    requires runs { All (IsRun step) runs.now }
    requires short { IsShortAt by (InSome step runs.now) }
    requires some { 0 < length reaches.old }
    requires round { 0 < round }
    requires again { (step * round) % length reaches.old ≡ 0 }
    requires most { AreAtMost reaches.old round }
    ensures notes { Notes step reaches.old reaches.new (Moved by (InSome step runs.now)) }
    ensures most { AreAtMost reaches.new round }
{
    for run in runs {
        note(reaches, run, step, by, round);
    }
}

/// The numbers that are marked, ascending.
fn marked(alloc: Global, marks: &[bool]) -> Result<List<u64>, NoMemory>
    ensures { IfOk result (λ numbers. numbers ≡ marked_of marks.now) }
{
    let mut numbers = List::empty(alloc);
    for (number, is_marked) in marks.iter().enumerate() {
        if *is_marked {
            numbers.push(number as u64)?;
        }
    }
    Ok(numbers)
}

/// What the members of some runs, moved up by a number, leave modulo the number of marks,
/// ascending. Nothing is marked and nothing is reached before. Takes a few steps for each run and
/// for each mark.
pub fn residues(
    alloc: Global,
    marks: &mut [bool],
    reaches: &mut [u64],
    others: &[Run],
    last: &Run,
    step: u64,
    by: u64,
) -> Result<List<u64>, NoMemory>
    requires others { All (IsRun step) others.now }
    requires last { IsRun step last.now }
    requires short { IsShortAt by (InSome step (last.now ∷ others.now)) }
    requires some { 0 < length marks.old }
    requires small { length marks.old ≤ 2 ^ 32 }
    requires marks { AreNone marks.old }
    requires same { length reaches.old ≡ length marks.old }
    requires reaches { AreAtMost reaches.old 0 }
    ensures { IfOk result (λ residues.
        AreResidues residues (length marks.old)
        (Moved by (InSome step (last.now ∷ others.now)))) }
{
    let divisor = marks.len() as u64;
    let round = divisor / common_divisor(step, divisor);
    note(reaches, last, step, by, round);
    note_all(reaches, others, step, by, round);
    mark_reached(marks, reaches, step, round);
    marked(alloc, marks)
}
