//! Many runs of one step as few of a step that divides it.
//!
//! The sums of two long runs with steps as 61 and 59 have a run for each remainder modulo 3,599.
//! Between the ends all of these remainders stand, so that nearly all sums are one run of step 1,
//! and a few thousand beside it.
ghost use Rattle.std.specs.Prelude.{◌<◌, IfOk, IfSome, OnOk, All, vec_len};
ghost use Rattle.bit_length.specs.Runs.{IsRun, KeepsRuns};

use crate::merge::MOST_RUNS;
use crate::parts::push_parts;
use crate::run::Run;
use cy_bits::NoMemory;
use std::alloc::Global;

/// A run by its least and its greatest number.
#[derive(Clone, Copy, PartialEq, Eq, PartialOrd, Ord, Drop)]
struct Stretch {
    /// What the numbers leave modulo the other step.
    class: u64,
    /// What they leave modulo the step of the run.
    residue: u64,
    least: u64,
    greatest: u64,
}

impl Stretch {
    /// The longer of two.
    fn longer(self, o: Stretch) -> Stretch {
        let length = self.greatest.saturating_sub(self.least);
        if length < o.greatest.saturating_sub(o.least) {
            o
        } else {
            self
        }
    }
}

/// The numbers of a class that stand in each of some runs' stretches.
#[derive(Clone, Copy, Drop)]
struct Middle {
    class: u64,
    /// How many remainders modulo the step of the runs are met.
    residues: u64,
    least: u64,
    greatest: u64,
}

impl Middle {
    fn of(stretch: Stretch) -> Middle {
        Middle {
            class: stretch.class,
            residues: 1,
            least: stretch.least,
            greatest: stretch.greatest,
        }
    }

    /// What stands in one more stretch too.
    fn meet(self, stretch: Stretch) -> Middle {
        Middle {
            class: self.class,
            residues: self.residues.saturating_add(1),
            least: self.least.max(stretch.least),
            greatest: self.greatest.min(stretch.greatest),
        }
    }

    /// Whether some number of the class is in it, if each of `all` remainders is met.
    fn is_filled(&self, all: u64) -> bool {
        self.residues == all && self.least <= self.greatest
    }
}

/// The runs as stretches, ordered by their classes and then by their residues.
fn stretches(alloc: Global, runs: &[Run], step: u64, finer: u64) -> Result<Vec<Stretch>, NoMemory>
    requires runs { All (IsRun step) runs.now }
    requires positive { 0 < finer }
{
    let mut stretches = Vec::with_capacity(alloc, runs.len())?;
    for run in runs {
        stretches.push(Stretch {
            class: run.residue % finer,
            residue: run.residue,
            least: run.member(step, run.first),
            greatest: run.member(step, run.last),
        })?;
    }
    stretches.sort_unstable();
    Ok(stretches)
}

/// The longest stretch of each residue.
fn longest(alloc: Global, stretches: &[Stretch]) -> Result<Vec<Stretch>, NoMemory> {
    let mut longest: Vec<Stretch> = Vec::with_capacity(alloc, stretches.len())?;
    for stretch in stretches {
        match longest.pop() {
            Some(last) if last.residue == stretch.residue => longest.push(last.longer(*stretch))?,
            Some(last) => {
                longest.push(last)?;
                longest.push(*stretch)?;
            }
            None => longest.push(*stretch)?,
        }
    }
    Ok(longest)
}

/// The middle of each class.
fn middles(alloc: Global, stretches: &[Stretch]) -> Result<Vec<Middle>, NoMemory> {
    let mut middles: Vec<Middle> = Vec::new(alloc);
    for stretch in stretches {
        match middles.pop() {
            Some(last) if last.class == stretch.class => middles.push(last.meet(*stretch))?,
            Some(last) => {
                middles.push(last)?;
                middles.push(Middle::of(*stretch))?;
            }
            None => middles.push(Middle::of(*stretch))?,
        }
    }
    Ok(middles)
}

/// The middle of a class, if all its remainders are met.
fn middle_of(middles: &[Middle], class: u64, all: u64) -> Option<Middle> {
    let before = middles.partition_point(|middle| middle.class < class);
    let middle = middles.get(before)?;
    if middle.class == class && middle.is_filled(all) {
        Some(*middle)
    } else {
        None
    }
}

/// The middles as runs of a step, where all remainders of their classes are met, in room for so
/// many runs.
fn middle_runs(
    alloc: Global,
    middles: &[Middle],
    all: u64,
    finer: u64,
    room: usize,
) -> Result<Vec<Run>, NoMemory>
    requires { 0 < finer }
    ensures { IfOk result (λ runs. All (IsRun finer) runs.items) }
{
    let mut runs = Vec::with_capacity(alloc, room)?;
    for middle in middles {
        if middle.is_filled(all) {
            let end = (middle.greatest / finer).saturating_add(1);
            if let Some(run) = Run::between(finer, middle.class, middle.least / finer, end) {
                runs.push(run)?;
            }
        }
    }
    Ok(runs)
}

/// The parts of a run that stand before a middle and behind it; the whole run where there is none.
fn fringe(run: &Run, step: u64, middle: Option<Middle>) -> [Option<Run>; 2]
    requires { 0 < step }
    ensures { All (λ part. IfSome part (IsRun step)) result }
{
    let end = run.last.saturating_add(1);
    let (before, behind) = match middle {
        Some(middle) => (
            middle.least.saturating_sub(run.residue).div_ceil(step),
            behind_of(middle.greatest, run.residue, step),
        ),
        None => (end, end),
    };
    [
        Run::between(step, run.residue, run.first, before.min(end)),
        Run::between(step, run.residue, run.first.max(behind), end),
    ]
}

/// The least quotient whose number is above another.
fn behind_of(n: u64, residue: u64, step: u64) -> u64
    requires { 0 < step }
{
    match n.checked_sub(residue) {
        Some(rest) => (rest / step).saturating_add(1),
        None => 0,
    }
}

/// Appends a part of a run as runs of another step, if no more than `most` runs come together.
fn push_part(
    runs: &mut Vec<Run>,
    part: Option<Run>,
    step: u64,
    finer: u64,
    most: usize,
) -> Result<bool, NoMemory>
    requires part { IfSome part (IsRun step) }
    requires positive { 0 < finer }
    ensures { OnOk result (KeepsRuns finer runs.old.items runs.new.items) }
{
    let Some(part) = part else {
        return Ok(true);
    };
    if part.count().saturating_add(runs.len() as u64) > most as u64 {
        return Ok(false);
    }
    push_parts(runs, &part, step, finer)?;
    Ok(true)
}

/// How many runs may come of some before they are merged: most members beside a middle follow on
/// one another.
fn most_parts(runs: usize) -> usize {
    runs.saturating_mul(4).min(MOST_RUNS)
}

/// Runs of a step that divides another, which likely have the members of some runs of the other,
/// if they aren't many more.
pub fn coarse_runs(
    alloc: Global,
    runs: &[Run],
    step: u64,
    finer: u64,
) -> Result<Option<Vec<Run>>, NoMemory>
    requires runs { All (IsRun step) runs.now }
    requires step { 0 < step }
    requires finer { 0 < finer }
    ensures { IfOk result (λ o. IfSome o (λ coarse. All (IsRun finer) coarse.items)) }
{
    let stretches = stretches(alloc, runs, step, finer)?;
    let stretches = longest(alloc, stretches.as_slice())?;
    let middles = middles(alloc, stretches.as_slice())?;
    let mut coarse = middle_runs(alloc, middles.as_slice(), step / finer, finer, runs.len())?;
    let most = most_parts(runs.len());
    for run in runs {
        let middle = middle_of(middles.as_slice(), run.residue % finer, step / finer);
        let [before, behind] = fringe(run, step, middle);
        if !push_part(&mut coarse, before, step, finer, most)? {
            return Ok(None);
        }
        if !push_part(&mut coarse, behind, step, finer, most)? {
            return Ok(None);
        }
    }
    Ok(Some(coarse))
}
