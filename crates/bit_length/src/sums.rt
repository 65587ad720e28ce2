ghost use Rattle.std.specs.Prelude.{◌≡◌, ℕ, ◌+◌, ◌*◌, ◌%◌, ◌^◌, ◌<◌, ◌≤◌, ◌∷◌, OnOk, IfOk, All, length, vec_len};
ghost use Rattle.bit_length.specs.Lengths.{Sums, Pads, padded as padded_of};
ghost use Rattle.bit_length.specs.Runs.{IsRun, InRun, InSome, Adds, AreRunsOf};

use crate::parts::MOST_PARTS;
use crate::run::Run;
use cy_bits::NoMemory;
use std::alloc::Global;

/// Appends the sums of the members of one run and of some runs.
fn push_sums(sums: &mut Vec<Run>, step: u64, one: &Run, runs: &[Run]) -> Result<(), NoMemory>
    requires one { IsRun step one.now }
    requires runs { All (IsRun step) runs.now }
    requires short { (m n : ℕ) → InRun step one.now m → InSome step runs.now n → m + n ≤ 2 ^ 32 }
    ensures { OnOk result
        (Adds step sums.old.items sums.new.items
        (Sums (InRun step one.now) (InSome step runs.now))) }
{
    for run in runs {
        sums.push(one.plus(step, run))?;
    }
    Ok(())
}

/// The runs of all sums of a member each.
pub fn sums(alloc: Global, step: u64, a: &[Run], b: &[Run]) -> Result<Vec<Run>, NoMemory>
    requires a { All (IsRun step) a.now }
    requires b { All (IsRun step) b.now }
    requires short { (m n : ℕ) → InSome step a.now m → InSome step b.now n → m + n ≤ 2 ^ 32 }
    ensures { IfOk result
        (λ r. AreRunsOf step r.items (Sums (InSome step a.now) (InSome step b.now))) }
{
    let many = a.len().saturating_mul(b.len());
    if many as u64 > MOST_PARTS {
        return Err(NoMemory);
    }
    let mut sums = Vec::with_capacity(alloc, many)?;
    for run in a {
        push_sums(&mut sums, step, run, b)?;
    }
    Ok(sums)
}

/// The runs of all sums of a member of one run and of some runs of the step `step * many`, where the
/// one has no fewer members than `many`: one run for each of some.
pub fn wide_sums(
    alloc: Global,
    step: u64,
    many: u64,
    one: &Run,
    runs: &[Run],
) -> Result<Vec<Run>, NoMemory>
    requires one { IsRun step one.now }
    requires positive { 0 < many }
    requires long { one.now.first + many ≤ one.now.last + 1 }
    requires runs { All (IsRun (step * many)) runs.now }
    requires short { (m n : ℕ) → InRun step one.now m → InSome (step * many) runs.now n
        → m + n ≤ 2 ^ 32 }
    ensures { IfOk result
        (λ r. AreRunsOf step r.items (Sums (InRun step one.now) (InSome (step * many) runs.now))) }
{
    let mut sums = Vec::with_capacity(alloc, runs.len())?;
    for run in runs {
        sums.push(one.plus_wide(step, many, run))?;
    }
    Ok(sums)
}

/// How many of some runs in order come behind the last of all, where a number is added that brings
/// those of this residue and above past the step: those below it, if it brings the last past.
fn behind_last(others: &[Run], last: &Run, residue: u64) -> usize
    ensures { result ≤ length others.now }
{
    if last.residue < residue {
        return 0;
    }
    others.partition_point(|run: &Run| run.residue < residue)
}

/// The runs of all sums of the number of one run and of a member of some runs, in order where these
/// are.
pub fn moved(
    alloc: Global,
    step: u64,
    one: &Run,
    others: &[Run],
    last: &Run,
) -> Result<Vec<Run>, NoMemory>
    requires one { IsRun step one.now }
    requires others { All (IsRun step) others.now }
    requires last { IsRun step last.now }
    requires short { (m n : ℕ) → InRun step one.now m → InSome step (last.now ∷ others.now) n
        → m + n ≤ 2 ^ 32 }
    ensures { IfOk result
        (λ r. AreRunsOf step r.items
        (Sums (InRun step one.now) (InSome step (last.now ∷ others.now)))) }
{
    let behind = behind_last(others, last, step.saturating_sub(one.residue));
    let (below, above) = others.split_at(behind);
    let mut runs = Vec::with_capacity(alloc, others.len().saturating_add(1))?;
    push_sums(&mut runs, step, one, above)?;
    runs.push(one.plus(step, last))?;
    push_sums(&mut runs, step, one, below)?;
    Ok(runs)
}

/// The runs of each member, brought up to a multiple of `to`, of which the step is a multiple.
pub fn pads(alloc: Global, step: u64, to: u64, runs: &[Run]) -> Result<Vec<Run>, NoMemory>
    requires runs { All (IsRun step) runs.now }
    requires positive { 0 < to }
    requires multiple { step % to ≡ 0 }
    requires short { (n : ℕ) → Pads (InSome step runs.now) to n → n ≤ 2 ^ 32 }
    ensures { IfOk result (λ r. AreRunsOf step r.items (Pads (InSome step runs.now) to)) }
{
    let mut pads = Vec::with_capacity(alloc, runs.len())?;
    for run in runs {
        pads.push(run.padded(step, to))?;
    }
    Ok(pads)
}
