ghost use Rattle.std.specs.Prelude.{◌≡◌, ℕ, ◌+◌, ◌<◌, ◌≤◌, ◌++◌, ◌∷◌, [], IfOk, AllPairs, vec_len, length, take, slice_index_or};
ghost use Rattle.std.specs.List.Sorted.{IsPermutation};
ghost use Rattle.bit_length.specs.declared.run.Run.{Run as RunOf};
ghost use Rattle.bit_length.specs.Runs.{IsAtMost, IsMerged, TakesRun};

use crate::run::Run;
use cy_bits::NoMemory;

/// The greatest number of runs that a set may have.
pub const MOST_RUNS: usize = 1 << 20;

/// Runs without a common member: the last of them, and the others before it.
#[derive(Drop)]
pub struct Merged {
    /// All runs but the last.
    pub others: Vec<Run>,
    /// The last run.
    pub last: Run,
}

/// The runs in order.
fn sorted(mut runs: Vec<Run>) -> Vec<Run>
    ensures permutation { IsPermutation runs.items result.items }
    ensures order { AllPairs IsAtMost result.items }
{
    runs.sort_unstable();
    runs
}

/// Takes one more run, which doesn't stand before the last, behind so many runs that are kept: how
/// many are kept then, and the last run.
fn take_run(runs: &mut [Run], kept: usize, last: Run, next: Run) -> (usize, Run)
    requires within { kept < length runs.old }
    requires order { IsAtMost last next }
    ensures takes { TakesRun (take kept runs.old) last next (take result.0 runs.new) result.1 }
    ensures order { (result.1.residue ≡ next.residue) × (result.1.first ≤ next.first) }
    ensures kept { result.0 ≤ kept + 1 }
    ensures len { length runs.new ≡ length runs.old }
    ensures rest { (k : ℕ) (d : RunOf) → kept < k
        → slice_index_or runs.new k d ≡ slice_index_or runs.old k d }
{
    if last.touches(&next) {
        let joined = Run {
            residue: last.residue,
            first: last.first,
            last: last.last.max(next.last),
        };
        return (kept, joined);
    }
    runs[kept] = last;
    (kept + 1, next)
}

/// Merges runs in order where they stand, into runs without a common member: how many of the first
/// they are then, and the one behind these.
fn merge_sorted(runs: &mut [Run]) -> (usize, Run)
    requires some { 0 < length runs.old }
    requires order { AllPairs IsAtMost runs.old }
    ensures merged { IsMerged runs.old (take result.0 runs.new ++ result.1 ∷ []) }
    ensures len { length runs.new ≡ length runs.old }
{
    let mut last = runs[0];
    let mut kept = 0;
    for at in 1..runs.len() {
        let next = runs[at];
        let (count, run) = take_run(runs, kept, last, next);
        kept = count;
        last = run;
    }
    (kept, last)
}

/// The first runs, in the same memory unless they take less than half of it.
fn first_runs(mut runs: Vec<Run>, kept: usize) -> Vec<Run>
    ensures { result.items ≡ take kept runs.items }
{
    runs.truncate(kept);
    if kept.saturating_mul(2) < runs.capacity() {
        runs.shrink_to_fit();
    }
    runs
}

/// The same members in runs without a common one.
pub fn merge_runs(runs: Vec<Run>) -> Result<Merged, NoMemory>
    requires { 0 < vec_len runs }
    ensures { IfOk result (λ m. IsMerged runs.items (m.others.items ++ m.last ∷ [])) }
{
    let mut runs = sorted(runs);
    let (kept, last) = merge_sorted(runs.as_mut_slice());
    if kept >= MOST_RUNS {
        return Err(NoMemory);
    }
    Ok(Merged {
        others: first_runs(runs, kept),
        last,
    })
}
