ghost use Rattle.std.specs.Prelude.{◌≡◌, ◌<◌, MatchOption};
ghost use Rattle.bit_length.specs.Runs.{starts_by, AreRuns, InSome, IsRunOf};

use crate::run::Run;

/// The run of a number among runs in order, if one has it: found by halves.
pub fn run_with(runs: &[Run], step: u64, n: u64) -> Option<Run>
    requires positive { 0 < step }
    requires runs { AreRuns step runs.now }
    ensures { MatchOption result (InSome step runs.now n → ⊥) (IsRunOf step runs.now n) }
{
    let residue = n % step;
    let quotient = n / step;
    let before = runs.partition_point(
        |run: &Run| -> bool
            ensures { result ≡ starts_by residue quotient run.now }
        { run.starts_by(residue, quotient) },
    );
    if before == 0 {
        return None;
    }
    let run = runs[before - 1];
    if run.has(step, n) { Some(run) } else { None }
}
