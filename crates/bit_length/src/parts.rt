ghost use Rattle.std.specs.Prelude.{◌≡◌, ℕ, ◌+◌, ◌*◌, ◌^◌, ◌<◌, ◌≤◌, IfSome, OnOk};
ghost use Rattle.bit_length.specs.Runs.{IsRun, InRun, Adds};

use crate::run::Run;
use cy_bits::NoMemory;

/// The greatest number of runs that are worked on at a time.
pub const MOST_PARTS: u64 = 1 << 22;

/// Appends a run in classes: one run of the step `step * many` for each remainder of the quotients
/// modulo `many`, where no class is empty.
fn push_classes(parts: &mut Vec<Run>, run: &Run, step: u64, many: u64) -> Result<(), NoMemory>
    requires run { IsRun step run.now }
    requires some { 0 < many }
    requires filled { run.now.first + many ≤ run.now.last + 1 }
    ensures { OnOk result
        (Adds (step * many) parts.old.items parts.new.items (InRun step run.now)) }
{
    for class in 0..many {
        parts.push(Run {
            residue: run.member(step, class),
            first: (run.first + (many - 1 - class)) / many,
            last: (run.last - class) / many,
        })?;
    }
    Ok(())
}

/// Appends each member of a run as a run of another step.
fn push_singles(parts: &mut Vec<Run>, run: &Run, step: u64, wide: u64) -> Result<(), NoMemory>
    requires run { IsRun step run.now }
    requires wide { 0 < wide }
    ensures { OnOk result (Adds wide parts.old.items parts.new.items (InRun step run.now)) }
{
    for quotient in run.first..run.last + 1 {
        parts.push(Run::single(wide, run.member(step, quotient)))?;
    }
    Ok(())
}

/// How many classes a run of one step has at another, where the other is a multiple. That it tells
/// each multiple isn't proved: else the members come one by one.
pub fn classes(step: u64, wide: u64) -> Option<u64>
    requires { 0 < step }
    ensures { IfSome result (λ many. step * many ≡ wide) }
{
    if wide % step == 0 {
        Some(wide / step)
    } else {
        None
    }
}

/// How many runs of another step a run of one step becomes, with so many classes: an estimate of the
/// work, of which nothing is proved.
pub fn parts_of(run: &Run, classes: Option<u64>) -> u64
    requires order { run.now.first ≤ run.now.last }
    requires short { run.now.last ≤ 2 ^ 32 }
{
    let count = run.count();
    match classes {
        Some(many) => count.min(many),
        None => count,
    }
}

/// Appends the members of a run of one step as runs of another step: one for each class where the
/// other step is a multiple with no more classes than members, and else one for each member.
pub fn push_parts(parts: &mut Vec<Run>, run: &Run, step: u64, wide: u64) -> Result<(), NoMemory>
    requires run { IsRun step run.now }
    requires wide { 0 < wide }
    ensures { OnOk result (Adds wide parts.old.items parts.new.items (InRun step run.now)) }
{
    let classes = classes(step, wide);
    if parts_of(run, classes) > MOST_PARTS.saturating_sub(parts.len() as u64) {
        return Err(NoMemory);
    }
    match classes {
        Some(many) if many <= run.count() => push_classes(parts, run, step, many),
        _ => push_singles(parts, run, step, wide),
    }
}
