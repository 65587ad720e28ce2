ghost use Rattle.std.specs.Prelude.{◌≡◌, ℕ, ◌+◌, ◌*◌, ◌%◌, ◌^◌, ◌<◌, ◌≤◌, IsTrue, ◌↔◌, if◌then◌else◌, IfSome};
ghost use Rattle.bit_length.specs.Runs.{in_run, is_same, starts_by, IsRun, InRun};
ghost use Rattle.bit_length.specs.Moved.{Moved};
ghost use Rattle.bit_length.specs.Lengths.{Same, Only, Sums, Repeats, Pads, IsNext, SomeLeaves, padded as padded_of};

use crate::LONGEST;
use crate::steps::common_divisor;

/// The numbers that leave `residue` when they are divided by a step, and whose quotients are those
/// from `first` to `last`.
///
/// Runs are ordered by their residues, and then by their first quotients.
#[derive(Clone, Copy, PartialEq, Eq, PartialOrd, Ord, Drop)]
pub struct Run {
    /// The remainder, below the step.
    pub residue: u64,
    /// The least quotient.
    pub first: u64,
    /// The greatest quotient.
    pub last: u64,
}

impl Run {
    /// The run of one number.
    pub fn single(step: u64, n: u64) -> Run
        requires step { 0 < step }
        requires short { n ≤ 2 ^ 32 }
        ensures run { IsRun step result }
        ensures member { Same (InRun step result) (Only n) }
    {
        Run {
            residue: n % step,
            first: n / step,
            last: n / step,
        }
    }

    /// The run of the quotients from `first` to below `end`, if it has a member and none is above
    /// `LONGEST`.
    pub fn between(step: u64, residue: u64, first: u64, end: u64) -> Option<Run>
        ensures { IfSome result (IsRun step) }
    {
        let last = end.checked_sub(1)?;
        let greatest = step.checked_mul(last)?.checked_add(residue)?;
        if first <= last && residue < step && greatest <= LONGEST {
            Some(Run {
                residue,
                first,
                last,
            })
        } else {
            None
        }
    }

    /// How many members there are.
    pub fn count(&self) -> u64
        requires order { self.now.first ≤ self.now.last }
        requires short { self.now.last ≤ 2 ^ 32 }
        ensures { result + self.now.first ≡ self.now.last + 1 }
    {
        self.last - self.first + 1
    }

    /// The member of a quotient.
    pub fn member(&self, step: u64, quotient: u64) -> u64
        requires run { IsRun step self.now }
        requires within { quotient ≤ self.now.last }
        ensures value { result ≡ self.now.residue + step * quotient }
        ensures short { result ≤ 2 ^ 32 }
    {
        self.residue + step * quotient
    }

    /// Whether a number is a member, at a step.
    pub fn has(&self, step: u64, n: u64) -> bool
        requires { 0 < step }
        ensures { result ≡ in_run step n self.now }
    {
        n % step == self.residue && self.first <= n / step && n / step <= self.last
    }

    /// Whether both are the same run.
    pub fn is(&self, o: &Run) -> bool
        ensures { result ≡ is_same self.now o.now }
    {
        self.residue == o.residue && self.first == o.first && self.last == o.last
    }

    /// Whether the run stands no later, in the order of runs, than one that begins at a quotient.
    pub fn starts_by(&self, residue: u64, quotient: u64) -> bool
        ensures { result ≡ starts_by residue quotient self.now }
    {
        self.residue < residue || (self.residue == residue && self.first <= quotient)
    }

    /// The greatest member, or the number itself where further members don't matter.
    pub fn end(&self, step: u64, n: u64, further: bool) -> u64
        requires { IsRun step self.now }
        ensures { result ≡ (if further then self.now.residue + step * self.now.last else n) }
    {
        if further {
            self.member(step, self.last)
        } else {
            n
        }
    }

    /// The run of all sums of a member each, at a step.
    pub fn plus(&self, step: u64, o: &Run) -> Run
        requires run { IsRun step self.now }
        requires other { IsRun step o.now }
        requires short { self.now.residue + step * self.now.last
            + (o.now.residue + step * o.now.last) ≤ 2 ^ 32 }
        ensures run { IsRun step result }
        ensures sums { Same (InRun step result) (Sums (InRun step self.now) (InRun step o.now)) }
    {
        let residue = self.residue + o.residue;
        let carry = if residue < step { 0 } else { 1 };
        Run {
            residue: residue - step * carry,
            first: self.first + o.first + carry,
            last: self.last + o.last + carry,
        }
    }

    /// The run of each member, moved up by a number.
    pub fn moved(&self, step: u64, by: u64) -> Run
        requires run { IsRun step self.now }
        requires short { by + (self.now.residue + step * self.now.last) ≤ 2 ^ 32 }
        ensures run { IsRun step result }
        ensures moved { Same (InRun step result) (Moved by (InRun step self.now)) }
    {
        Run::single(step, by).plus(step, self)
    }

    /// The run of all sums of a member of this run and of one of the step `step * many`, where this
    /// run has no fewer members than `many`, so that the sums leave no gap.
    pub fn plus_wide(&self, step: u64, many: u64, o: &Run) -> Run
        requires run { IsRun step self.now }
        requires positive { 0 < many }
        requires long { self.now.first + many ≤ self.now.last + 1 }
        requires other { IsRun (step * many) o.now }
        requires short { self.now.residue + step * self.now.last
            + (o.now.residue + step * many * o.now.last) ≤ 2 ^ 32 }
        ensures run { IsRun step result }
        ensures sums { Same (InRun step result)
            (Sums (InRun step self.now) (InRun (step * many) o.now)) }
    {
        let residue = self.residue + o.residue;
        let carry = residue / step;
        Run {
            residue: residue % step,
            first: self.first + many * o.first + carry,
            last: self.last + many * o.last + carry,
        }
    }

    /// The run of all sums of `n` members, at a step.
    pub fn times(&self, step: u64, n: u32) -> Run
        requires run { IsRun step self.now }
        requires short { (self.now.residue + step * self.now.last) * n ≤ 2 ^ 32 }
        ensures run { IsRun step result }
        ensures repeats { Same (InRun step result) (Repeats (InRun step self.now) n) }
    {
        let n = n as u64;
        let residue = self.residue * n;
        let carry = residue / step;
        Run {
            residue: residue % step,
            first: self.first * n + carry,
            last: self.last * n + carry,
        }
    }

    /// The least member that is no less than a number.
    pub fn next(&self, step: u64, n: u64) -> Option<u64>
        requires { IsRun step self.now }
        ensures { IsNext (InRun step self.now) n result }
    {
        let quotient = n
            .saturating_sub(self.residue)
            .div_ceil(step)
            .max(self.first);
        if quotient <= self.last {
            Some(self.member(step, quotient))
        } else {
            None
        }
    }

    /// Whether the quotients of another run, which doesn't stand before this one, go on with this
    /// run's.
    pub fn touches(&self, next: &Run) -> bool
        ensures { IsTrue result
            ↔ ((next.now.residue ≡ self.now.residue) × (next.now.first ≤ self.now.last + 1)) }
    {
        next.residue == self.residue && next.first.saturating_sub(1) <= self.last
    }

    /// The run of each member, brought up to a multiple of `to`, of which the step is a multiple.
    pub fn padded(&self, step: u64, to: u64) -> Run
        requires run { IsRun step self.now }
        requires positive { 0 < to }
        requires multiple { step % to ≡ 0 }
        requires short { padded_of to (self.now.residue + step * self.now.last) ≤ 2 ^ 32 }
        ensures run { IsRun step result }
        ensures pads { Same (InRun step result) (Pads (InRun step self.now) to) }
    {
        let residue = (self.residue + (to - 1)) / to * to;
        let carry = if residue < step { 0 } else { 1 };
        Run {
            residue: residue - step * carry,
            first: self.first + carry,
            last: self.last + carry,
        }
    }

    /// Whether some member is `r` modulo `k`.
    pub fn leaves(&self, step: u64, k: u64, r: u64) -> bool
        requires run { IsRun step self.now }
        requires positive { 0 < k }
        requires small { k ≤ 2 ^ 32 }
        ensures { IsTrue result ↔ SomeLeaves (InRun step self.now) k r }
    {
        let common = common_divisor(step, k);
        if self.residue % common != r % common {
            return false;
        }
        for quotient in self.first..(self.last + 1).min(self.first + k / common) {
            if self.member(step, quotient) % k == r {
                return true;
            }
        }
        false
    }
}

/// Whether some runs are the same as others, one by one.
pub fn are_same(runs: &[Run], others: &[Run]) -> bool
    ensures { IsTrue result → runs.now ≡ others.now }
{
    if runs.len() != others.len() {
        return false;
    }
    for at in 0..runs.len() {
        if !runs[at].is(&others[at]) {
            return false;
        }
    }
    true
}
