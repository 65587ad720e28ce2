ghost use Rattle.std.specs.Prelude.{◌≡◌, ◌≢◌, ℕ, ◌+◌, ◌*◌, ◌%◌, ◌/◌, ◌<◌, ◌≤◌, ◌^◌, ◌↔◌, IsTrue, IfOk, IfSome, length, All};
ghost use Rattle.bit_length.specs.Ascending.{Ascend};
ghost use Rattle.bit_length.specs.Lengths.{Has, Same, Only, Delimited, Multiples, Sums, Joins, Repeats, Pads, SomeLeaves, IsWithin, IsGreatest, IsLeast, IsNext};
ghost use Rattle.bit_length.specs.Moved.{Moved, IsShortAt, AreMultiples, HasSome, moved};
ghost use Rattle.bit_length.specs.Residues.{residues_of};
ghost use Rattle.bit_length.specs.Runs.{IsRun, InRun, InSome, AreRunsOf, HasClass, IsReach};

use crate::LONGEST;
use crate::coarse::coarse_runs;
use crate::listed::listed;
use crate::merge::{Merged, merge_runs};
use crate::parts::{MOST_PARTS, classes, parts_of, push_parts};
use crate::residues::{residues, unmarked, unreached};
use crate::run::{Run, are_same};
use crate::search::run_with;
use crate::steps::{common_divisor, common_multiple, lesser};
use crate::sums::{moved, pads, sums, wide_sums};
use cy_bits::{List, NoMemory};
use std::alloc::Global;
use std::marker::Model;

/// A finite set of numbers that isn't empty, none above `LONGEST`. Contracts see the ascending list
/// of its members.
///
/// It is kept as runs of one step without a common member, in the order of runs. The last stands
/// in the value itself, so a set of one run takes no memory. A set that would need more than 2^20
/// runs, or more than 2^22 while it is worked out, is answered as want of memory.
#[derive(Drop)]
pub struct RunSet {
    /// The step of all runs.
    step: u64,
    /// The runs before the last.
    others: Vec<Run>,
    /// The last run.
    last: Run,
}

impl Model for RunSet {
    ghost use Rattle.std.specs.Prelude.{List, ℕ};
    ghost use Rattle.std.specs.Coded.{coded_list, coded_ℕ};

    ghost Value = { List ℕ };

    ghost coded = { coded_list coded_ℕ };

    ghost use Rattle.bit_length.specs.Members.{view_of, IsSet};

    ghost view = { view_of };

    ghost invariant = { IsSet };
}

impl RunSet {
    /// The set of one number. Takes no memory.
    pub fn of(alloc: Global, n: u64) -> RunSet
        requires { n ≤ 2 ^ 32 }
        ensures { Same (Has result) (Only n) }
    {
        RunSet {
            step: 1,
            others: Vec::new(alloc),
            last: Run {
                residue: 0,
                first: n,
                last: n,
            },
        }
    }

    /// The lengths of a delimited type of an extent in bits, with those of its header. Takes no
    /// memory.
    pub fn delimited(alloc: Global, extent: u64) -> RunSet
        requires whole { extent % 8 ≡ 0 }
        requires short { 32 + extent ≤ 2 ^ 32 }
        ensures { Same (Has result) (Delimited extent) }
    {
        RunSet {
            step: 8,
            others: Vec::new(alloc),
            last: Run {
                residue: 0,
                first: 4,
                last: (32 + extent) / 8,
            },
        }
    }

    /// The multiples of a number, from none of it to so many. Takes no memory.
    pub fn multiples(alloc: Global, step: u64, most: u64) -> RunSet
        requires step { 0 < step }
        requires short { step * most ≤ 2 ^ 32 }
        ensures { Same (Has result) (Multiples step most) }
    {
        RunSet {
            step,
            others: Vec::new(alloc),
            last: Run {
                residue: 0,
                first: 0,
                last: most,
            },
        }
    }

    /// The least member.
    pub fn min(&self) -> u64
        ensures { IsLeast (Has self.now) result }
    {
        let mut least = self.last.member(self.step, self.last.first);
        for run in &self.others {
            least = least.min(run.member(self.step, run.first));
        }
        least
    }

    /// The greatest member.
    pub fn max(&self) -> u64
        ensures greatest { IsGreatest (Has self.now) result }
        ensures short { result ≤ 2 ^ 32 }
    {
        let mut greatest = self.last.member(self.step, self.last.last);
        for run in &self.others {
            greatest = greatest.max(run.member(self.step, run.last));
        }
        greatest
    }

    /// The number of members.
    pub fn count(&self) -> u64
        ensures count { result ≡ length self.now }
        ensures ascending { Ascend self.now }
        ensures short { IsShortAt 0 (Has self.now) }
    {
        let mut count = self.last.count();
        for run in &self.others {
            count += run.count();
        }
        count
    }

    /// Whether a number is a member.
    pub fn has(&self, n: u64) -> bool
        ensures { IsTrue result ↔ Has self.now n }
    {
        if self.last.has(self.step, n) {
            return true;
        }
        run_with(self.others.as_slice(), self.step, n).is_some()
    }

    /// The least member that is no less than a number, if there is one.
    pub fn next(&self, n: u64) -> Option<u64>
        ensures { IsNext (Has self.now) n result }
    {
        let mut least = self.last.next(self.step, n);
        for run in &self.others {
            least = lesser(least, run.next(self.step, n));
        }
        least
    }

    /// Where the set's runs are kept.
    pub fn alloc(&self) -> Global {
        *self.others.allocator()
    }

    /// The set of the members of some runs of one step, at that step.
    fn merged(step: u64, runs: Vec<Run>) -> Result<RunSet, NoMemory>
        requires some { (n : ℕ) × InSome step runs.items n }
        requires each { All (IsRun step) runs.items }
        ensures { IfOk result (λ s. Same (Has s) (InSome step runs.items)) }
    {
        let Merged { others, last } = merge_runs(runs)?;
        Ok(RunSet { step, others, last })
    }

    /// The set of the members of some runs of one step, of which another step may be a divisor.
    fn from_runs(step: u64, runs: Vec<Run>, finer: u64) -> Result<RunSet, NoMemory>
        requires some { (n : ℕ) × InSome step runs.items n }
        requires each { All (IsRun step) runs.items }
        ensures { IfOk result (λ s. Same (Has s) (InSome step runs.items)) }
    {
        RunSet::merged(step, runs)?.simplified()?.coarsened(finer)
    }

    /// The members as runs of a step.
    fn runs_at(&self, step: u64) -> Result<Vec<Run>, NoMemory>
        requires { 0 < step }
        ensures runs { IfOk result (λ r. AreRunsOf step r.items (Has self.now)) }
        ensures some { IfOk result (λ _. (n : ℕ) × Has self.now n) }
    {
        let mut parts = Vec::with_capacity(self.alloc(), self.parts_at(step)?)?;
        if step == self.step {
            parts.extend_from_slice(self.others.as_slice())?;
            parts.push(self.last)?;
            return Ok(parts);
        }
        for run in &self.others {
            push_parts(&mut parts, run, self.step, step)?;
        }
        push_parts(&mut parts, &self.last, self.step, step)?;
        Ok(parts)
    }

    /// The room that `runs_at` takes at first; want of memory where it would make more than
    /// `MOST_PARTS` runs. No clause tells when memory is wanting, so none tells of this limit.
    fn parts_at(&self, step: u64) -> Result<usize, NoMemory> {
        let cost = self.cost(step);
        if cost > MOST_PARTS {
            return Err(NoMemory);
        }
        Ok(cost as usize)
    }

    /// How many runs of a step `runs_at` would make.
    fn cost(&self, step: u64) -> u64 {
        let classes = classes(self.step, step);
        let mut cost = parts_of(&self.last, classes);
        for run in &self.others {
            cost = cost.saturating_add(parts_of(run, classes));
        }
        cost
    }

    /// Whether each run has one member.
    fn is_single(&self) -> bool {
        self.last.first == self.last.last && self.others.iter().all(|run| run.first == run.last)
    }

    /// The greatest step at which all members leave one residue, where each run has one member; 0
    /// where there is one member.
    fn widest_step(&self) -> u64 {
        let start = self.last.member(self.step, self.last.last);
        let mut step = 0;
        for run in &self.others {
            step = common_divisor(step, start.abs_diff(run.member(self.step, run.last)));
        }
        step
    }

    /// The same set in fewer runs, where each of its runs has one member.
    fn simplified(self) -> Result<RunSet, NoMemory>
        ensures { IfOk result (λ s. Same (Has s) (Has self)) }
    {
        if !self.is_single() {
            return Ok(self);
        }
        let step = self.widest_step();
        if step == 0 {
            return Ok(self);
        }
        RunSet::merged(step, self.runs_at(step)?)
    }

    /// A step at which the runs of two sets are few.
    fn common_step(&self, o: &RunSet) -> u64
        ensures { 0 < result }
    {
        if self.step == o.step {
            return self.step;
        }
        if self.is_single() {
            return o.step;
        }
        if o.is_single() {
            return self.step;
        }
        let best = cheaper(self, o, self.step, o.step);
        match common_multiple(self.step, o.step) {
            Some(multiple) => cheaper(self, o, best, multiple),
            None => best,
        }
    }

    /// The same set in fewer runs, if at a step that divides its own it has fewer.
    fn coarsened(self, finer: u64) -> Result<RunSet, NoMemory>
        ensures { IfOk result (λ s. Same (Has s) (Has self)) }
    {
        match self.at_finer(finer)? {
            Some(coarse) if coarse.others.len() < self.others.len() && coarse.equals(&self) => {
                Ok(coarse)
            }
            _ => Ok(self),
        }
    }

    /// Whether there are runs enough for each remainder of a class modulo a step that divides this
    /// set's.
    fn meets_all(&self, finer: u64) -> bool
        requires { 0 < finer }
    {
        let all = self.step / finer;
        self.step % finer == 0 && 1 < all && all <= self.others.len() as u64 + 1
    }

    /// A set that likely has the same members, at a step that divides this set's.
    fn at_finer(&self, finer: u64) -> Result<Option<RunSet>, NoMemory> {
        if finer == 0 || !self.meets_all(finer) {
            return Ok(None);
        }
        let runs = self.runs_at(self.step)?;
        let coarse = coarse_runs(self.alloc(), runs.as_slice(), self.step, finer)?;
        let Some(coarse) = coarse else {
            return Ok(None);
        };
        if coarse.is_empty() {
            return Ok(None);
        }
        Ok(Some(RunSet::merged(finer, coarse)?))
    }

    /// A step that is a multiple of `to`, at which the runs are few.
    fn step_for(&self, to: u64) -> u64
        requires { 0 < to }
        ensures positive { 0 < result }
        ensures multiple { result % to ≡ 0 }
    {
        if self.is_single() {
            return to;
        }
        match common_multiple(self.step, to) {
            Some(multiple) => multiple,
            None => to,
        }
    }

    /// The set of the members of one run. Takes no memory.
    fn one(alloc: Global, step: u64, run: Run) -> RunSet
        requires { IsRun step run }
        ensures { Same (Has result) (InRun step run) }
    {
        RunSet {
            step,
            others: Vec::new(alloc),
            last: run,
        }
    }

    /// The number of the set, where it is kept as one number.
    pub fn single(&self) -> Option<u64>
        ensures short { IfSome result (λ n. n ≤ 2 ^ 32) }
        ensures member { IfSome result (λ n. Same (Only n) (Has self.now)) }
    {
        if !self.others.as_slice().is_empty() {
            return None;
        }
        if self.last.first == self.last.last {
            return Some(self.last.member(self.step, self.last.last));
        }
        None
    }

    /// The set as one run of a step, where it is kept as one number.
    fn single_at(&self, step: u64) -> Option<Run>
        requires { 0 < step }
        ensures run { IfSome result (IsRun step) }
        ensures members { IfSome result (λ run. Same (InRun step run) (Has self.now)) }
    {
        let n = self.single()?;
        Some(Run::single(step, n))
    }

    /// The set as one run of a step, where it is kept as one of this step, or as one number.
    fn as_run(&self, step: u64) -> Option<Run>
        requires { 0 < step }
        ensures run { IfSome result (IsRun step) }
        ensures members { IfSome result (λ run. Same (InRun step run) (Has self.now)) }
    {
        if self.step != step {
            return self.single_at(step);
        }
        if self.others.as_slice().is_empty() {
            return Some(self.last);
        }
        None
    }

    /// The number of the set, where it is kept as one number above 0, and another set as 0 alone.
    fn above_zero(&self, o: &RunSet) -> Option<u64>
        ensures short { IfSome result (λ n. n ≤ 2 ^ 32) }
        ensures positive { IfSome result (λ n. 0 < n) }
        ensures member { IfSome result (λ n. Same (Only n) (Has self.now)) }
        ensures zero { IfSome result (λ _. Same (Only 0) (Has o.now)) }
    {
        let n = self.single()?;
        let least = o.single()?;
        if n == 0 || least != 0 {
            return None;
        }
        Some(n)
    }

    /// All sums of a number and a member: the runs of this set, moved by the number.
    pub fn moved(&self, n: u64) -> Result<RunSet, NoMemory>
        requires { (m : ℕ) → Sums (Only n) (Has self.now) m → m ≤ 2 ^ 32 }
        ensures { IfOk result (λ s. Same (Has s) (Sums (Only n) (Has self.now))) }
    {
        let one = Run::single(self.step, n);
        let runs = moved(
            self.alloc(),
            self.step,
            &one,
            self.others.as_slice(),
            &self.last,
        )?;
        RunSet::merged(self.step, runs)
    }

    /// The runs of all sums of a member of a run and a member of the set, at a step: in order where
    /// the step is the set's.
    fn sums_with(&self, step: u64, one: &Run) -> Result<Vec<Run>, NoMemory>
        requires run { IsRun step one.now }
        requires short { (n : ℕ) → Sums (InRun step one.now) (Has self.now) n → n ≤ 2 ^ 32 }
        ensures { IfOk result
            (λ r. AreRunsOf step r.items (Sums (InRun step one.now) (Has self.now))) }
    {
        if self.step == step {
            let others = self.others.as_slice();
            return moved(self.alloc(), step, one, others, &self.last);
        }
        match classes(step, self.step) {
            Some(many) if many <= one.count() => {
                wide_sums(self.alloc(), step, many, one, &self.runs_at(self.step)?)
            }
            _ => sums(self.alloc(), step, &[*one], &self.runs_at(step)?),
        }
    }

    /// The runs of all sums of a member each, at a step.
    fn sums_at(&self, step: u64, o: &RunSet) -> Result<Vec<Run>, NoMemory>
        requires positive { 0 < step }
        requires short { (n : ℕ) → Sums (Has self.now) (Has o.now) n → n ≤ 2 ^ 32 }
        ensures { IfOk result (λ r. AreRunsOf step r.items (Sums (Has self.now) (Has o.now))) }
    {
        if let Some(run) = o.as_run(step) {
            return self.sums_with(step, &run);
        }
        if let Some(run) = self.as_run(step) {
            return o.sums_with(step, &run);
        }
        sums(self.alloc(), step, &self.runs_at(step)?, &o.runs_at(step)?)
    }

    /// All sums of a member each.
    pub fn sum_within(&self, o: &RunSet) -> Result<RunSet, NoMemory>
        requires { (n : ℕ) → Sums (Has self.now) (Has o.now) n → n ≤ 2 ^ 32 }
        ensures { IfOk result (λ s. Same (Has s) (Sums (Has self.now) (Has o.now))) }
    {
        let step = self.common_step(o);
        if let (Some(a), Some(b)) = (self.as_run(step), o.as_run(step)) {
            return Ok(RunSet::one(self.alloc(), step, a.plus(step, &b)));
        }
        if let Some(n) = o.single() {
            return self.moved(n);
        }
        if let Some(n) = self.single() {
            return o.moved(n);
        }
        let runs = self.sums_at(step, o)?;
        RunSet::from_runs(step, runs, common_divisor(self.step, o.step))
    }

    /// The members of either.
    fn join_within(&self, o: &RunSet) -> Result<RunSet, NoMemory>
        ensures { IfOk result (λ s. Same (Has s) (Joins (Has self.now) (Has o.now))) }
    {
        if let Some(n) = self.above_zero(o) {
            let run = Run {
                residue: 0,
                first: 0,
                last: 1,
            };
            return Ok(RunSet::one(self.alloc(), n, run));
        }
        let step = self.common_step(o);
        let mut runs = self.runs_at(step)?;
        runs.extend_from_slice(o.runs_at(step)?.as_slice())?;
        RunSet::from_runs(step, runs, common_divisor(self.step, o.step))
    }

    /// The members of this set, and of another that is moved up by a number.
    pub fn join_moved(&self, o: &RunSet, by: u64) -> Result<RunSet, NoMemory>
        requires { IsShortAt by (Has o.now) }
        ensures { IfOk result
            (λ s. Same (Has s) (Joins (Has self.now) (Moved by (Has o.now)))) }
    {
        if by == 0 {
            return self.join_within(o);
        }
        self.join_within(&o.moved(by)?)
    }

    /// All sums of `n` members.
    pub fn repeat_within(&self, n: u32) -> Result<RunSet, NoMemory>
        requires { (k : ℕ) → Repeats (Has self.now) n k → k ≤ 2 ^ 32 }
        ensures { IfOk result (λ s. Same (Has s) (Repeats (Has self.now) n)) }
    {
        if let Some(run) = self.as_run(self.step) {
            return Ok(RunSet::one(self.alloc(), self.step, run.times(self.step, n)));
        }
        if n == 0 {
            return Ok(RunSet::of(self.alloc(), 0));
        }
        let half = self.repeat_within(n / 2)?;
        if self.is_less_work(&half, n - n / 2) {
            return self.repeat_from(half, n / 2, n);
        }
        let both = half.sum_within(&half)?;
        if n % 2 == 0 {
            Ok(both)
        } else {
            self.sum_within(&both)
        }
    }

    /// All sums of `n` members, from those of fewer: one member more at a time.
    fn repeat_from(&self, sums: RunSet, fewer: u32, n: u32) -> Result<RunSet, NoMemory>
        requires fewer { fewer ≤ n }
        requires sums { Same (Has sums) (Repeats (Has self.now) fewer) }
        requires short { (k : ℕ) → Repeats (Has self.now) n k → k ≤ 2 ^ 32 }
        ensures { IfOk result (λ s. Same (Has s) (Repeats (Has self.now) n)) }
    {
        let mut sums = sums;
        for _ in fewer..n {
            sums = self.sum_within(&sums)?;
        }
        Ok(sums)
    }

    /// How many runs the set is kept as.
    #[inline(always)]
    pub fn run_count(&self) -> u64
        ensures { HasSome (Has self.now) }
    {
        (self.others.len() as u64).saturating_add(1)
    }

    /// Whether it is less work to add so many members to some sums, one after another, than to add
    /// the sums to themselves.
    fn is_less_work(&self, sums: &RunSet, n: u32) -> bool {
        let adding = self.run_count().saturating_mul(n as u64);
        let runs = sums.run_count();
        adding < runs && adding.saturating_mul(runs) <= MOST_PARTS
    }

    /// A number of which all members are multiples.
    pub fn divisor(&self) -> u64
        ensures positive { 0 < result }
        ensures divides { AreMultiples (Has self.now) result }
    {
        let mut divisor = common_divisor(self.last.residue, self.step);
        for run in &self.others {
            divisor = common_divisor(run.residue, divisor);
        }
        divisor
    }

    /// Whether the step and all residues are multiples of `to`, so that all members are.
    fn is_padded(&self, to: u64) -> bool
        requires { 0 < to }
        ensures { IsTrue result → Same (Has self.now) (Pads (Has self.now) to) }
    {
        if self.step % to != 0 || self.last.residue % to != 0 {
            return false;
        }
        for run in &self.others {
            if run.residue % to != 0 {
                return false;
            }
        }
        true
    }

    /// Each member, brought up to a multiple of `to`.
    pub fn pad_within(&self, to: u64) -> Result<RunSet, NoMemory>
        requires positive { 0 < to }
        requires short { (n : ℕ) → Pads (Has self.now) to n → n ≤ 2 ^ 32 }
        ensures { IfOk result (λ s. Same (Has s) (Pads (Has self.now) to)) }
    {
        if self.is_padded(to) {
            return self.copy_to(self.alloc());
        }
        let step = self.step_for(to);
        if let Some(run) = self.as_run(step) {
            return Ok(RunSet::one(self.alloc(), step, run.padded(step, to)));
        }
        let runs = pads(self.alloc(), step, to, &self.runs_at(step)?)?;
        RunSet::from_runs(step, runs, to)
    }

    /// The same set, in memory of its own.
    pub fn copy_to(&self, alloc: Global) -> Result<RunSet, NoMemory>
        ensures { IfOk result (λ s. s ≡ self.now) }
    {
        Ok(RunSet {
            step: self.step,
            others: Vec::from_slice(alloc, self.others.as_slice())?,
            last: self.last,
        })
    }

    /// Whether some member is `r` modulo `k`, which is 1 or more.
    pub fn residue(&self, k: u32, r: u32) -> bool
        requires { 0 < k }
        ensures { IsTrue result ↔ SomeLeaves (Has self.now) k r }
    {
        if self.last.leaves(self.step, k as u64, r as u64) {
            return true;
        }
        for run in &self.others {
            if run.leaves(self.step, k as u64, r as u64) {
                return true;
            }
        }
        false
    }

    /// What the members, moved up by a number, leave modulo `k`, which is 1 or more, ascending.
    pub fn residues(&self, alloc: Global, by: u64, k: u32) -> Result<List<u64>, NoMemory>
        requires positive { 0 < k }
        requires short { IsShortAt by (Has self.now) }
        ensures { IfOk result (λ residues. residues ≡ residues_of (moved by self.now) k) }
    {
        let mut marks = unmarked(alloc, k as u64)?;
        let mut reaches = unreached(alloc, k as u64)?;
        let others = self.others.as_slice();
        residues(
            alloc,
            &mut marks,
            &mut reaches,
            others,
            &self.last,
            self.step,
            by,
        )
    }

    /// The members, moved up by a number, ascending.
    pub fn members(&self, alloc: Global, by: u64) -> Result<List<u64>, NoMemory>
        requires { IsShortAt by (Has self.now) }
        ensures { IfOk result (λ r. r ≡ moved by self.now) }
    {
        let room = self.count() as usize;
        let others = self.others.as_slice();
        Ok(listed(alloc, others, &self.last, self.step, by, room)?)
    }

    /// Whether both have the same members.
    fn equals(&self, o: &RunSet) -> bool
        ensures { IsTrue result ↔ (self.now ≡ o.now) }
    {
        self.count() == o.count() && self.is_within(0, o, 0)
    }

    /// Whether each member, moved up by a number, is a member of the other set, which is moved up
    /// by a number too.
    pub fn is_within(&self, by: u64, o: &RunSet, at: u64) -> bool
        requires { IsShortAt by (Has self.now) }
        ensures { IsTrue result ↔ IsWithin (Moved by (Has self.now)) (Moved at (Has o.now)) }
    {
        if by == at && self.is_kept_as(o) {
            return true;
        }
        if !o.has_run(at, &self.last.moved(self.step, by), self.step) {
            return false;
        }
        for run in &self.others {
            if !o.has_run(at, &run.moved(self.step, by), self.step) {
                return false;
            }
        }
        true
    }

    /// Whether both are kept as the same runs of one step.
    fn is_kept_as(&self, o: &RunSet) -> bool
        ensures { IsTrue result → self.now ≡ o.now }
    {
        if self.step != o.step {
            return false;
        }
        if !self.last.is(&o.last) {
            return false;
        }
        are_same(self.others.as_slice(), o.others.as_slice())
    }

    /// Whether each member of a run is a member of the set, moved up by a number.
    fn has_run(&self, at: u64, run: &Run, step: u64) -> bool
        requires { IsRun step run.now }
        ensures { IsTrue result ↔ IsWithin (InRun step run.now) (Moved at (Has self.now)) }
    {
        let period = self.step / common_divisor(step, self.step);
        let period = period.min(run.count()).max(1);
        for class in 0..period {
            if !self.has_class(at, run, step, period, run.first + class) {
                return false;
            }
        }
        true
    }

    /// Whether the members of every `period`th quotient of a run, from one on, are members of the
    /// set, moved up by a number.
    fn has_class(&self, at: u64, run: &Run, step: u64, period: u64, from: u64) -> bool
        requires run { IsRun step run.now }
        requires period { 0 < period }
        requires short { step * period < 2 ^ 64 }
        requires near { period ≤ 2 ^ 33 }
        ensures { IsTrue result ↔ HasClass (Moved at (Has self.now)) step run.now period from }
    {
        let mut quotient = from;
        while quotient <= run.last {
            let n = run.member(step, quotient);
            match self.reach_at(at, n, step * period) {
                Some(end) => quotient += (end - n) / step / period * period + period,
                None => return false,
            }
        }
        true
    }

    /// A number up to which a member of the set, moved up by a number, and each further one by a
    /// stride are members.
    fn reach_at(&self, at: u64, n: u64, stride: u64) -> Option<u64>
        requires { n ≤ 2 ^ 32 }
        ensures { IsReach (Moved at (Has self.now)) n stride result }
    {
        match n.checked_sub(at) {
            Some(rest) => match self.reach(rest, stride) {
                Some(end) => Some(at.saturating_add(end).min(LONGEST)),
                None => None,
            },
            None => None,
        }
    }

    /// A number up to which a member and each further one by a stride are members.
    fn reach(&self, n: u64, stride: u64) -> Option<u64>
        requires { n ≤ 2 ^ 32 }
        ensures { IsReach (Has self.now) n stride result }
    {
        let whole = stride % self.step == 0;
        if self.last.has(self.step, n) {
            return Some(self.last.end(self.step, n, whole));
        }
        match run_with(self.others.as_slice(), self.step, n) {
            Some(run) => Some(run.end(self.step, n, whole)),
            None => None,
        }
    }
}

/// The one of two steps at which two sets have fewer runs, and fewer sums of runs.
fn cheaper(a: &RunSet, b: &RunSet, x: u64, y: u64) -> u64
    requires x { 0 < x }
    requires y { 0 < y }
    ensures { 0 < result }
{
    let at_x = a.cost(x).saturating_mul(b.cost(x));
    let at_y = a.cost(y).saturating_mul(b.cost(y));
    if at_y < at_x { y } else { x }
}
