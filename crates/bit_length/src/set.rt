ghost use Rattle.std.specs.Prelude.{◌≡◌, ◌≢◌, ℕ, ◌+◌, ◌*◌, ◌%◌, ◌/◌, ◌<◌, ◌≤◌, ◌^◌, ◌↔◌, IsTrue, IfOk, IfSome, Err, length};
ghost use Rattle.bit_length.specs.Ascending.{Ascend};
ghost use Rattle.bit_length.specs.Lengths.{Has, Same, Only, Delimited, Sums, Joins, Repeats, UpTo, Pads, SomeLeaves, IsWithin, IsLongBeyond, IsGreatest, IsLeast, IsNext};
ghost use Rattle.bit_length.specs.Moved.{Moved, IsShortAt, HasSome};
ghost use Rattle.bit_length.specs.Residues.{residues_of};

use crate::run_set::RunSet;
use crate::runs::Runs;
use crate::{LONGEST, LengthError};
use cy_bits::{List, NoMemory, TryCopy};
use std::alloc::Global;
use std::marker::Model;

/// A finite set of bit lengths that isn't empty, none above `LONGEST`: the bit length set of a
/// serializable type (Cyphal Specification, chapter 3). Contracts see the ascending list of its
/// members.
///
/// It is kept as a number and runs of one step without a common member. One run takes no memory,
/// and many have several owners: a copy of a set, or its sums with one number, share the runs. A
/// set that would need more than 2^20 runs, or more than 2^22 while it is worked out, is answered
/// as want of memory, which no clause says. Questions about a set take no memory, but for `members`
/// and `residues`.
#[derive(Drop)]
pub struct LengthSet {
    /// How many bits the runs are moved up by.
    shift: u64,
    /// The runs.
    runs: Runs,
}

impl Model for LengthSet {
    ghost use Rattle.std.specs.Prelude.{List, ℕ};
    ghost use Rattle.std.specs.Coded.{coded_list, coded_ℕ};

    ghost Value = { List ℕ };

    ghost coded = { coded_list coded_ℕ };

    ghost use Rattle.bit_length.specs.Lengths.{Has};
    ghost use Rattle.bit_length.specs.Moved.{moved, IsShortAt};

    ghost view = { λ s. moved s.shift s.runs };

    ghost invariant = { λ s. IsShortAt s.shift (Has s.runs) };
}

impl LengthSet {
    /// The set of one length. Takes no memory.
    pub fn of(alloc: Global, n: u64) -> Result<LengthSet, LengthError>
        ensures members { IfOk result (λ s. Same (Has s) (Only n)) }
        ensures long { IsLongBeyond result (Only n) }
        ensures no_memory { result ≢ Err LengthError.NoMemory }
    {
        if n > LONGEST {
            return Err(LengthError::Long { greatest: n });
        }
        Ok(LengthSet::alone(RunSet::of(alloc, n)))
    }

    /// The lengths of a delimited type of an extent in bits, a multiple of 8 and at most 2^63: 32,
    /// for the delimiter header (Cyphal Specification, section 3.7.5), and each multiple of 8 from
    /// 0 to the extent. Takes no memory.
    pub fn delimited(alloc: Global, extent: u64) -> Result<LengthSet, LengthError>
        requires whole { extent % 8 ≡ 0 }
        requires small { extent ≤ 2 ^ 63 }
        ensures members { IfOk result (λ s. Same (Has s) (Delimited extent)) }
        ensures long { IsLongBeyond result (Delimited extent) }
        ensures no_memory { result ≢ Err LengthError.NoMemory }
    {
        let greatest = 32 + extent;
        if greatest > LONGEST {
            return Err(LengthError::Long { greatest });
        }
        Ok(LengthSet::alone(RunSet::delimited(alloc, extent)))
    }

    /// The least length.
    pub fn min(&self) -> u64
        ensures { IsLeast (Has self.now) result }
    {
        self.shift + self.runs.min()
    }

    /// The greatest length.
    pub fn max(&self) -> u64
        ensures greatest { IsGreatest (Has self.now) result }
        ensures short { result ≤ 2 ^ 32 }
    {
        self.shift + self.runs.max()
    }

    /// The number of lengths.
    pub fn count(&self) -> u64
        ensures count { result ≡ length self.now }
        ensures ascending { Ascend self.now }
    {
        self.runs.count()
    }

    /// Whether a length is a member.
    pub fn has(&self, n: u64) -> bool
        ensures { IsTrue result ↔ Has self.now n }
    {
        match n.checked_sub(self.shift) {
            Some(rest) => self.runs.get().has(rest),
            None => false,
        }
    }

    /// The least length that is no less than a number, if there is one.
    pub fn next(&self, n: u64) -> Option<u64>
        ensures { IsNext (Has self.now) n result }
    {
        match self.runs.get().next(n.saturating_sub(self.shift)) {
            Some(next) => Some(self.shift + next),
            None => None,
        }
    }

    /// The set of the members of some runs, which it has alone.
    #[inline(always)]
    fn alone(runs: RunSet) -> LengthSet
        requires some { HasSome (Has runs) }
        requires short { IsShortAt 0 (Has runs) }
        ensures { Same (Has result) (Has runs) }
    {
        LengthSet {
            shift: 0,
            runs: Runs::alone(runs),
        }
    }

    /// The set of the members of some runs, moved up by a number.
    #[inline(always)]
    fn at(shift: u64, runs: RunSet) -> Result<LengthSet, NoMemory>
        requires { IsShortAt shift (Has runs) }
        ensures { IfOk result (λ s. Same (Has s) (Moved shift (Has runs))) }
    {
        Ok(LengthSet {
            shift,
            runs: Runs::new(runs)?,
        })
    }

    /// Where the set's runs are kept.
    fn alloc(&self) -> Global {
        self.runs.get().alloc()
    }

    /// The number of the set, where it is kept as one number.
    #[inline(always)]
    fn single(&self) -> Option<u64>
        ensures { IfSome result (λ n. Same (Only n) (Has self.now)) }
    {
        let n = self.runs.get().single()?;
        Some(self.shift + n)
    }

    /// The number of another set, where that is kept as one number and this set has several runs.
    #[inline(always)]
    fn number_beside(&self, o: &LengthSet) -> Option<u64>
        ensures { IfSome result (λ n. Same (Only n) (Has o.now)) }
    {
        if self.runs.get().run_count() > 1 {
            o.single()
        } else {
            None
        }
    }

    /// All sums of a member and a number.
    fn shifted(&self, n: u64) -> Result<LengthSet, NoMemory>
        requires { (m : ℕ) → Sums (Has self.now) (Only n) m → m ≤ 2 ^ 32 }
        ensures { IfOk result (λ s. Same (Has s) (Sums (Has self.now) (Only n))) }
    {
        let runs = self.runs.copy()?;
        Ok(LengthSet {
            shift: self.shift + n,
            runs,
        })
    }

    /// All sums of a member each.
    fn sum_within(&self, o: &LengthSet) -> Result<LengthSet, NoMemory>
        requires { (n : ℕ) → Sums (Has self.now) (Has o.now) n → n ≤ 2 ^ 32 }
        ensures { IfOk result (λ s. Same (Has s) (Sums (Has self.now) (Has o.now))) }
    {
        if let Some(n) = self.number_beside(o) {
            return self.shifted(n);
        }
        if let Some(n) = o.number_beside(self) {
            return o.shifted(n);
        }
        let runs = self.runs.get().sum_within(o.runs.get())?;
        LengthSet::at(self.shift + o.shift, runs)
    }

    /// The members of either.
    fn join_within(&self, o: &LengthSet) -> Result<LengthSet, NoMemory>
        ensures { IfOk result (λ s. Same (Has s) (Joins (Has self.now) (Has o.now))) }
    {
        let (a, b) = (self.runs.get(), o.runs.get());
        if self.shift <= o.shift {
            LengthSet::at(self.shift, a.join_moved(b, o.shift - self.shift)?)
        } else {
            LengthSet::at(o.shift, b.join_moved(a, self.shift - o.shift)?)
        }
    }

    /// All sums of `n` members.
    fn repeat_within(&self, n: u32) -> Result<LengthSet, NoMemory>
        requires { (k : ℕ) → Repeats (Has self.now) n k → k ≤ 2 ^ 32 }
        ensures { IfOk result (λ s. Same (Has s) (Repeats (Has self.now) n)) }
    {
        let runs = self.runs.get().repeat_within(n)?;
        LengthSet::at(self.shift * n as u64, runs)
    }

    /// Each member, brought up to a multiple of `to`.
    fn pad_within(&self, to: u64) -> Result<LengthSet, NoMemory>
        requires positive { 0 < to }
        requires small { to ≤ 2 ^ 32 }
        requires short { (n : ℕ) → Pads (Has self.now) to n → n ≤ 2 ^ 32 }
        ensures { IfOk result (λ s. Same (Has s) (Pads (Has self.now) to)) }
    {
        let runs = self.runs.get();
        if self.runs.divisor() % to == 0 {
            return Ok(LengthSet {
                shift: (self.shift + (to - 1)) / to * to,
                runs: self.runs.copy()?,
            });
        }
        if self.shift % to == 0 {
            return LengthSet::at(self.shift, runs.pad_within(to)?);
        }
        LengthSet::at(0, runs.moved(self.shift)?.pad_within(to)?)
    }

    /// The set of all sums of a member each.
    pub fn sum(&self, o: &LengthSet) -> Result<LengthSet, LengthError>
        ensures members { IfOk result (λ s. Same (Has s) (Sums (Has self.now) (Has o.now))) }
        ensures long { IsLongBeyond result (Sums (Has self.now) (Has o.now)) }
    {
        let greatest = self.max() + o.max();
        if greatest > LONGEST {
            return Err(LengthError::Long { greatest });
        }
        Ok(self.sum_within(o)?)
    }

    /// The set of the members of either. Never answers Long.
    pub fn join(&self, o: &LengthSet) -> Result<LengthSet, LengthError>
        ensures members { IfOk result (λ s. Same (Has s) (Joins (Has self.now) (Has o.now))) }
        ensures never_long { (g : ℕ) → result ≢ Err (LengthError.Long g) }
    {
        Ok(self.join_within(o)?)
    }

    /// The set of all sums of `n` members.
    pub fn repeat(&self, n: u32) -> Result<LengthSet, LengthError>
        ensures members { IfOk result (λ s. Same (Has s) (Repeats (Has self.now) n)) }
        ensures long { IsLongBeyond result (Repeats (Has self.now) n) }
    {
        let greatest = self.max() * n as u64;
        if greatest > LONGEST {
            return Err(LengthError::Long { greatest });
        }
        Ok(self.repeat_within(n)?)
    }

    /// The set of all sums of at most `n` members.
    pub fn up_to(&self, n: u32) -> Result<LengthSet, LengthError>
        ensures members { IfOk result (λ s. Same (Has s) (UpTo (Has self.now) n)) }
        ensures long { IsLongBeyond result (UpTo (Has self.now) n) }
    {
        let greatest = self.max() * n as u64;
        if greatest > LONGEST {
            return Err(LengthError::Long { greatest });
        }
        if let Some(bits) = self.single() {
            if bits > 0 {
                return Ok(LengthSet::alone(RunSet::multiples(self.alloc(), bits, n as u64)));
            }
        }
        let zero = LengthSet::alone(RunSet::of(self.alloc(), 0));
        Ok(self.join_within(&zero)?.repeat_within(n)?)
    }

    /// The set of each member, brought up to a multiple of `to` bits, 1 or more.
    pub fn pad(&self, to: u32) -> Result<LengthSet, LengthError>
        requires { 0 < to }
        ensures members { IfOk result (λ s. Same (Has s) (Pads (Has self.now) to)) }
        ensures long { IsLongBeyond result (Pads (Has self.now) to) }
    {
        let to = to as u64;
        let greatest = (self.max() + (to - 1)) / to * to;
        if greatest > LONGEST {
            return Err(LengthError::Long { greatest });
        }
        Ok(self.pad_within(to)?)
    }

    /// The same set. Never answers Long.
    pub fn copy(&self) -> Result<LengthSet, LengthError>
        ensures same { IfOk result (λ s. s ≡ self.now) }
        ensures never_long { (g : ℕ) → result ≢ Err (LengthError.Long g) }
    {
        Ok(self.copied()?)
    }

    /// The same set.
    fn copied(&self) -> Result<LengthSet, NoMemory>
        ensures { IfOk result (λ s. s ≡ self.now) }
    {
        Ok(LengthSet {
            shift: self.shift,
            runs: self.runs.copy()?,
        })
    }

    /// Whether some member is `r` modulo `k`, which is 1 or more.
    pub fn residue(&self, k: u32, r: u32) -> bool
        requires { 0 < k }
        ensures { IsTrue result ↔ SomeLeaves (Has self.now) k r }
    {
        if r >= k {
            return false;
        }
        let (divisor, rest) = (k as u64, r as u64);
        let rest = (rest + (divisor - self.shift % divisor)) % divisor;
        self.runs.get().residue(k, rest as u32)
    }

    /// What the members leave modulo `k`, which is 1 or more, ascending.
    pub fn residues(&self, alloc: Global, k: u32) -> Result<List<u64>, NoMemory>
        requires { 0 < k }
        ensures { IfOk result (λ residues. residues ≡ residues_of self.now k) }
    {
        self.runs.get().residues(alloc, self.shift, k)
    }

    /// The members, ascending.
    pub fn members(&self, alloc: Global) -> Result<List<u64>, NoMemory>
        ensures { IfOk result (λ r. r ≡ self.now) }
    {
        self.runs.get().members(alloc, self.shift)
    }

    /// Whether both have the same members.
    pub fn equals(&self, o: &LengthSet) -> bool
        ensures { IsTrue result ↔ (self.now ≡ o.now) }
    {
        self.count() == o.count() && self.is_within(o)
    }

    /// Whether each member is a member of the other set.
    pub fn is_within(&self, o: &LengthSet) -> bool
        ensures { IsTrue result ↔ IsWithin (Has self.now) (Has o.now) }
    {
        self.runs.get().is_within(self.shift, o.runs.get(), o.shift)
    }
}

impl TryCopy for LengthSet {
    fn copy(&self, _alloc: Global) -> Result<LengthSet, NoMemory> {
        self.copied()
    }
}
