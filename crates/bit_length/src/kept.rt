//! Many runs, with what is asked of them again and again.
ghost use Rattle.std.specs.Prelude.{◌≡◌, ℕ, ◌<◌, ◌≤◌, ◌^◌, length, IfOk};
ghost use Rattle.bit_length.specs.Ascending.{Ascend};
ghost use Rattle.bit_length.specs.Lengths.{Has, IsGreatest, IsLeast};
ghost use Rattle.bit_length.specs.Moved.{AreMultiples};

use crate::run_set::RunSet;
use cy_bits::NoMemory;
use std::alloc::Global;
use std::marker::Model;
use std::rc::Rc;

/// Runs, and what is worked out of them once. Contracts see the ascending list of the members.
#[derive(Drop)]
struct Kept {
    runs: RunSet,
    /// The least member.
    least: u64,
    /// The greatest member.
    greatest: u64,
    /// The number of members.
    count: u64,
    /// A number of which all members are multiples.
    divisor: u64,
}

impl Model for Kept {
    ghost use Rattle.std.specs.Prelude.{List, ℕ};
    ghost use Rattle.std.specs.Coded.{coded_list, coded_ℕ};

    ghost Value = { List ℕ };

    ghost coded = { coded_list coded_ℕ };

    ghost use Rattle.bit_length.specs.Kept.{IsKept};

    ghost view = { λ kept. kept.runs };

    ghost invariant = { IsKept };
}

impl Kept {
    /// Works out what is kept of some runs.
    fn of(runs: RunSet) -> Kept
        ensures { result ≡ runs }
    {
        Kept {
            least: runs.min(),
            greatest: runs.max(),
            count: runs.count(),
            divisor: runs.divisor(),
            runs,
        }
    }

    fn runs(&self) -> &RunSet
        ensures { result.now ≡ self.now }
    {
        &self.runs
    }

    fn min(&self) -> u64
        ensures { IsLeast (Has self.now) result }
    {
        self.least
    }

    fn max(&self) -> u64
        ensures greatest { IsGreatest (Has self.now) result }
        ensures short { result ≤ 2 ^ 32 }
    {
        self.greatest
    }

    fn count(&self) -> u64
        ensures count { result ≡ length self.now }
        ensures ascending { Ascend self.now }
    {
        self.count
    }

    fn divisor(&self) -> u64
        ensures positive { 0 < result }
        ensures divides { AreMultiples (Has self.now) result }
    {
        self.divisor
    }
}

/// Runs that may have several owners, with what is asked of them again and again. Contracts see the
/// ascending list of the members. A copy is one owner more.
#[derive(Drop)]
pub struct Shared {
    kept: Rc<Kept>,
}

impl Model for Shared {
    ghost use Rattle.std.specs.Prelude.{List, ℕ};
    ghost use Rattle.std.specs.Coded.{coded_list, coded_ℕ};

    ghost Value = { List ℕ };

    ghost coded = { coded_list coded_ℕ };

    ghost view = { λ shared. shared.kept.value };
}

impl Shared {
    /// Puts some runs where several owners can have them.
    pub fn new(alloc: Global, runs: RunSet) -> Result<Shared, NoMemory>
        ensures { IfOk result (λ shared. shared ≡ runs) }
    {
        Ok(Shared {
            kept: Rc::new(alloc, Kept::of(runs))?,
        })
    }

    /// The same runs.
    pub fn copy(&self) -> Result<Shared, NoMemory>
        ensures { IfOk result (λ shared. shared ≡ self.now) }
    {
        Ok(Shared {
            kept: self.kept.clone()?,
        })
    }

    /// The runs.
    pub fn get(&self) -> &RunSet
        ensures { result.now ≡ self.now }
    {
        self.kept.as_ref().runs()
    }

    /// The least member.
    pub fn min(&self) -> u64
        ensures { IsLeast (Has self.now) result }
    {
        self.kept.as_ref().min()
    }

    /// The greatest member.
    pub fn max(&self) -> u64
        ensures greatest { IsGreatest (Has self.now) result }
        ensures short { result ≤ 2 ^ 32 }
    {
        self.kept.as_ref().max()
    }

    /// The number of members.
    pub fn count(&self) -> u64
        ensures count { result ≡ length self.now }
        ensures ascending { Ascend self.now }
    {
        self.kept.as_ref().count()
    }

    /// A number of which all members are multiples.
    pub fn divisor(&self) -> u64
        ensures positive { 0 < result }
        ensures divides { AreMultiples (Has self.now) result }
    {
        self.kept.as_ref().divisor()
    }
}
