//! Runs of one owner or of several.
ghost use Rattle.std.specs.Prelude.{◌≡◌, ℕ, ◌<◌, ◌≤◌, ◌^◌, length, IfOk};
ghost use Rattle.bit_length.specs.Ascending.{Ascend};
ghost use Rattle.bit_length.specs.Lengths.{Has, IsGreatest, IsLeast};
ghost use Rattle.bit_length.specs.Moved.{AreMultiples, HasSome};

use crate::kept::Shared;
use crate::run_set::RunSet;
use cy_bits::NoMemory;
use std::marker::Model;

/// From so many runs on they may have several owners.
const SHARED_FROM: u64 = 16;

/// Who has the runs.
#[derive(Drop)]
enum Owned {
    /// One set.
    Alone(RunSet),
    /// Several.
    Together(Shared),
}

/// A set's runs: its own where they are few, and else with as many owners as may be. Contracts see
/// the ascending list of the members.
#[derive(Drop)]
pub struct Runs {
    owned: Owned,
}

impl Model for Runs {
    ghost use Rattle.std.specs.Prelude.{List, ℕ};
    ghost use Rattle.std.specs.Coded.{coded_list, coded_ℕ};

    ghost Value = { List ℕ };

    ghost coded = { coded_list coded_ℕ };

    ghost use Rattle.bit_length.specs.Kept.{members_in};
    ghost use Rattle.bit_length.specs.Lengths.{Has};
    ghost use Rattle.bit_length.specs.Moved.{HasSome};

    ghost view = { λ runs. members_in runs.owned };

    ghost invariant = { λ runs. HasSome (Has (members_in runs.owned)) };
}

impl Runs {
    /// Runs of one owner. Takes no memory.
    #[inline(always)]
    pub fn alone(runs: RunSet) -> Runs
        requires { HasSome (Has runs) }
        ensures { result ≡ runs }
    {
        Runs {
            owned: Owned::Alone(runs),
        }
    }

    /// Runs of one owner where they are few, and else of as many as may be.
    #[inline(always)]
    pub fn new(runs: RunSet) -> Result<Runs, NoMemory>
        ensures { IfOk result (λ r. r ≡ runs) }
    {
        if runs.run_count() < SHARED_FROM {
            return Ok(Runs::alone(runs));
        }
        Runs::together(runs)
    }

    /// Runs of as many owners as may be.
    fn together(runs: RunSet) -> Result<Runs, NoMemory>
        requires { HasSome (Has runs) }
        ensures { IfOk result (λ r. r ≡ runs) }
    {
        let alloc = runs.alloc();
        Ok(Runs {
            owned: Owned::Together(Shared::new(alloc, runs)?),
        })
    }

    /// The runs.
    #[inline(always)]
    pub fn get(&self) -> &RunSet
        ensures value { result.now ≡ self.now }
        ensures some { HasSome (Has self.now) }
    {
        match &self.owned {
            Owned::Alone(runs) => runs,
            Owned::Together(shared) => shared.get(),
        }
    }

    /// The same runs.
    #[inline(always)]
    pub fn copy(&self) -> Result<Runs, NoMemory>
        ensures value { IfOk result (λ r. r ≡ self.now) }
        ensures some { HasSome (Has self.now) }
    {
        match &self.owned {
            Owned::Alone(runs) => Ok(Runs::alone(runs.copy_to(runs.alloc())?)),
            Owned::Together(shared) => Ok(Runs {
                owned: Owned::Together(shared.copy()?),
            }),
        }
    }

    /// The least member.
    pub fn min(&self) -> u64
        ensures { IsLeast (Has self.now) result }
    {
        match &self.owned {
            Owned::Alone(runs) => runs.min(),
            Owned::Together(shared) => shared.min(),
        }
    }

    /// The greatest member.
    pub fn max(&self) -> u64
        ensures greatest { IsGreatest (Has self.now) result }
        ensures short { result ≤ 2 ^ 32 }
    {
        match &self.owned {
            Owned::Alone(runs) => runs.max(),
            Owned::Together(shared) => shared.max(),
        }
    }

    /// The number of members.
    pub fn count(&self) -> u64
        ensures count { result ≡ length self.now }
        ensures ascending { Ascend self.now }
    {
        match &self.owned {
            Owned::Alone(runs) => runs.count(),
            Owned::Together(shared) => shared.count(),
        }
    }

    /// A number of which all members are multiples: 1 where no other is kept.
    #[inline(always)]
    pub fn divisor(&self) -> u64
        ensures positive { 0 < result }
        ensures divides { AreMultiples (Has self.now) result }
    {
        match &self.owned {
            Owned::Alone(_) => 1,
            Owned::Together(shared) => shared.divisor(),
        }
    }
}
