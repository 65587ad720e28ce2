ghost use Rattle.std.specs.Prelude.{◌≡◌, ◌≢◌, IfOk, OnErr, None};
ghost use Rattle.dsdl_types.specs.Difference.{below, here, unless};
ghost use Rattle.compat_check.specs.Verdicts.{cause_of, found_of, turn_of, why_of};

use crate::CompatWhy;
use crate::path::Turn;
use cy_bits::{List, NoMemory};
use std::alloc::Global;

/// Why a part of a type fails to be newer than that of another: the causes that two schemas can have.
#[derive(Clone, Copy)]
pub enum Cause {
    /// The kinds, widths, casts or array lengths differ.
    Kind,
    /// One alone is sealed.
    Sealing,
    /// The extents differ.
    Extent,
    /// Both are sealed and differ, names aside.
    Sealed,
    /// A structure has fewer fields than the old one, or a union another number of variants.
    Count,
}

impl Cause {
    /// The cause as that of a verdict.
    pub fn why(self) -> CompatWhy
        ensures { result ≡ why_of (cause_of self) }
    {
        match self {
            Cause::Kind => CompatWhy::Kind,
            Cause::Sealing => CompatWhy::Sealing,
            Cause::Extent => CompatWhy::Extent,
            Cause::Sealed => CompatWhy::Sealed,
            Cause::Count => CompatWhy::Count,
        }
    }
}

/// Where and why a type first fails to be newer than another.
#[derive(Drop)]
pub struct Difference {
    /// The way to the place, the last turn first.
    pub turns: List<Turn>,
    /// Why it fails.
    pub cause: Cause,
}

impl Difference {
    /// At the place itself.
    pub fn here(alloc: Global, cause: Cause) -> Option<Difference>
        ensures { found_of result ≡ here (cause_of cause) }
    {
        Some(Difference {
            turns: List::empty(alloc),
            cause,
        })
    }
}

/// None where a test holds.
pub fn unless(alloc: Global, test: bool, cause: Cause) -> Option<Difference>
    ensures { found_of result ≡ unless test (cause_of cause) None }
{
    if test {
        None
    } else {
        Difference::here(alloc, cause)
    }
}

/// A difference in a part, as one of the whole.
pub fn below(found: Option<Difference>, turn: Turn) -> Result<Option<Difference>, NoMemory>
    ensures found { IfOk result (λ d. found_of d ≡ below (turn_of turn) (found_of found)) }
    ensures memory { OnErr result (below (turn_of turn) (found_of found) ≢ None) }
{
    match found {
        None => Ok(None),
        Some(mut found) => {
            found.turns.push(turn)?;
            Ok(Some(found))
        }
    }
}
