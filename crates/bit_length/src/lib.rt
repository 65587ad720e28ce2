//! Sets of bit lengths: the numbers of bits that the serialized values of a type can have.
//!
//! A set is kept as a number and runs of one common step, so the lengths of a large array or of a
//! delimited type take one run and not a list of their own. Many runs are shared by all sets that
//! differ by a number alone, as where a field of one length stands behind irregular ones.
#![tactic(auto)]

ghost use Rattle.std.specs.Prelude.{◌≡◌};

mod coarse;
mod kept;
mod listed;
mod merge;
mod parts;
mod reaches;
mod residues;
mod run;
mod run_set;
mod runs;
mod search;
mod set;
mod steps;
mod sums;

use cy_bits::NoMemory;
pub use set::LengthSet;

/// The greatest bit length that is computed with: 2^32 bits.
pub const LONGEST: u64 = 1 << 32;

/// Why there is no set of lengths.
#[derive(Clone, Copy, Debug, PartialEq, Eq, Drop)]
pub enum LengthError {
    /// The greatest member of the set is above `LONGEST`.
    Long {
        /// That member, in bits.
        greatest: u64,
    },
    /// Want of memory, or a set whose form would need more than 2^20 runs, or more than 2^22 while
    /// it is worked out.
    NoMemory,
}

impl From<NoMemory> for LengthError {
    ghost use Rattle.bit_length.specs.declared.LengthError.TheVariants as error;

    ghost from_gives = { λ _ e. e ≡ error.NoMemory };

    fn from(_: NoMemory) -> LengthError {
        LengthError::NoMemory
    }
}
