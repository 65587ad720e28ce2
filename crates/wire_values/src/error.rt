use cy_bits::{NoMemory, Text};
use dsdl_types::ReadWhy;

/// Why a value isn't written.
#[derive(Drop)]
pub enum WriteError {
    /// It isn't a value of the schema.
    Misfit {
        /// The path to the first part, in writing order, that isn't: names with `.` between, `[i]`
        /// for an item, `.` alone for the whole. A value of another kind or with another number of
        /// items or fields is named by its own path, a tag of no variant by that of its union.
        path: Text,
    },
    /// Want of memory.
    NoMemory,
}

impl From<NoMemory> for WriteError {
    ghost use Rattle.std.specs.Prelude.{◌≡◌};
    ghost use Rattle.wire_values.specs.declared.error.WriteError.TheVariants as errors;

    ghost from_gives = { λ _ e. e ≡ errors.NoMemory };

    fn from(_: NoMemory) -> WriteError {
        WriteError::NoMemory
    }
}

/// Why bytes aren't read.
#[derive(Drop)]
pub enum ReadError {
    /// They are no serialized form.
    Bad {
        /// The path to the part that is refused first in reading order: names with `.` between,
        /// `[i]` for an item, `.` alone for the whole.
        path: Text,
        /// Why it is refused.
        why: ReadWhy,
    },
    /// Want of memory.
    NoMemory,
}

impl From<NoMemory> for ReadError {
    ghost use Rattle.std.specs.Prelude.{◌≡◌};
    ghost use Rattle.wire_values.specs.declared.error.ReadError.TheVariants as errors;

    ghost from_gives = { λ _ e. e ≡ errors.NoMemory };

    fn from(_: NoMemory) -> ReadError {
        ReadError::NoMemory
    }
}
