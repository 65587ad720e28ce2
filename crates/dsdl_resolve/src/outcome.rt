use crate::counts::Counts;
use crate::why::DsdlWhy;
use const_expr::Constants;
use cy_bits::{List, NoMemory};
use dsdl_types::{Definition, Print};

/// What a file defines and prints.
#[derive(Drop)]
pub struct Outcome {
    /// The type that it defines.
    pub definition: Definition,
    /// The constants of a message, in order; of a service none.
    pub constants: Constants,
    /// What its `@print` wrote, in order.
    pub prints: List<Print>,
}

/// What a file defines and prints, and how large the message is that it defines.
#[derive(Drop)]
pub struct Valued {
    /// What it defines and prints.
    pub outcome: Outcome,
    /// How large its message is.
    pub counts: Counts,
}

/// Why a file is refused, and where.
#[derive(Drop)]
pub struct Refused {
    /// The line, counted from 1; 0 at the end of a file without lines.
    pub line: u32,
    /// The cause.
    pub why: DsdlWhy,
}

/// What comes in place of an outcome.
#[derive(Drop)]
pub enum FileError {
    /// The file is refused.
    Refused(Refused),
    /// Want of memory.
    NoMemory,
}

impl From<NoMemory> for FileError {
    ghost use Rattle.std.specs.Prelude.{◌≡◌};
    ghost use Rattle.dsdl_resolve.specs.declared.outcome.FileError.TheVariants as error;

    ghost from_gives = { λ _ e. e ≡ error.NoMemory };

    fn from(_: NoMemory) -> FileError {
        FileError::NoMemory
    }
}
