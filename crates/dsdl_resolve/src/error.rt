use crate::DsdlWhy;
use cy_bits::{NoMemory, Text};

/// Why a folder of files has no namespace.
#[derive(Drop)]
pub enum DsdlError {
    /// A file is refused.
    At {
        /// Its path.
        file: Text,
        /// The line, counted from 1, or 0 where none is named.
        line: u32,
        /// The cause.
        why: DsdlWhy,
    },
    /// Want of memory.
    NoMemory,
}

impl From<NoMemory> for DsdlError {
    ghost use Rattle.std.specs.Prelude.{◌≡◌};
    ghost use Rattle.dsdl_resolve.specs.declared.error.DsdlError.TheVariants as error;

    ghost from_gives = { λ _ e. e ≡ error.NoMemory };

    fn from(_: NoMemory) -> DsdlError {
        DsdlError::NoMemory
    }
}
