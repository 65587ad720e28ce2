use cy_bits::NoMemory;
use dsdl_names::TypeId;

/// Why files have no links (Cyphal Specification, section 3.4.5).
#[derive(Drop)]
pub enum LinkError {
    /// A file refers to a type that no file defines.
    Unresolved {
        /// The number of the file in path order, counted from 0.
        file: usize,
        /// The line of the reference, counted from 1.
        line: u32,
        /// The type.
        id: TypeId,
    },
    /// Want of memory.
    NoMemory,
}

impl From<NoMemory> for LinkError {
    ghost use Rattle.std.specs.Prelude.{◌≡◌};
    ghost use Rattle.dsdl_links.specs.declared.error.LinkError.TheVariants as error;

    ghost from_gives = { λ _ e. e ≡ error.NoMemory };

    fn from(_: NoMemory) -> LinkError {
        LinkError::NoMemory
    }
}

/// Why files have no order in which they can be valued (Cyphal Specification, section 3.4.5).
#[derive(Clone, Copy, Debug, PartialEq, Eq)]
pub enum CycleError {
    /// A file reaches itself through references.
    Cycle {
        /// The number of the file in path order, counted from 0.
        file: usize,
    },
    /// Want of memory.
    NoMemory,
}

impl From<NoMemory> for CycleError {
    ghost use Rattle.std.specs.Prelude.{◌≡◌};
    ghost use Rattle.dsdl_links.specs.declared.error.CycleError.TheVariants as error;

    ghost from_gives = { λ _ e. e ≡ error.NoMemory };

    fn from(_: NoMemory) -> CycleError {
        CycleError::NoMemory
    }
}
