use cy_bits::NoMemory;

/// Why a schema has no layout.
#[derive(Clone, Copy, Debug, Drop, PartialEq, Eq)]
pub enum LayoutError {
    /// A length would be above 2^32 bits; this many bits are the greatest. A schema that keeps the
    /// rules never has one.
    Long { greatest: u64 },
    /// The memory for the rows was refused.
    NoMemory,
}

impl From<NoMemory> for LayoutError {
    ghost use Rattle.std.specs.Prelude.{◌≡◌};
    ghost use Rattle.layout.specs.declared.error.LayoutError.TheVariants.{NoMemory};

    ghost from_gives = { λ _ e. e ≡ NoMemory };

    fn from(_: NoMemory) -> LayoutError {
        LayoutError::NoMemory
    }
}
