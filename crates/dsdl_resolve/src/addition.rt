use crate::totals::Totals;
use crate::typed::Typed;
use crate::why::DsdlWhy;
use const_expr::Const;
use cy_bits::NoMemory;

/// What a statement adds to its section.
#[derive(Drop)]
pub enum Addition {
    /// Nothing.
    Nothing,
    /// The section is a union.
    Union,
    /// The section is delimited, with this extent in bits.
    Extent(u64),
    /// A field, which has the statement's name, of this type.
    Field(Typed),
    /// Padding of so many bits.
    Padding(u8),
    /// A constant, which has the statement's name.
    Constant(Const),
}

/// A statement that isn't refused.
#[derive(Drop)]
pub struct Judged {
    /// What it adds.
    pub addition: Addition,
    /// The numbers of the section with it.
    pub totals: Totals,
}

/// What comes in place of an addition.
#[derive(Drop)]
pub enum StatementError {
    /// The statement is refused.
    Refused(DsdlWhy),
    /// Want of memory.
    NoMemory,
}

impl From<NoMemory> for StatementError {
    ghost use Rattle.std.specs.Prelude.{◌≡◌};
    ghost use Rattle.dsdl_resolve.specs.declared.addition.StatementError.TheVariants as error;

    ghost from_gives = { λ _ e. e ≡ error.NoMemory };

    fn from(_: NoMemory) -> StatementError {
        StatementError::NoMemory
    }
}
