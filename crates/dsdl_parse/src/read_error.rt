use cy_bits::NoMemory;
use dsdl_lex::LexError;

/// Why words weren't read (Cyphal Specification, section 3.2).
#[derive(Clone, Copy, Debug, PartialEq, Eq)]
pub enum ReadError {
    /// They aren't what the grammar wants there, or nest more than 64 levels deep.
    Syntax,
    /// The memory for the tree was refused.
    NoMemory,
}

impl From<NoMemory> for ReadError {
    ghost use Rattle.std.specs.Prelude.{◌≡◌};
    ghost use Rattle.dsdl_parse.specs.declared.read_error.ReadError.TheVariants as error;

    ghost from_gives = { λ _ e. e ≡ error.NoMemory };

    fn from(_: NoMemory) -> ReadError {
        ReadError::NoMemory
    }
}

impl From<LexError> for ReadError {
    ghost use Rattle.std.specs.Prelude.{◌≡◌};
    ghost use Rattle.dsdl_parse.specs.LineAnswers.{without_tokens};

    ghost from_gives = { λ why e. e ≡ without_tokens why };

    fn from(why: LexError) -> ReadError {
        match why {
            LexError::Lex { column: _ } => ReadError::Syntax,
            LexError::NoMemory => ReadError::NoMemory,
        }
    }
}
