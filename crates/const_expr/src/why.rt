ghost use Rattle.std.specs.Prelude.{◌≡◌};
ghost use Rattle.const_expr.specs.Refusals.{error_at};

use crate::error::ExprError;
use cy_bits::{NoMemory, Text};
use cy_ratio::RatioError;
use dsdl_parse::Span;
use std::alloc::AllocError;

/// Why an expression's own rule gives no constant, before its place is known.
#[derive(Drop)]
pub enum Why {
    /// An operand is of a kind that the operator doesn't take.
    Kind,
    /// A number leaves the range that is computed with.
    Range,
    /// A divisor, or a base under a negative exponent, is 0.
    Zero,
    /// There is no such name.
    Unknown(Text),
    /// A set of lengths has so many members that it isn't listed.
    Large(u64),
    /// Want of memory.
    NoMemory,
}

impl Why {
    /// The refusal with the place of the expression whose own rule refuses.
    pub fn at(self, span: Span) -> ExprError
        ensures { result ≡ error_at span self }
    {
        match self {
            Why::Kind => ExprError::Kind { span },
            Why::Range => ExprError::Range { span },
            Why::Zero => ExprError::Zero { span },
            Why::Unknown(name) => ExprError::Unknown { span, name },
            Why::Large(count) => ExprError::Large { span, count },
            Why::NoMemory => ExprError::NoMemory,
        }
    }
}

impl From<NoMemory> for Why {
    ghost use Rattle.const_expr.specs.declared.why.Why.TheVariants as why;

    ghost from_gives = { λ _ e. e ≡ why.NoMemory };

    fn from(_: NoMemory) -> Why {
        Why::NoMemory
    }
}

impl From<AllocError> for Why {
    ghost use Rattle.const_expr.specs.declared.why.Why.TheVariants as why;

    ghost from_gives = { λ _ e. e ≡ why.NoMemory };

    fn from(_: AllocError) -> Why {
        Why::NoMemory
    }
}

impl From<RatioError> for Why {
    ghost use Rattle.const_expr.specs.Refusals.{of_error};

    ghost from_gives = { λ e w. w ≡ of_error e };

    fn from(error: RatioError) -> Why {
        match error {
            RatioError::Range => Why::Range,
            RatioError::Zero => Why::Zero,
        }
    }
}
