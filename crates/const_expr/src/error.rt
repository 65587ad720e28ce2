use cy_bits::Text;
use dsdl_parse::Span;

/// Why an expression is worth no constant (Cyphal Specification, section 3.3). Each cause but want
/// of memory has the place of the innermost expression whose own rule refuses it.
#[derive(Drop)]
pub enum ExprError {
    /// An operand is of a kind that the operator doesn't take.
    Kind {
        /// The place.
        span: Span,
    },
    /// A number leaves the range that is computed with: fractions of two numbers of i128.
    Range {
        /// The place.
        span: Span,
    },
    /// A divisor, or a base under a negative exponent, is 0.
    Zero {
        /// The place.
        span: Span,
    },
    /// There is no such name.
    Unknown {
        /// The place.
        span: Span,
        /// The name.
        name: Text,
    },
    /// A set of lengths has more than 4,096 members, and what is done to it needs them listed.
    Large {
        /// The place.
        span: Span,
        /// The number of its members.
        count: u64,
    },
    /// Want of memory.
    NoMemory,
}
