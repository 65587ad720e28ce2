use crate::expr::{Expr, Reference};
use cy_bits::Text;

/// What one line of a definition says (Cyphal Specification, section 3.2).
#[derive(Drop)]
pub enum Statement {
    /// Nothing: blanks and a comment at most.
    Empty,
    /// `---`, behind which the response of a service stands.
    Split,
    /// `@` and a name (Cyphal Specification, section 3.6), as in `@sealed` or `@assert x`.
    Directive {
        /// The name behind `@`.
        name: Text,
        /// The expression behind the name, where there is one.
        expr: Option<Expr>,
    },
    /// A named value (Cyphal Specification, section 3.5), as in `uint8 LIMIT = 3`.
    Constant {
        /// Its type.
        form: Form,
        /// Its name.
        name: Text,
        /// The expression behind `=`.
        expr: Expr,
    },
    /// A named field (Cyphal Specification, section 3.5), as in `uint8[<=4] data`.
    Field {
        /// Its type.
        form: Form,
        /// Its name.
        name: Text,
    },
    /// `void` alone (Cyphal Specification, section 3.5): bits without a meaning.
    Padding {
        /// The digits behind `void`, which are its number of bits.
        digits: Text,
    },
}

/// A type as it is written (Cyphal Specification, section 3.4): one value, or an array of them.
#[derive(Drop)]
pub struct Form {
    /// The type of the value or of each item.
    pub scalar: Scalar,
    /// The number of items of an array.
    pub array: Option<Bound>,
}

/// The number of items of an array, as it is written between `[` and `]` (Cyphal Specification,
/// section 3.4.4).
#[derive(Drop)]
pub struct Bound {
    /// How the number of items compares with the expression.
    pub sign: BoundSign,
    /// The expression.
    pub expr: Expr,
}

/// How the number of items of an array compares with the expression in its brackets (Cyphal
/// Specification, section 3.4.4).
#[derive(Clone, Copy, Debug, Drop, PartialEq, Eq)]
pub enum BoundSign {
    /// It is equal: `[n]`.
    Exact,
    /// It is at most as large: `[<=n]`.
    AtMost,
    /// It is smaller: `[<n]`.
    Below,
}

/// A type of one value as it is written (Cyphal Specification, section 3.4).
#[derive(Drop)]
pub enum Scalar {
    /// `bool`, or `uint`, `int` or `float` with digits (Cyphal Specification, section 3.4.3).
    Primitive {
        /// How a value that doesn't fit is brought into the range, where this is written.
        prefix: Option<Prefix>,
        /// The name with its digits.
        name: Text,
    },
    /// Another definition.
    Reference(Reference),
    /// `void` with digits (Cyphal Specification, section 3.4.2).
    Void {
        /// The digits, which are its number of bits.
        digits: Text,
    },
}

/// How a value that doesn't fit a primitive type is brought into its range (Cyphal Specification,
/// section 3.4.3).
#[derive(Clone, Copy, Debug, Drop, PartialEq, Eq)]
pub enum Prefix {
    /// `saturated`: to the nearest end of the range.
    Saturated,
    /// `truncated`: to its low bits.
    Truncated,
}
