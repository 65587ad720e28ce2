use dsdl_names::{NameError, TypeId};

/// Why a file is refused.
#[derive(Drop)]
pub enum DsdlWhy {
    /// Its path is no name of a type. No line is named.
    Name(NameError),
    /// The line is no line of the grammar.
    Syntax,
    /// The line refers to a type that no file defines.
    Unresolved(TypeId),
    /// The file reaches itself through references. No line is named.
    Cycle,
    /// The line breaks the rule of this number, which is the least one that it breaks. `rules`
    /// names them.
    Rule(u8),
    /// An expression of the line is worth nothing.
    Expr(ExprWhy),
    /// The line's `@assert` is false.
    Assert,
    /// An earlier file has the same version, or another version with this major number that this
    /// file isn't compatible with. No line is named.
    VersionClash,
    /// An earlier file of another type has the same port. No line is named.
    PortClash,
    /// With this line the greatest length is so many bits, or the extent is, which is above 2^32.
    /// Where it is above 2^63, 2^63 is named.
    Long(u64),
    /// A limit on files is passed: the file, or a folder's listing, is one too many, or the file is
    /// too large. No line is named.
    TooBig,
}

/// Why an expression is worth nothing.
#[derive(Clone, Copy, Debug, PartialEq, Eq, Drop)]
pub enum ExprWhy {
    /// An operand is of a kind that the operator doesn't take.
    Kind,
    /// A number leaves the range that is computed with.
    Range,
    /// A divisor, or a base under a negative exponent, is 0.
    Zero,
    /// There is no such name.
    Unknown,
    /// A set of lengths has more than 4,096 members, and what is done to it needs them listed.
    Large,
}
