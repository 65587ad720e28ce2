use cy_bits::{Boxed, List, Text};

/// A place in a line, counted in bytes from 0.
#[derive(Clone, Copy, Debug, PartialEq, Eq)]
pub struct Span {
    /// The place of the first byte.
    pub from: u32,
    /// The place behind the last byte.
    pub to: u32,
}

/// A type by its name and its version (Cyphal Specification, section 3.2).
#[derive(Drop)]
pub struct Reference {
    /// The namespaces, the outermost first, and the short name; the short name alone means the
    /// namespace of the file that refers.
    pub names: List<Text>,
    /// The major number of the version, 0 to 255.
    pub major: u8,
    /// The minor number of the version, 0 to 255.
    pub minor: u8,
}

/// An expression with its place in the line (Cyphal Specification, section 3.2). Parentheses around
/// it aren't part of its place.
#[cycle(expr)]
pub struct Expr {
    /// From its first token to its last one.
    pub span: Span,
    /// What it is.
    pub node: ExprNode,
}

/// What an expression is (Cyphal Specification, section 3.2). An operator is its text.
#[cycle(expr)]
#[derive(Drop)]
pub enum ExprNode {
    /// A number as it is written.
    Number(Text),
    /// A string without its quotes.
    Str(Text),
    /// `true` or `false`.
    Truth(bool),
    /// Any other name.
    Name(Text),
    /// A type.
    Reference(Reference),
    /// The members of a set literal in the order in which they are written.
    Set(List<Expr>),
    /// `!`, `+` or `-` with its operand.
    Unary(Text, Boxed<Expr>),
    /// A binary operator with its operands, the left one first.
    Binary(Text, Boxed<Expr>, Boxed<Expr>),
    /// A name behind a point, and the expression in front of the point.
    Member(Boxed<Expr>, Text),
}

impl Drop for Expr {
    /// Goes down the left operands in a loop: these chains may be as long as the line.
    #[cycle(expr)]
    fn drop(mut self) {
        loop {
            let Expr { span: _, node } = self;
            match node {
                ExprNode::Binary(_op, left, _right) => {
                    self = left.into_inner();
                }
                ExprNode::Member(inner, _name) => {
                    self = inner.into_inner();
                }
                _other => return,
            }
        }
    }
}
