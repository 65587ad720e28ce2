/// What a token is (Cyphal Specification, section 3.2).
#[derive(Clone, Copy, Debug, PartialEq, Eq)]
pub enum TokenKind {
    /// Names and a version with points between them, as `uavcan.node.Health.1.0`.
    Reference,
    /// A letter or `_`, then letters, digits and `_`.
    Name,
    /// A number: binary, octal, hexadecimal, or decimal with or without a point and an exponent.
    Number,
    /// A string with its quotes.
    Str,
    /// Three or more `-` as the whole line, which part a request from its response.
    Split,
    /// An operator, a bracket, `@`, a comma or a point.
    Sign,
}

/// A token of a line (Cyphal Specification, section 3.2). Its places count the bytes of the line
/// from 0.
#[derive(Clone, Copy, Debug, PartialEq, Eq)]
pub struct Token {
    /// What it is.
    pub kind: TokenKind,
    /// The place of its first byte.
    pub from: u32,
    /// The place behind its last byte.
    pub to: u32,
}
