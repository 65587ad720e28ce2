//! The operators, by their texts (Cyphal Specification, section 3.3).
ghost use Rattle.std.specs.Prelude.{◌≡◌};
ghost use Rattle.const_expr.specs.Operators.{operator_of, prefix_of};

/// A binary operator.
#[derive(Clone, Copy, Debug, Drop, PartialEq, Eq)]
pub enum Operator {
    /// `||` and `&&`.
    Logic(Logic),
    /// `==`, `!=`, `<=`, `>=`, `<` and `>`.
    Compare(Relation),
    /// `|`, `^` and `&`.
    Bits(Bits),
    /// `+`, `-`, `*`, `/` and `%`.
    Arithmetic(Arithmetic),
    /// `**`.
    Power,
}

/// An operator on two truth values.
#[derive(Clone, Copy, Debug, Drop, PartialEq, Eq)]
pub enum Logic {
    /// `||`.
    Or,
    /// `&&`.
    And,
}

/// An operator that compares.
#[derive(Clone, Copy, Debug, Drop, PartialEq, Eq)]
pub enum Relation {
    /// `==`.
    Equal,
    /// `!=`.
    Unequal,
    /// `<=`.
    AtMost,
    /// `>=`.
    AtLeast,
    /// `<`.
    Below,
    /// `>`.
    Above,
}

/// An operator on the bits of two numbers or the members of two sets.
#[derive(Clone, Copy, Debug, Drop, PartialEq, Eq)]
pub enum Bits {
    /// `|`.
    Or,
    /// `^`.
    Xor,
    /// `&`.
    And,
}

/// An operator on two numbers.
#[derive(Clone, Copy, Debug, Drop, PartialEq, Eq)]
pub enum Arithmetic {
    /// `+`.
    Add,
    /// `-`.
    Sub,
    /// `*`.
    Mul,
    /// `/`.
    Div,
    /// `%`.
    Rem,
}

/// An operator in front of its operand.
#[derive(Clone, Copy, Debug, Drop, PartialEq, Eq)]
pub enum Prefix {
    /// `!`.
    Not,
    /// `+`.
    Plus,
    /// `-`.
    Minus,
}

impl Operator {
    /// The operator of a text.
    pub fn from_text(text: &str) -> Option<Operator>
        ensures { result ≡ operator_of text.now }
    {
        match text.as_bytes() {
            b"||" => Some(Operator::Logic(Logic::Or)),
            b"&&" => Some(Operator::Logic(Logic::And)),
            b"==" => Some(Operator::Compare(Relation::Equal)),
            b"!=" => Some(Operator::Compare(Relation::Unequal)),
            b"<=" => Some(Operator::Compare(Relation::AtMost)),
            b">=" => Some(Operator::Compare(Relation::AtLeast)),
            b"<" => Some(Operator::Compare(Relation::Below)),
            b">" => Some(Operator::Compare(Relation::Above)),
            b"|" => Some(Operator::Bits(Bits::Or)),
            b"^" => Some(Operator::Bits(Bits::Xor)),
            b"&" => Some(Operator::Bits(Bits::And)),
            b"+" => Some(Operator::Arithmetic(Arithmetic::Add)),
            b"-" => Some(Operator::Arithmetic(Arithmetic::Sub)),
            b"*" => Some(Operator::Arithmetic(Arithmetic::Mul)),
            b"/" => Some(Operator::Arithmetic(Arithmetic::Div)),
            b"%" => Some(Operator::Arithmetic(Arithmetic::Rem)),
            b"**" => Some(Operator::Power),
            _ => None,
        }
    }
}

impl Prefix {
    /// The operator of a text.
    pub fn from_text(text: &str) -> Option<Prefix>
        ensures { result ≡ prefix_of text.now }
    {
        match text.as_bytes() {
            b"!" => Some(Prefix::Not),
            b"+" => Some(Prefix::Plus),
            b"-" => Some(Prefix::Minus),
            _ => None,
        }
    }
}
