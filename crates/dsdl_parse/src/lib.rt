//! The lines of DSDL definitions (Cyphal Specification, section 3.2): statements, types and
//! expressions, each with the tree that its words say.
#![tactic(auto)]

mod descent;
mod expr;
mod form;
mod laws;
mod leaf;
mod level;
mod line;
mod read_error;
mod reference;
mod scalar;
mod statement;
mod syntax;
mod text;
mod trees;
mod walk;
mod whole;
mod words;

pub use expr::{Expr, ExprNode, Reference, Span};
pub use laws::{one_parsing, one_tree, well_spelled};
pub use read_error::ReadError;
pub use statement::{Bound, BoundSign, Form, Prefix, Scalar, Statement};
pub use syntax::{Ast, SyntaxError, parse};
pub use walk::{as_leaf, leaves, names_it};
pub use whole::parse_expression;
