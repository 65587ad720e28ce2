//! The tokens of a line of a DSDL definition (Cyphal Specification, section 3.2): at each place the
//! longest one is taken. Blanks stand between tokens, and a comment runs from `#` to the end of the
//! line.
#![tactic(auto)]

mod bytes;
mod laws;
mod line;
mod number;
mod scan;
mod split;
mod state;
mod token;
mod word;

pub use laws::{ascii, kinds, names_of_types, one_reading};
pub use line::{LexError, lex_line, tokens_of};
pub use token::{Token, TokenKind};
