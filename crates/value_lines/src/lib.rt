//! Lines of values: each the text of a value or the hex of its bytes, and the line that answers it (Cyphal
//! Specification, section 3.7).
#![tactic(auto)]

mod at_once;
mod by_value;
mod decoded;
mod encoded;
mod hex_line;
pub mod laws;
mod refusal;

pub use decoded::Decoder;
pub use encoded::Encoder;
pub use refusal::Refusal;

/// A line of more bytes, without its newline, is refused.
pub const LONGEST_LINE: usize = 1 << 20;
