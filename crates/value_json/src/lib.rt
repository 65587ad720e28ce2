//! The JSON text of a value of a data type (RFC 8259), without blanks.
#![tactic(auto)]

mod byte_array;
mod float;
mod half;
mod simple;
mod value;
mod words;

pub use byte_array::is_printable;
pub use float::put_float;
pub use value::put_value;
pub use words::is_escaped;
