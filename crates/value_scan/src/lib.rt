//! The serialized form of a value from its text, in one pass: no value is made (Cyphal Specification, section 3.7).
#![tactic(auto)]

mod arrays;
mod bit_buffer;
mod blocks;
mod byte_arrays;
mod digits;
mod gives_up;
mod hex_text;
mod line;
mod parts;
mod primitives;
mod scan;
mod structures;
mod truths;
mod unions;
mod words;

pub use bit_buffer::BitBuffer;
pub use gives_up::GivesUp;
pub use scan::scan_own;
