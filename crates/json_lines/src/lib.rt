//! The report of a run as JSON lines (RFC 8259), for other programs.
#![tactic(auto)]

mod array;
mod byte_array;
mod marks;
mod members;
mod name;
mod own;
mod primitive;
pub mod said;
mod structure;
mod typed_json;
mod variant;
pub mod writer;

pub use writer::JsonWriter;
