//! Values as bytes and back, by the layout of their type (Cyphal Specification, section 3.7).
#![tactic(auto)]

pub mod laws;
mod serialized;

pub use serialized::{read, write};
pub use wire_values::{ReadError, WriteError, payload_value, read_as, write_as};
