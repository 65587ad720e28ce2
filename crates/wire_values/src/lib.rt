//! Values of a schema as bytes and back: the serialized form of data types (Cyphal Specification,
//! section 3.7).
#![tactic(auto)]

mod clear;
mod error;
mod fitting;
pub mod laws;
mod misfit;
mod numbers;
mod parts;
mod path;
mod payload;
mod put;
mod reader;
mod serialized;
mod simple;
mod stop;
mod value;
mod window;
mod writer;

pub use error::{ReadError, WriteError};
pub use fitting::write_fitting;
pub use payload::payload_value;
pub use serialized::{read_as, write_as};
