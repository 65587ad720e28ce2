//! Lines of values: the texts of values of a type as the hex of their bytes, and back.

pub mod decoded;
pub mod encoded;
mod ended;
pub mod laws;
