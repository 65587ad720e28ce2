//! The standard data types of a node (Cyphal Specification, chapter 5): each as a struct, its
//! schema, and its value, which determine each other.
#![tactic(auto)]

pub mod allocation;
pub mod array;
mod field_values;
pub mod file;
mod float_bits;
mod held;
pub mod laws;
pub mod limits;
pub mod node;
pub mod ports;
pub mod register;
pub mod register_value;
pub mod registers;
mod schemas;
mod shape;
mod standard;
mod std_name;
pub mod time;
mod whole;

pub use shape::{StdType, std_type};
pub use standard::Standard;
pub use std_name::StdName;
