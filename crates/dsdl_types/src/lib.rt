//! Data types (Cyphal Specification, chapter 3): their schemas and values, the namespace that holds
//! them, and the laws of their serialized form.
#![tactic(auto)]

mod definition;
pub mod laws;
mod namespace;
mod path;
mod read_why;
mod schema;
mod shape;
mod shared;
mod value;
mod zero;

pub use definition::{Definition, Parts};
pub use namespace::{Namespace, Print};
pub use path::{Step, path_text};
pub use read_why::ReadWhy;
pub use schema::{Body, Cast, Field, Schema};
pub use shape::Shape;
pub use shared::Shared;
pub use value::Value;
pub use zero::zero_of;
