//! The text of the layouts of a namespace: where the fields of its types can stand, and which
//! lengths they can have.
#![tactic(auto)]

mod definition;
mod fields;
mod head;
pub mod laws;
mod namespace;
mod order;
mod set;
mod words;

pub use namespace::namespace_text;
pub use order::by_name;
