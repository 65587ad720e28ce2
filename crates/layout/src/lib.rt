//! The layout of a data type (Cyphal Specification, section 3.7): where its fields can stand and
//! which lengths they can have.
#![tactic(auto)]

mod bodies;
mod composite;
mod ends;
pub mod error;
mod fixed;
mod layout;
mod lengths;
mod of_schema;
mod row;
mod within;

pub use composite::Composite;
pub use ends::ends_after;
pub use error::LayoutError;
pub use layout::Layout;
pub use lengths::part_lengths;
pub use of_schema::{composite_of, layout_of};
pub use row::Row;
