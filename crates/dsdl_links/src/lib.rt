//! Which file of a namespace refers to which (Cyphal Specification, section 3.4.5), and the order
//! in which files are valued.
#![tactic(auto)]

mod cycle;
mod error;
mod laws;
mod links;
mod order;
mod ready;
mod reference;
mod source;
mod users;

pub use error::{CycleError, LinkError};
pub use laws::{one_meaning, one_order};
pub use links::{Links, first_numbers, links_of};
pub use order::order_of;
pub use reference::type_of;
pub use source::{Mention, Source, mentions_of};
