//! What an edit of a namespace does to those who have its types: an old and a new namespace are
//! compared, type by type.
#![tactic(auto)]

mod change;
mod changes;
mod entries;
mod halves;
pub mod laws;
mod line;
mod names;
mod told;

pub use changes::{Changes, changes_of};
