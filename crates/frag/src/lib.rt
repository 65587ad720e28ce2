//! Transfers as they are sent (Cyphal Specification, section 4.1.3): a payload cut into the data
//! bytes of its frames (section 4.2).
#![tactic(auto)]

pub mod frames;
pub mod laws;
pub mod sent;
pub mod size;

pub use frames::Frames;
pub use sent::{Pair, Sent, Transfer};
pub use size::count;
