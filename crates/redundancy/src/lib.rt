//! Which of several redundant buses (Cyphal Specification, section 4.1) is in force for a session,
//! and which frames are heard.
#![tactic(auto)]

pub mod force;
pub mod laws;

pub use force::{Force, Heard};
pub use laws::{force_laws, hearing};
