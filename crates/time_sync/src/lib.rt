//! The network's time (Cyphal Specification, section 5.3.5): who tells it, and how far it is from
//! the own moments.
#![tactic(auto)]

pub mod last;
pub mod laws;
pub mod sync;

pub use last::Last;
pub use laws::sync_laws;
pub use sync::{Estimate, Sync};
