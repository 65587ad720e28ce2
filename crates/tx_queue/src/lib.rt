//! Frames that wait to be sent on a bus (Cyphal Specification, section 4.2): the least identifier
//! leaves first, and of equal ones the first pushed.
#![tactic(auto)]

pub mod frame;
pub mod laws;
mod least;
pub mod queue;

pub use frame::{Full, OutFrame};
pub use laws::is_least;
pub use queue::TxQueue;
