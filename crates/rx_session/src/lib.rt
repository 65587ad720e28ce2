//! One session: the frames of one kind, port and source, put together into transfers (Cyphal
//! Specification, section 4.1.4).
#![tactic(auto)]

pub mod laws;
pub mod outcome;
pub mod session;

pub use outcome::{Begun, Delivery, Front, Outcome, Step};
pub use session::{Part, Session, lend};
