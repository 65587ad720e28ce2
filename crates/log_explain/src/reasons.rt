//! Why a record came to what it did by the rules of reception (Cyphal Specification, section
//! 4.1.4): the question that is asked before the record is heard.

pub mod laws;
mod port;
mod reason;
mod session;
mod table;

pub use reason::{Change, Reason, Silence};
pub use table::{place_of, reason_at, reason_of_frame};
