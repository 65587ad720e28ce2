//! Sessions of many sources on many ports, and what they deliver (Cyphal Specification,
//! section 4.1.4).
#![tactic(auto)]

pub mod fed;
mod filter;
pub mod laws;
pub mod port;
pub mod subjects;
pub mod table;

pub use fed::{Fed, Met, PortMet, SubscribeError};
pub use filter::frame_for;
pub use port::Port;
pub use table::Table;
