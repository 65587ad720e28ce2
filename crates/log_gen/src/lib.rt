//! Large logs, each made of a number: what was sent, and what of it is found on three buses.
#![tactic(auto)]

pub mod generated;
pub mod laws;
mod line;
pub mod log;
pub mod origin;
pub mod payload;
pub mod plan;
pub mod row;
pub mod sent;
pub mod transfers;
pub mod way;

pub use generated::{Generated, generate};
pub use log::log_bytes;
pub use origin::origin_by;
pub use payload::payload_of;
pub use plan::PLAN;
pub use row::Row;
pub use sent::sent_by;
pub use way::{Way, way_of};
