//! Registers of a node (Cyphal Specification, section 5.3.10): named values that others read, list
//! and write, each behind a guard that keeps it within its limits.
#![tactic(auto)]

pub mod laws;
pub mod limited;
pub mod limits;
pub mod open_error;
pub mod register_list;
pub mod service;
mod values;

pub use laws::register_laws;
pub use limited::Limited;
pub use limits::{is_allowed, is_within, limits_of};
pub use open_error::OpenError;
pub use register_list::access;
pub use service::Registers;
pub use values::copy_registers;
