//! Which definitions of a namespace clash, by their versions or by their ports (Cyphal
//! Specification, section 3.8).
#![tactic(auto)]

mod clash;
mod numbers;
mod outline;

pub use clash::{first_port_clash, first_version_clash};
