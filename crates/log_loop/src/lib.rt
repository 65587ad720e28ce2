//! The loop over a log: a listener hears each record, and what it says is gathered, and written before the input is
//! read again. It knows neither a plan nor a node.
#![tactic(auto)]

pub mod ended;
pub mod listener;
pub mod next;
mod over_log;

pub use ended::Ended;
pub use listener::Listener;
pub use over_log::listen;
