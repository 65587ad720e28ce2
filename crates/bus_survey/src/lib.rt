//! What the buses of a log carry, without a plan: every flow of every bus.
#![tactic(auto)]

mod bus_counts;
mod buses;
mod flow;
mod flow_counts;
mod flow_rank;
mod flow_table;
mod lines;
mod sources;
mod starts;
mod surveying;
mod waits;
mod whole_log;

pub use log_loop::Ended;
pub use whole_log::survey;
