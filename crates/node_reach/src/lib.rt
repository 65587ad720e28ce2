//! Commands over a log that need no plan: who is given which node-ID, who is online, who comes and
//! goes, the network's time, and a file of another node.
#![tactic(auto)]

mod allocating;
mod allocation;
mod answer;
mod asking;
mod buses;
mod change_lines;
mod client;
mod ear;
mod fetch_lines;
mod fetching;
mod file_fetch;
mod lines;
mod monitoring;
mod network;
mod network_watch;
mod node_watch;
mod request;
mod responses;
mod transfer;
mod watching;

pub use allocation::allocate;
pub use file_fetch::fetch;
pub use log_loop::Ended;
pub use network_watch::monitor;
pub use node_watch::{nodes, watch_laws};
