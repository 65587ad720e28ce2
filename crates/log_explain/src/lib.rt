//! Why each frame of a log came to what it did at the node of a plan, and how each session fared.
#![tactic(auto)]

mod asked;
mod bus_words;
mod explaining;
pub mod laws;
pub mod line;
mod line_writer;
mod port_words;
mod reason_words;
pub mod reasons;
mod second;
mod session_line;
mod session_lines;
mod tallies;
pub mod tally;
mod ten_lines;
mod whole_log;

pub use line::{FrameLine, Transfer};
pub use log_loop::Ended;
pub use tally::{Last, Tally};
pub use whole_log::explain_log;
