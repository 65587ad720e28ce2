//! A plan and a log: the run of the node, and the bound on its memory.

pub mod bound_text;
pub mod clock;
pub mod generated;
mod labelled;
pub mod laws;
pub mod report_writer;
pub mod run;
pub mod running;
mod sending;
pub mod tally;
mod telling;
