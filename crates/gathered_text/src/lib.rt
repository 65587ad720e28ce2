//! Text that is gathered, and written in one piece.
#![tactic(auto)]

mod writing;

pub use writing::{flush, flush_much};
