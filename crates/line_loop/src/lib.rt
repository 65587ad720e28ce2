//! The loop over the lines of an input: a listener answers each line, and each answer is written
//! before the input is read again. It knows nothing of what the lines say.
#![tactic(auto)]

mod answer;
pub mod bounds;
pub mod ended;
mod held;
pub mod listener;
mod newline;
mod over_lines;
mod reader;

pub use bounds::LineBounds;
pub use ended::LinesEnded;
pub use listener::{LineListener, LineStop};
pub use over_lines::{listen_lines, one_reply};
