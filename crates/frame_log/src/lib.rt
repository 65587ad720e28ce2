//! The records of a log of frames, read as a stream.
#![tactic(auto)]

mod buses;
mod data;
mod digits;
mod error;
mod front;
mod kept_bytes;
mod laws;
mod line;
mod quick;
mod reader;
mod sixteen;

pub use error::{LogError, LogWhy};
pub use laws::{hex_pairs, ordered};
pub use reader::LogReader;
