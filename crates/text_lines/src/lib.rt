//! The report of a run as text: the text of each line.
#![tactic(auto)]

mod bus_words;
pub mod line_writer;
mod second;
mod tx_line;
mod typed_text;
pub mod word;
mod words;

pub use line_writer::LineWriter;
pub use tx_line::tx_text;
