//! The one text of a value of a data type, and the words for bytes that can't be read.
#![tactic(auto)]

pub mod laws;
pub mod parts;
mod print;
mod read;
mod scan;
mod unreadable;
mod words;

pub use print::print_value;
pub use read::{TextError, read_value};
pub use unreadable::{read_why_number, read_why_word};
