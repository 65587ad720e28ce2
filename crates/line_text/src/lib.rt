//! Text that is gathered before it is written: words, numbers, moments and hex.
#![tactic(auto)]

mod byte_words;
mod digits;
mod hex_block;
mod ident_block;
mod number_word;
pub mod text_buffer;
mod two_digits;
mod tx_line;

pub use hex_block::hex_of_eight;
pub use text_buffer::TextBuffer;
