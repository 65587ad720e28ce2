use cy_bits::Text;
use dsdl_types::ReadWhy;

/// Why a line is refused.
#[derive(Drop)]
pub enum Refusal {
    /// It is the text of no value, or no hex, or too long.
    Text {
        /// Its number, counted from 1.
        line: u64,
    },
    /// It is the hex of bytes that can't be read.
    Unreadable {
        /// Its number, counted from 1.
        line: u64,
        /// The path to the part that is refused first in reading order: names with `.` between,
        /// `[i]` for an item, `.` alone for the whole.
        path: Text,
        /// Why it is refused, with the number that was read.
        why: ReadWhy,
    },
}
