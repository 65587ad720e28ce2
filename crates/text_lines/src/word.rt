//! Short texts that are kept, to be copied as one block.
ghost use Rattle.std.specs.Prelude.{◌≤◌};

use itoa::{Buffer, write_digits};
use line_text::TextBuffer;

/// The bytes of a word.
pub const WORD: usize = 32;

/// A text of at most 32 bytes.
#[derive(Clone, Copy)]
pub struct Word {
    /// The text, and bytes behind it that don't count.
    bytes: [u8; WORD],
    /// The number of bytes of the text.
    len: usize,
    ghost fits: { len ≤ 32 },
}

impl Default for Word {
    fn default() -> Word {
        Word::new()
    }
}

impl Word {
    ghost use Rattle.std.specs.Prelude.{◌≡◌, ◌+◌, ◌++◌, ◌∷◌, [], decimal, length};
    ghost use Rattle.line_text.specs.Buffer.{Puts, room_of};
    ghost use Rattle.text_lines.specs.Words.{block_text, word_text};

    /// No text.
    pub fn new() -> Word
        ensures { word_text result ≡ [] }
    {
        Word {
            bytes: [0; WORD],
            len: 0,
        }
    }

    /// A number in decimal, and a space.
    #[inline(always)]
    pub fn of_number(number: u64) -> Word
        ensures { word_text result ≡ decimal number ++ 32 ∷ [] }
    {
        let mut digits = [b' '; 2 * WORD];
        let start = write_digits(number, &mut digits, WORD - 1);
        let mut bytes = [0; WORD];
        bytes.copy_from_slice(&digits[start..start + WORD]);
        Word {
            bytes,
            len: WORD - start,
        }
    }

    /// Appends bytes to the text.
    pub fn push(&mut self, bytes: &[u8])
        requires { length (word_text self.old) + length bytes.now ≤ 32 }
        ensures { word_text self.new ≡ word_text self.old ++ bytes.now }
    {
        let end = self.len + bytes.len();
        self.bytes[self.len..end].copy_from_slice(bytes);
        self.len = end;
    }

    /// Appends a number in decimal to the text.
    pub fn push_number(&mut self, number: u64)
        requires { length (word_text self.old) + 20 ≤ 32 }
        ensures text { word_text self.new ≡ word_text self.old ++ decimal number }
        ensures length { length (word_text self.new) ≤ length (word_text self.old) + 20 }
    {
        let mut buffer = Buffer::new();
        self.push(buffer.format(number).as_bytes());
    }

    /// The text, and in the last byte its length.
    pub fn block(&self) -> [u8; 8]
        requires { length (word_text self.now) ≤ 7 }
        ensures { block_text result ≡ word_text self.now }
    {
        let mut block = [0; 8];
        block.copy_from_slice(&self.bytes[..8]);
        block[7] = self.len as u8;
        block
    }

    /// Puts the text behind another.
    #[inline(always)]
    pub fn put(&self, text: &mut TextBuffer)
        requires { 32 ≤ room_of text.old }
        ensures text { Puts (word_text self.now) text.old text.new }
        ensures room { room_of text.new + length (word_text self.now) ≡ room_of text.old }
        ensures most { room_of text.old ≤ room_of text.new + 32 }
    {
        text.put(&self.bytes, self.len);
    }
}
