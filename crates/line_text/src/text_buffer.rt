ghost use Rattle.std.specs.Prelude.{◌≤◌, length};

use crate::byte_words::byte_word;
use crate::digits::digit_count;
use crate::hex_block::{hex_of_eight, padded};
use crate::ident_block::ident_block;
use crate::number_word::number_word;
use crate::two_digits::two_digits;
use cy_bits::NoMemory;
use itoa::{Buffer, write_digits};
use std::alloc::Global;

/// Text that is gathered before it is written. Only `reserve` and `push` take memory.
#[derive(Drop)]
pub struct TextBuffer {
    /// The text, and bytes behind it that don't count.
    bytes: Vec<u8>,
    /// The number of bytes of the text.
    len: usize,
    ghost fits: { len ≤ length bytes.items },
}

#[tactic(auto, unfolding(crate::specs::Buffer::text_of, crate::specs::Buffer::room_of))]
impl TextBuffer {
    ghost use Rattle.std.specs.Prelude.{◌≡◌, ◌<◌, ◌+◌, ◌*◌, ◌++◌, ◌∷◌, [], take, decimal, OnOk, OnErr};
    ghost use Rattle.hex.specs.Hex.{encode_upper};
    ghost use Rattle.line_text.specs.Buffer.{text_of, room_of};
    ghost use Rattle.line_text.specs.Text.{six_digits, moment_text, ident_text};

    /// No text; takes no memory yet.
    pub fn new(alloc: Global) -> TextBuffer
        ensures { text_of result ≡ [] }
    {
        TextBuffer {
            bytes: Vec::new(alloc),
            len: 0,
        }
    }

    /// The text.
    pub fn as_slice(&self) -> &[u8]
        ensures { result.now ≡ text_of self.now }
    {
        &self.bytes[..self.len]
    }

    /// The number of bytes of the text.
    #[inline(always)]
    pub fn len(&self) -> usize
        ensures { result ≡ length (text_of self.now) }
    {
        self.len
    }

    /// Drops the text and keeps its memory.
    pub fn clear(&mut self)
        ensures text { text_of self.new ≡ [] }
        ensures room { room_of self.old ≤ room_of self.new }
    {
        self.len = 0;
    }

    /// Drops what stands behind the first `len` bytes of the text, and keeps its memory.
    pub fn cut(&mut self, len: usize)
        ensures text { text_of self.new ≡ take len (text_of self.old) }
        ensures room { room_of self.old ≤ room_of self.new }
    {
        self.len = self.len.min(len);
    }

    /// Takes memory so that `room` bytes more can be put.
    #[inline(always)]
    pub fn reserve(&mut self, room: usize) -> Result<(), NoMemory>
        ensures text { text_of self.new ≡ text_of self.old }
        ensures room { OnOk result (room ≤ room_of self.new) }
    {
        if room <= self.bytes.len() - self.len {
            Ok(())
        } else {
            self.grow(room)
        }
    }

    /// Takes memory for `room` bytes more, and at least as much as there is.
    #[cold]
    #[inline(never)]
    fn grow(&mut self, room: usize) -> Result<(), NoMemory>
        ensures text { text_of self.new ≡ text_of self.old }
        ensures room { OnOk result (room ≤ room_of self.new) }
    {
        let Some(end) = self.len.checked_add(room) else {
            return Err(NoMemory);
        };
        let size = self.bytes.len();
        let more = size.max(end.saturating_sub(size));
        let Some(size) = size.checked_add(more) else {
            return Err(NoMemory);
        };
        self.bytes.resize(size, 0)?;
        Ok(())
    }

    /// Appends bytes. Want of memory leaves the text as it was.
    pub fn push(&mut self, bytes: &[u8]) -> Result<(), NoMemory>
        ensures ok { OnOk result (text_of self.new ≡ text_of self.old ++ bytes.now) }
        ensures err { OnErr result (text_of self.new ≡ text_of self.old) }
    {
        self.reserve(bytes.len())?;
        self.put_slice(bytes);
        Ok(())
    }

    /// Appends the first `n` bytes of a word; all of them are copied, so there is room for all.
    #[inline(always)]
    pub fn put<const N: usize>(&mut self, word: &[u8; N], n: usize)
        requires room { N ≤ room_of self.old }
        requires within { n ≤ N }
        ensures text { text_of self.new ≡ text_of self.old ++ take n word.now }
        ensures room { room_of self.new + n ≡ room_of self.old }
    {
        let start = self.len;
        let block = *word;
        self.bytes[start..start + N].copy_from_slice(&block);
        self.len = start + n;
    }

    /// Appends bytes that there is room for.
    #[inline(always)]
    pub fn put_slice(&mut self, bytes: &[u8])
        requires room { length bytes.now ≤ room_of self.old }
        ensures text { text_of self.new ≡ text_of self.old ++ bytes.now }
        ensures room { room_of self.new + length bytes.now ≡ room_of self.old }
    {
        let start = self.len;
        let end = start + bytes.len();
        self.bytes[start..end].copy_from_slice(bytes);
        self.len = end;
    }

    /// Appends a number in decimal, at most 20 digits. There is room for 24 bytes.
    #[inline(always)]
    pub fn put_number(&mut self, number: u64)
        requires room { 24 ≤ room_of self.old }
        ensures text { text_of self.new ≡ text_of self.old ++ decimal number }
        ensures room { room_of self.new + length (decimal number) ≡ room_of self.old }
        ensures most { room_of self.old ≤ room_of self.new + 20 }
    {
        if number < 100_000_000 {
            self.put_short_number(number);
        } else {
            self.put_long_number(number);
        }
    }

    /// Appends a number of at most eight digits; they are written where they stay.
    #[inline(always)]
    fn put_short_number(&mut self, number: u64)
        requires short { number < 100000000 }
        requires room { 24 ≤ room_of self.old }
        ensures text { text_of self.new ≡ text_of self.old ++ decimal number }
        ensures room { room_of self.new + length (decimal number) ≡ room_of self.old }
    {
        let end = self.len + digit_count(number);
        write_digits(number, self.bytes.as_mut_slice(), end);
        self.len = end;
    }

    /// Appends a number of any length.
    #[inline(never)]
    fn put_long_number(&mut self, number: u64)
        requires room { 24 ≤ room_of self.old }
        ensures text { text_of self.new ≡ text_of self.old ++ decimal number }
        ensures room { room_of self.new + length (decimal number) ≡ room_of self.old }
    {
        let mut buffer = Buffer::new();
        self.put_slice(buffer.format(number).as_bytes());
    }

    /// Appends a number in decimal, at most 20 digits, and a space. There is room for 32 bytes.
    #[inline(always)]
    pub fn put_number_word(&mut self, number: u64)
        requires room { 32 ≤ room_of self.old }
        ensures text { text_of self.new ≡ text_of self.old ++ (decimal number ++ 32 ∷ []) }
        ensures room { room_of self.old ≤ room_of self.new + 21 }
    {
        if number < 10_000_000 {
            let (word, n) = number_word(number as u32);
            self.put(&word, n);
        } else {
            self.put_long_word(number);
        }
    }

    /// Appends a number in decimal and a space, and both again. There is room for 64 bytes.
    #[inline(always)]
    pub fn put_number_twice(&mut self, number: u64)
        requires room { 64 ≤ room_of self.old }
        ensures text { text_of self.new
            ≡ text_of self.old ++ (decimal number ++ 32 ∷ decimal number ++ 32 ∷ []) }
        ensures room { room_of self.old ≤ room_of self.new + 42 }
    {
        if number < 10_000_000 {
            let (word, n) = number_word(number as u32);
            self.put(&word, n);
            self.put(&word, n);
        } else {
            self.put_long_word(number);
            self.put_long_word(number);
        }
    }

    /// Appends a number of any length, and a space.
    #[inline(never)]
    fn put_long_word(&mut self, number: u64)
        requires room { 32 ≤ room_of self.old }
        ensures text { text_of self.new ≡ text_of self.old ++ (decimal number ++ 32 ∷ []) }
        ensures room { room_of self.old ≤ room_of self.new + 21 }
    {
        self.put_number(number);
        self.put_slice(b" ");
    }

    /// Appends a number below 256 in decimal, and a space. There is room for 8 bytes.
    #[inline(always)]
    pub fn put_byte_word(&mut self, number: u8)
        requires room { 8 ≤ room_of self.old }
        ensures text { text_of self.new ≡ text_of self.old ++ (decimal number ++ 32 ∷ []) }
        ensures room { room_of self.old ≤ room_of self.new + 4 }
    {
        let word = byte_word(number);
        self.put(&word, word[7] as usize);
    }

    /// Appends a number below a million as six digits; of a larger one, the last six. There is room for 8
    /// bytes.
    #[inline(always)]
    pub fn put_micros(&mut self, micros: u32)
        requires room { 8 ≤ room_of self.old }
        ensures text { text_of self.new ≡ text_of self.old ++ six_digits micros }
        ensures room { room_of self.new + 6 ≡ room_of self.old }
    {
        self.put_six_digits(micros % 1_000_000);
    }

    /// Appends a number below a million as six digits. There is room for 8 bytes.
    #[inline(always)]
    pub fn put_six_digits(&mut self, number: u32)
        requires few { number < 1000000 }
        requires room { 8 ≤ room_of self.old }
        ensures text { text_of self.new ≡ text_of self.old ++ six_digits number }
        ensures room { room_of self.new + 6 ≡ room_of self.old }
    {
        let front = number / 100;
        let first = two_digits(front / 100);
        let middle = two_digits(front % 100);
        let last = two_digits(number % 100);
        let word = [
            first[0], first[1], middle[0], middle[1], last[0], last[1], 0, 0,
        ];
        self.put(&word, 6);
    }

    /// Appends a moment in microseconds as seconds, a point, and six digits. There is room for 32 bytes.
    #[inline(always)]
    pub fn put_moment(&mut self, moment: u64)
        requires room { 32 ≤ room_of self.old }
        ensures text { text_of self.new ≡ text_of self.old ++ moment_text moment }
        ensures room { room_of self.old ≤ room_of self.new + 21 }
    {
        self.put_number(moment / 1_000_000);
        self.put_slice(b".");
        self.put_six_digits((moment % 1_000_000) as u32);
    }

    /// Appends two hex digits for each byte, letters in upper case. There is room for 16 bytes more.
    #[inline(always)]
    pub fn put_hex(&mut self, bytes: &[u8])
        requires room { 2 * length bytes.now + 16 ≤ room_of self.old }
        ensures text { text_of self.new ≡ text_of self.old ++ encode_upper bytes.now }
        ensures room { room_of self.new + 2 * length bytes.now ≡ room_of self.old }
    {
        if bytes.is_empty() {
            return;
        }
        if bytes.len() < 8 {
            self.put_short_hex(bytes);
        } else {
            self.put_long_hex(bytes);
        }
    }

    /// Appends two hex digits for each of the first `n` bytes, behind which at least 8 more stand. Blocks of
    /// eight are read and written, so that nothing depends on their number but the end.
    #[inline(always)]
    pub fn put_hex_of(&mut self, bytes: &[u8], n: usize)
        requires wide { n + 8 ≤ length bytes.now }
        requires room { 2 * n + 16 ≤ room_of self.old }
        ensures text { text_of self.new ≡ text_of self.old ++ encode_upper (take n bytes.now) }
        ensures room { room_of self.new + 2 * n ≡ room_of self.old }
    {
        for block in 0..n / 8 {
            self.put(&hex_of_eight(&bytes[8 * block..]), 16);
        }
        self.put(&hex_of_eight(&bytes[n / 8 * 8..]), 2 * (n % 8));
    }

    /// Appends two hex digits for each of eight bytes or more. The first block stands for what the whole
    /// blocks leave; each is written behind what counts of the one before.
    #[inline(always)]
    fn put_long_hex(&mut self, bytes: &[u8])
        requires long { 8 ≤ length bytes.now }
        requires room { 2 * length bytes.now + 16 ≤ room_of self.old }
        ensures text { text_of self.new ≡ text_of self.old ++ encode_upper bytes.now }
        ensures room { room_of self.new + 2 * length bytes.now ≡ room_of self.old }
    {
        let rest = bytes.len() % 8;
        self.put(&hex_of_eight(bytes), 2 * rest);
        for block in 0..bytes.len() / 8 {
            self.put(&hex_of_eight(&bytes[rest + 8 * block..]), 16);
        }
    }

    /// Appends two hex digits for each of one to seven bytes.
    #[inline(always)]
    fn put_short_hex(&mut self, bytes: &[u8])
        requires some { 1 ≤ length bytes.now }
        requires short { length bytes.now < 8 }
        requires room { 2 * length bytes.now + 16 ≤ room_of self.old }
        ensures text { text_of self.new ≡ text_of self.old ++ encode_upper bytes.now }
        ensures room { room_of self.new + 2 * length bytes.now ≡ room_of self.old }
    {
        self.put(&hex_of_eight(&padded(bytes)), 2 * bytes.len());
    }

    /// Appends a number as eight hex digits, letters in upper case. There is room for 24 bytes.
    #[inline(always)]
    pub fn put_ident(&mut self, ident: u32)
        requires room { 24 ≤ room_of self.old }
        ensures text { text_of self.new ≡ text_of self.old ++ ident_text ident }
        ensures room { room_of self.new + 8 ≡ room_of self.old }
    {
        self.put(&hex_of_eight(&ident_block(ident)), 8);
    }
}
