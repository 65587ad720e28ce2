//! The lines of an input, one after the other.
ghost use Rattle.std.specs.Prelude.{◌≤◌, ◌<◌, ◌+◌, ◌^◌, ℕ, length};
ghost use Rattle.memchr.specs.Find.{Nowhere, Passes, is_byte};
ghost use Rattle.line_loop.specs.Held.{bytes_of};

use crate::held::{BLOCK, Held, read_some};
use crate::newline::newline_in;
use cy_outside::Source;
use std::alloc::Global;

/// What a read gave.
#[derive(Clone, Copy, Debug, PartialEq, Eq)]
pub enum Came {
    /// Some bytes.
    Bytes,
    /// The end of the input.
    End,
    /// A byte behind all those that count.
    Over,
    /// The input failed.
    Failed,
    /// Memory was wanted and not given.
    NoMemory,
}

/// A reader of lines, to which each call hands the same input.
#[derive(Drop)]
pub struct LineReader {
    /// The bytes that were taken and not yet answered.
    held: Held,
    /// How many of them are known to be no newline.
    seen: usize,
    /// How many bytes may still be taken.
    room: u64,
    /// The number of lines before.
    lines: u64,
    ghost seen_within: { seen ≤ length (bytes_of held) },
    ghost clear: { Nowhere (Passes (is_byte 10) (bytes_of held)) 0 seen },
    ghost counts: { lines + (room + length (bytes_of held)) < 2 ^ 64 },
}

impl LineReader {
    ghost use Rattle.std.specs.Prelude.{◌≡◌, ◌≤◌, ◌<◌, ◌+◌, [], length, take, drop, OnOk};
    ghost use Rattle.cy_outside.specs.Outside.{Rose};
    ghost use Rattle.memchr.specs.Find.{IsFirstByte, is_byte};
    ghost use Rattle.line_loop.specs.Held.{room_of};
    ghost use Rattle.line_loop.specs.Reader.{held_of, left_of, count_of, Reads};
    ghost use Rattle.line_loop.specs.declared.reader.Came.TheVariants as came;

    /// A reader at an input's start, which takes at most `all` bytes, and one more to see that
    /// there are more.
    pub fn new(alloc: Global, all: u64) -> LineReader
        ensures held { held_of result ≡ [] }
        ensures room { left_of result ≡ all }
        ensures count { count_of result ≡ 0 }
    {
        LineReader {
            held: Held::new(alloc),
            seen: 0,
            room: all,
            lines: 0,
        }
    }

    /// The bytes that were taken and not yet answered.
    pub fn held(&self) -> &[u8]
        ensures { result.now ≡ held_of self.now }
    {
        self.held.as_slice()
    }

    /// The number of the line that is held.
    pub fn number(&self) -> u64
        requires { 0 < length (held_of self.now) }
        ensures { result ≡ count_of self.now + 1 }
    {
        self.lines + 1
    }

    /// Where the first line that is held ends.
    pub fn find_line(&mut self) -> Option<usize>
        ensures found { IsFirstByte (is_byte 10) (held_of self.old) result }
        ensures held { held_of self.new ≡ held_of self.old }
        ensures room { left_of self.new ≡ left_of self.old }
        ensures count { count_of self.new ≡ count_of self.old }
    {
        match newline_in(&self.held.as_slice()[self.seen..]) {
            Some(n) => Some(self.seen + n),
            None => {
                self.seen = self.held.as_slice().len();
                None
            }
        }
    }

    /// Lets a line of `n` bytes and its newline go.
    pub fn skip_line(&mut self, n: usize)
        requires { n < length (held_of self.old) }
        ensures held { held_of self.new ≡ drop (n + 1) (held_of self.old) }
        ensures room { left_of self.new ≡ left_of self.old }
        ensures count { count_of self.new ≡ count_of self.old + 1 }
    {
        self.seen = 0;
        self.held.skip(n + 1);
        self.lines += 1;
    }

    /// Reads once. A line of at most `line` bytes is held.
    pub fn read<L: Source>(&mut self, input: &mut L, line: u64) -> Came
        requires { length (held_of self.old) ≤ line }
        ensures reads { Reads self.old self.new (L.left input.old) (L.left input.new) result }
        ensures count { count_of self.new ≡ count_of self.old }
        ensures cause { result ≡ came.Failed → Rose (L.faults input.old) (L.faults input.new) }
        ensures kept { (result ≡ came.Failed → ⊥) → L.faults input.new ≡ L.faults input.old }
    {
        if self.room == 0 {
            return self.read_over(input);
        }
        let most = (line as usize).saturating_add(BLOCK);
        let Ok(()) = self.held.make_room(most) else {
            return Came::NoMemory;
        };
        self.read_block(input)
    }

    /// Reads a block at most, where there is room for some bytes.
    fn read_block<L: Source>(&mut self, input: &mut L) -> Came
        requires buffer { 0 < room_of self.old.held }
        requires room { 0 < left_of self.old }
        ensures reads { Reads self.old self.new (L.left input.old) (L.left input.new) result }
        ensures count { count_of self.new ≡ count_of self.old }
        ensures cause { result ≡ came.Failed → Rose (L.faults input.old) (L.faults input.new) }
        ensures kept { (result ≡ came.Failed → ⊥) → L.faults input.new ≡ L.faults input.old }
    {
        let Ok(n) = self.held.read(input, self.room as usize) else {
            return Came::Failed;
        };
        if n == 0 {
            return Came::End;
        }
        self.room -= n as u64;
        Came::Bytes
    }

    /// Where all bytes that count were taken: whether there is one more.
    fn read_over<L: Source>(&mut self, input: &mut L) -> Came
        requires { left_of self.old ≡ 0 }
        ensures reads { Reads self.old self.new (L.left input.old) (L.left input.new) result }
        ensures count { count_of self.new ≡ count_of self.old }
        ensures cause { result ≡ came.Failed → Rose (L.faults input.old) (L.faults input.new) }
        ensures kept { (result ≡ came.Failed → ⊥) → L.faults input.new ≡ L.faults input.old }
    {
        let mut piece = [0u8; 1];
        let Ok(n) = read_some(input, &mut piece) else {
            return Came::Failed;
        };
        if n == 0 {
            return Came::End;
        }
        Came::Over
    }
}
