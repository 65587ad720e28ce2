//! The numbers of lines, which ten in a row have in common but for the last digit.
ghost use Rattle.std.specs.Prelude.{◌≡◌, ◌%◌};
ghost use Rattle.log_explain.specs.Words.{tens_text};
ghost use Rattle.text_lines.specs.Words.{word_text};

use line_text::TextBuffer;
use text_lines::word::Word;

/// Ten lines of a log in a row, and what stands before the last digit of their numbers.
#[derive(Drop)]
pub struct TenLines {
    /// The first of them: its number ends in 0.
    start: u64,
    /// `frame`, a space, and the digits of their numbers but the last.
    front: Word,
    ghost whole: { start % 10 ≡ 0 },
    ghost front_is: { word_text front ≡ tens_text start },
}

impl TenLines {
    ghost use Rattle.std.specs.Prelude.{◌≤◌, ◌<◌, ◌+◌, ◌++◌, ◌∷◌, [], codes, decimal};
    ghost use Rattle.line_text.specs.Buffer.{Puts, room_of};

    /// The ten lines of which a line is one.
    pub fn of(line: u64) -> TenLines
        ensures from { result.start ≤ line }
        ensures upto { line < result.start + 10 }
    {
        let mut front = Word::new();
        front.push(b"frame ");
        if line >= 10 {
            front.push_number(line / 10);
        }
        TenLines {
            start: line - line % 10,
            front,
        }
    }

    /// Puts `frame` and the number of a line, a space behind each. It becomes the ten of that line.
    #[inline(always)]
    pub fn put(&mut self, text: &mut TextBuffer, line: u64)
        requires { 64 ≤ room_of text.old }
        ensures text { Puts (codes "frame " ++ (decimal line ++ 32 ∷ [])) text.old text.new }
        ensures room { room_of text.old ≤ room_of text.new + 34 }
    {
        self.come_to(line);
        self.front.put(text);
        text.put(&[b'0' + (line - self.start) as u8, b' '], 2);
    }

    /// Becomes the ten of a line, where it isn't yet.
    #[inline(always)]
    fn come_to(&mut self, line: u64)
        ensures from { self.new.start ≤ line }
        ensures upto { line < self.new.start + 10 }
    {
        if line < self.start || line - self.start >= 10 {
            self.move_to(line);
        }
    }

    /// Becomes the ten of a line.
    #[cold]
    #[inline(never)]
    fn move_to(&mut self, line: u64)
        ensures from { self.new.start ≤ line }
        ensures upto { line < self.new.start + 10 }
    {
        *self = TenLines::of(line);
    }
}
