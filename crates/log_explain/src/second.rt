//! The seconds of moments, which many lines in a row have in common.
ghost use Rattle.std.specs.Prelude.{◌≡◌, ◌%◌};
ghost use Rattle.log_explain.specs.Words.{second_text};
ghost use Rattle.text_lines.specs.Words.{word_text};

use line_text::TextBuffer;
use text_lines::word::Word;

/// Microseconds in a second.
const SECOND: u64 = 1_000_000;

/// A second, and its number in front of a moment in it.
#[derive(Drop)]
pub struct Second {
    /// When it began, in microseconds.
    start: u64,
    /// Its number and a point.
    front: Word,
    ghost whole: { start % 1000000 ≡ 0 },
    ghost front_is: { word_text front ≡ second_text start },
}

impl Second {
    ghost use Rattle.std.specs.Prelude.{◌≤◌, ◌<◌, ◌+◌};
    ghost use Rattle.line_text.specs.Buffer.{Puts, room_of};
    ghost use Rattle.line_text.specs.Text.{moment_text};

    /// The second in which a moment is.
    pub fn of(moment: u64) -> Second
        ensures from { result.start ≤ moment }
        ensures upto { moment < result.start + 1000000 }
    {
        let mut front = Word::new();
        front.push_number(moment / SECOND);
        front.push(b".");
        Second {
            start: moment - moment % SECOND,
            front,
        }
    }

    /// Puts a moment behind a text. It becomes the second of that moment.
    #[inline(always)]
    pub fn put(&mut self, text: &mut TextBuffer, moment: u64)
        requires { 64 ≤ room_of text.old }
        ensures text { Puts (moment_text moment) text.old text.new }
        ensures room { room_of text.old ≤ room_of text.new + 38 }
    {
        self.come_to(moment);
        self.front.put(text);
        text.put_six_digits((moment - self.start) as u32);
    }

    /// Becomes the second of a moment, where it isn't yet.
    #[inline(always)]
    fn come_to(&mut self, moment: u64)
        ensures from { self.new.start ≤ moment }
        ensures upto { moment < self.new.start + 1000000 }
    {
        if moment < self.start || moment - self.start >= SECOND {
            self.move_to(moment);
        }
    }

    /// Becomes the second of a moment.
    #[cold]
    #[inline(never)]
    fn move_to(&mut self, moment: u64)
        ensures from { self.new.start ≤ moment }
        ensures upto { moment < self.new.start + 1000000 }
    {
        *self = Second::of(moment);
    }
}
