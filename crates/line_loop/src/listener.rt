ghost use Rattle.std.specs.Prelude.{◌≡◌, ◌≤◌, ℕ, List, Result, length, OnOk};
ghost use Rattle.line_text.specs.Buffer.{text_of};
ghost use Rattle.line_loop.specs.Heard.{HasEnded, HasHeard};

use cy_bits::NoMemory;
use line_text::TextBuffer;

/// Why a line is not answered.
#[derive(Clone, Copy, Debug, PartialEq, Eq)]
pub enum LineStop<R> {
    /// The line is refused.
    Refused(R),
    /// Memory was wanted and not given.
    NoMemory,
}

/// What answers the lines of an input, one after the other. What it says depends on what it was at
/// first and the lines that it heard before. Lists of lines have the newest first; numbers of lines
/// are counted from 1.
pub trait LineListener {
    /// Why it refuses a line.
    type Refusal: Drop;

    /// This answers a line, by what it was at first, the lines that it heard before, and the line's
    /// bytes without the newline: a text, or a refusal.
    ghost answers: { Self → List (List ℕ) → List ℕ → Result (List ℕ) Self.Refusal → Type 0 };

    /// Its last words, by what it was at first and the lines that it heard.
    ghost last: { Self → List (List ℕ) → List ℕ → Type 0 };

    /// Its refusal of a line that is too long, by its number.
    ghost long: { ℕ → Self.Refusal };

    /// What it was at first, what it is, and the lines that it heard in between.
    ghost heard: { Self → Self → List (List ℕ) → Type 0 };

    /// Hears a line, and gathers its answer. A line that is refused is not heard, and gathers nothing.
    fn hear(
        &mut self,
        number: u64,
        line: &[u8],
        gathered: &mut TextBuffer,
    ) -> Result<(), LineStop<Self::Refusal>>
        requires few { length (text_of gathered.old) ≤ 65536 }
        ensures { HasHeard answers heard self.old self.new number line.now
            (text_of gathered.old) (text_of gathered.new) result };

    /// Gathers its last words: at the end of the input, and before a refusal is answered.
    fn finish(&mut self, gathered: &mut TextBuffer) -> Result<(), NoMemory>
        ensures { OnOk result (HasEnded last heard self.old
            (text_of gathered.old) (text_of gathered.new)) };

    /// Refuses a line that is too long.
    fn too_long(&self, number: u64) -> Self::Refusal
        ensures { result ≡ long number };
}
