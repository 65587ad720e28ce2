//! The listener that brings lines into order.
ghost use Rattle.std.specs.Prelude.{◌≡◌, ◌++◌, ◌∷◌, ℕ, List, []};
ghost use Rattle.line_loop.specs.Heard.{HasHeard};
ghost use Rattle.line_loop.specs.declared.listener.LineStop.TheVariants as stop;
ghost use Rattle.line_order.specs.Answers.{Answers, AreLast, bad_line};
ghost use Rattle.line_order.specs.Form.{Line, said_of};
ghost use Rattle.line_order.specs.Held.{HasTaken};
ghost use Rattle.line_order.specs.Said.{said_by_parts};
ghost use Rattle.line_text.specs.Buffer.{text_of};

use crate::form::{Found, Parts, read_line};
use crate::front::Front;
use crate::place::Place;
use crate::plain::plain;
use crate::refusal::Refusal;
use crate::window::Window;
use cy_bits::NoMemory;
use frame_log::LogWhy;
use line_loop::{LineListener, LineStop};
use line_text::TextBuffer;
use std::alloc::Global;

/// Brings the lines of a log into the order of their moments, of equal ones into that of the input.
/// A line is said as soon as the greatest moment is at least its own and the window together, and
/// is held until then, and no longer.
#[derive(Drop)]
pub struct Orderer {
    /// Where memory comes from.
    alloc: Global,
    /// How much later than a line with a greater moment one may come, in microseconds.
    window: u64,
    /// The lines that are held.
    held: Window,
    /// The front of a line that was heard.
    front: Front,
}

impl Orderer {
    /// One that has heard nothing, with a window in microseconds.
    pub fn new(alloc: Global, window: u64) -> Orderer
        ensures window { result.window ≡ window }
        ensures fresh { HasTaken result result [] }
    {
        Orderer {
            alloc,
            window,
            held: Window::new(alloc),
            front: Front::zero(),
        }
    }

    /// Holds a line, without its newline, and gathers what is due then.
    #[inline(always)]
    fn take(
        &mut self,
        number: u64,
        moment: u64,
        text: &[u8],
        gathered: &mut TextBuffer,
    ) -> Result<(), LineStop<Refusal>>
        ensures { (line : List ℕ) → said_of line ≡ Line moment (text.now ++ 10 ∷ [])
            → HasHeard (λ f. Answers f.window) HasTaken self.old self.new number line
            (text_of gathered.old) (text_of gathered.new) result }
    {
        if moment < self.held.latest.saturating_sub(self.window) {
            return Err(refused(number, LogWhy::TimeBack));
        }
        let Ok(()) = self.held.put(self.alloc, Place { moment, number }, text) else {
            return Err(LineStop::NoMemory);
        };
        match self.held.release(self.window, gathered) {
            Ok(()) => Ok(()),
            Err(_) => Err(LineStop::NoMemory),
        }
    }

    /// Holds a line of these parts, and gathers what is due then.
    fn take_parts(
        &mut self,
        number: u64,
        parts: &Parts<'_>,
        gathered: &mut TextBuffer,
    ) -> Result<(), LineStop<Refusal>>
        ensures { (line : List ℕ) → said_of line ≡ said_by_parts parts.now
            → HasHeard (λ f. Answers f.window) HasTaken self.old self.new number line
            (text_of gathered.old) (text_of gathered.new) result }
    {
        let Ok(text) = parts.text(self.alloc) else {
            return Err(LineStop::NoMemory);
        };
        self.take(number, parts.moment, &text, gathered)
    }

    /// Hears a line of any form.
    #[inline(never)]
    fn hear_any(
        &mut self,
        number: u64,
        line: &[u8],
        gathered: &mut TextBuffer,
    ) -> Result<(), LineStop<Refusal>>
        ensures { HasHeard (λ f. Answers f.window) HasTaken self.old self.new number line.now
            (text_of gathered.old) (text_of gathered.new) result }
    {
        match read_line(line) {
            Found::NoForm => Err(refused(number, LogWhy::BadLine)),
            Found::Nothing => Ok(()),
            Found::Line(parts) => self.take_parts(number, &parts, gathered),
        }
    }

    /// Keeps the front of a line, where it has one.
    fn keep_front(&mut self, line: &[u8])
        ensures window { self.new.window ≡ self.old.window }
        ensures held { self.new.held ≡ self.old.held }
    {
        if let Some(front) = Front::of(line) {
            self.front = front;
        }
    }
}

impl LineListener for Orderer {
    type Refusal = Refusal;

    ghost answers = { λ o. Answers o.window };

    ghost last = { λ o. AreLast o.window };

    ghost long = { bad_line };

    ghost heard = { HasTaken };

    fn hear(
        &mut self,
        number: u64,
        line: &[u8],
        gathered: &mut TextBuffer,
    ) -> Result<(), LineStop<Refusal>> {
        if let Some(moment) = plain(&self.front, line) {
            return self.take(number, moment, line, gathered);
        }
        self.keep_front(line);
        self.hear_any(number, line, gathered)
    }

    fn finish(&mut self, gathered: &mut TextBuffer) -> Result<(), NoMemory> {
        self.held.release_all(gathered)?;
        Ok(())
    }

    fn too_long(&self, number: u64) -> Refusal {
        Refusal {
            line: number,
            why: LogWhy::BadLine,
        }
    }
}

/// Refuses a line.
fn refused(line: u64, why: LogWhy) -> LineStop<Refusal>
    ensures { result ≡ stop.Refused (record { line = line; why = why }) }
{
    LineStop::Refused(Refusal { line, why })
}
