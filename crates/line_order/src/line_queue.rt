//! Lines that come at the back and go at the front.
ghost use Rattle.std.specs.Prelude.{◌≡◌, ◌≤◌, ◌+◌, drop, length};
ghost use Rattle.line_text.specs.Buffer.{text_of};
ghost use Rattle.line_order.specs.Row.{size_of};

use crate::place::Place;
use crate::queued::Queued;
use cy_bits::NoMemory;
use line_text::TextBuffer;
use std::alloc::Global;
use std::mem::swap;

/// How many bytes of lines that went are kept in any case.
const MUCH: usize = 1 << 15;

/// Lines in a row. `push` drops those that went once they have 32,768 bytes and no fewer than those
/// that are held: so it leaves no more bytes of lines that went than 32,768, or than the lines that
/// are held have.
#[derive(Drop)]
pub struct LineQueue {
    /// Lines that went, and those that are held.
    lines: Vec<Queued>,
    /// How many lines went.
    first: usize,
    /// The bytes of all these lines.
    text: TextBuffer,
    /// How many bytes of lines went.
    start: usize,
    /// A buffer for the next drop of lines that went.
    spare: TextBuffer,
    ghost within: { first ≤ length lines.items },
    ghost bytes: { start + size_of (drop first lines.items) ≡ length (text_of text) },
}

impl LineQueue {
    ghost use Rattle.std.specs.Prelude.{◌≡◌, ◌<◌, ◌≤◌, ◌++◌, ◌∷◌, true, [], length, max, OnOk, IfOk};
    ghost use Rattle.line_text.specs.Buffer.{text_of};
    ghost use Rattle.line_order.specs.Order.{entry};
    ghost use Rattle.line_order.specs.Row.{Pops, first_moment};
    ghost use Rattle.line_order.specs.Queue.{gone_of, held_size, queued};

    /// No lines; takes no memory yet.
    pub fn new(alloc: Global) -> LineQueue
        ensures { queued result ≡ [] }
    {
        LineQueue {
            lines: Vec::new(alloc),
            first: 0,
            text: TextBuffer::new(alloc),
            start: 0,
            spare: TextBuffer::new(alloc),
        }
    }

    /// The moment of the first line.
    #[inline(always)]
    pub fn first(&self) -> Option<u64>
        ensures { result ≡ first_moment (queued self.now) }
    {
        if self.first < self.lines.len() {
            Some(self.lines[self.first].place.moment)
        } else {
            None
        }
    }

    /// Drops the lines that went.
    #[cold]
    #[inline(never)]
    fn tidy(&mut self) -> Result<(), NoMemory>
        ensures held { OnOk result (queued self.new ≡ queued self.old) }
        ensures few { OnOk result (gone_of self.new ≡ 0) }
    {
        self.spare.clear();
        self.spare.push(&self.text.as_slice()[self.start..])?;
        swap(&mut self.text, &mut self.spare);
        self.start = 0;
        let n = self.lines.len();
        self.lines.copy_within(self.first..n, 0);
        self.lines.truncate(n - self.first);
        self.first = 0;
        Ok(())
    }

    /// Holds a line behind the others.
    #[inline(always)]
    pub fn push(&mut self, place: Place, line: &[u8]) -> Result<(), NoMemory>
        ensures held { OnOk result (queued self.new
            ≡ queued self.old ++ (entry place.moment place.number (line.now ++ 10 ∷ []) ∷ [])) }
        ensures few { OnOk result (gone_of self.new ≤ max 32768 (held_size self.new)) }
    {
        if self.start >= MUCH && self.start >= self.text.len() - self.start {
            self.tidy()?;
        }
        self.add(place, line)
    }

    /// The same, and keeps the lines that went.
    #[inline(always)]
    fn add(&mut self, place: Place, line: &[u8]) -> Result<(), NoMemory>
        ensures held { OnOk result (queued self.new
            ≡ queued self.old ++ (entry place.moment place.number (line.now ++ 10 ∷ []) ∷ [])) }
        ensures gone { OnOk result (gone_of self.new ≡ gone_of self.old) }
        ensures more { OnOk result (held_size self.old ≤ held_size self.new) }
    {
        let Some(len) = line.len().checked_add(1) else {
            return Err(NoMemory);
        };
        self.text.reserve(len)?;
        let Ok(()) = self.lines.push(Queued { place, len }) else {
            return Err(NoMemory);
        };
        self.text.put_slice(line);
        self.text.put_slice(b"\n");
        Ok(())
    }

    /// Gathers the first line, if there is one, and lets it go.
    #[inline(always)]
    pub fn pop(&mut self, gathered: &mut TextBuffer) -> Result<bool, NoMemory>
        ensures { IfOk result (λ some. Pops (queued self.old) (queued self.new)
            (text_of gathered.old) (text_of gathered.new) some) }
    {
        if self.first >= self.lines.len() {
            return Ok(false);
        }
        let text = self.text.as_slice();
        let end = self.start + self.lines[self.first].len;
        gathered.push(&text[self.start..end])?;
        self.start = end;
        self.first += 1;
        Ok(true)
    }
}
