//! The lines that are held.
ghost use Rattle.std.specs.Prelude.{◌≡◌, ◌<◌, ◌≤◌, ◌++◌, ◌∷◌, true, false, [], IfOk, OnOk};
ghost use Rattle.line_text.specs.Buffer.{text_of};
ghost use Rattle.line_order.specs.Held.{AreBelow, HasLetGo, HasReleased, IsSound, LetsGo, Puts, count_of, first_due, first_up_to, held_of, late_of};
ghost use Rattle.line_order.specs.Moments.{late_first};
ghost use Rattle.line_order.specs.Order.{entry, texts};
ghost use Rattle.line_order.specs.Queue.{queued};
ghost use Rattle.line_order.specs.Row.{Pops, first_moment};

use crate::line_queue::LineQueue;
use crate::place::Place;
use cy_bits::NoMemory;
use line_text::TextBuffer;
use std::alloc::Global;
use std::collections::BTreeMap;

/// Lines in the order of their moments: those that came in order stand in a queue, the others in a
/// map.
#[derive(Drop)]
pub struct Window {
    /// The lines that came in order.
    queue: LineQueue,
    /// Each line that came late, without its newline, at its place.
    late: BTreeMap<Place, Vec<u8>>,
    /// The greatest moment so far, in microseconds.
    pub latest: u64,
}

impl Window {
    /// No lines; takes no memory yet.
    pub fn new(alloc: Global) -> Window
        ensures held { held_of result ≡ [] }
        ensures latest { result.latest ≡ 0 }
        ensures sound { IsSound result }
    {
        Window {
            queue: LineQueue::new(alloc),
            late: BTreeMap::new(alloc),
            latest: 0,
        }
    }

    /// Holds a line, whose number is above those that are held.
    #[inline(always)]
    pub fn put(&mut self, alloc: Global, place: Place, line: &[u8]) -> Result<(), NoMemory>
        ensures { OnOk result (IsSound self.old → AreBelow place.number (held_of self.old)
            → Puts (entry place.moment place.number (line.now ++ 10 ∷ [])) self.old self.new) }
    {
        if place.moment < self.latest {
            self.put_late(alloc, place, line)
        } else {
            self.put_last(place, line)
        }
    }

    /// Holds a line that comes in order.
    #[inline(always)]
    fn put_last(&mut self, place: Place, line: &[u8]) -> Result<(), NoMemory>
        requires { self.old.latest ≤ place.moment }
        ensures { OnOk result (IsSound self.old → AreBelow place.number (held_of self.old)
            → Puts (entry place.moment place.number (line.now ++ 10 ∷ [])) self.old self.new) }
    {
        self.queue.push(place, line)?;
        self.latest = place.moment;
        Ok(())
    }

    /// Holds a line that comes late.
    #[inline(never)]
    fn put_late(&mut self, alloc: Global, place: Place, line: &[u8]) -> Result<(), NoMemory>
        requires { place.moment < self.old.latest }
        ensures { OnOk result (IsSound self.old → AreBelow place.number (held_of self.old)
            → Puts (entry place.moment place.number (line.now ++ 10 ∷ [])) self.old self.new) }
    {
        let mut text = Vec::with_capacity(alloc, line.len())?;
        text.extend_from_slice(line)?;
        match self.late.insert(place, text) {
            Ok(_) => Ok(()),
            Err(_) => Err(NoMemory),
        }
    }

    /// Whether the first line is one that came late.
    #[inline(always)]
    fn late_is_first(&self) -> bool
        ensures { result ≡ late_first (late_of self.now) (queued self.now.queue) }
    {
        if self.late.is_empty() {
            return false;
        }
        self.late_is_before()
    }

    /// The same, where one came late.
    #[inline(never)]
    fn late_is_before(&self) -> bool
        ensures { result ≡ late_first (late_of self.now) (queued self.now.queue) }
    {
        let Some(late) = self.first_late() else {
            return false;
        };
        match self.queue.first() {
            Some(moment) => late < moment,
            None => true,
        }
    }

    /// The moment of the first of those that came late.
    fn first_late(&self) -> Option<u64>
        ensures { result ≡ first_moment (late_of self.now) }
    {
        match self.late.first_key_value() {
            Some((place, _)) => Some(place.moment),
            None => None,
        }
    }

    /// The moment of the first line.
    #[inline(always)]
    fn first(&self) -> Option<u64>
        ensures { IsSound self.now → result ≡ first_moment (held_of self.now) }
    {
        if self.late_is_first() {
            self.first_late()
        } else {
            self.queue.first()
        }
    }

    /// Whether there is a first line, and its moment is no more than this one.
    #[inline(always)]
    fn is_due(&self, limit: u64) -> bool
        ensures { IsSound self.now → result ≡ first_up_to limit (held_of self.now) }
    {
        match self.first() {
            Some(moment) => moment <= limit,
            None => false,
        }
    }

    /// Gathers the first of the lines that came late, if there is one, and lets it go.
    #[inline(never)]
    fn pop_late(&mut self, gathered: &mut TextBuffer) -> Result<bool, NoMemory>
        ensures pops { IfOk result (λ some. Pops (late_of self.old) (late_of self.new)
            (text_of gathered.old) (text_of gathered.new) some) }
        ensures queue { OnOk result (queued self.new.queue ≡ queued self.old.queue) }
        ensures latest { OnOk result (self.new.latest ≡ self.old.latest) }
    {
        let Some((_, text)) = self.late.pop_first() else {
            return Ok(false);
        };
        gathered.push(&text)?;
        gathered.push(b"\n")?;
        Ok(true)
    }

    /// Gathers the first line, if there is one, and lets it go.
    #[inline(always)]
    fn pop(&mut self, gathered: &mut TextBuffer) -> Result<bool, NoMemory>
        ensures pops { IfOk result (λ some. IsSound self.old
            → LetsGo self.old self.new (text_of gathered.old) (text_of gathered.new) some) }
        ensures fewer { IfOk result (λ some. some ≡ true → count_of self.new < count_of self.old) }
    {
        if self.late_is_first() {
            self.pop_late(gathered)
        } else {
            self.queue.pop(gathered)
        }
    }

    /// Gathers the lines that are due, and lets them go.
    #[inline(always)]
    pub fn release(&mut self, window: u64, gathered: &mut TextBuffer) -> Result<(), NoMemory>
        ensures released { OnOk result (IsSound self.old → HasReleased window self.old self.new
            (text_of gathered.old) (text_of gathered.new)) }
        ensures none { OnOk result (IsSound self.old
            → first_due window self.new.latest (held_of self.new) ≡ false) }
    {
        let Some(limit) = self.latest.checked_sub(window) else {
            return Ok(());
        };
        self.release_to(limit, gathered)
    }

    /// Gathers the lines whose moment is no more than this one, and lets them go.
    #[inline(always)]
    fn release_to(&mut self, limit: u64, gathered: &mut TextBuffer) -> Result<(), NoMemory>
        ensures released { OnOk result (IsSound self.old → HasLetGo limit self.old self.new
            (text_of gathered.old) (text_of gathered.new)) }
        ensures none { OnOk result (IsSound self.old
            → first_up_to limit (held_of self.new) ≡ false) }
    {
        'lines: while self.is_due(limit) {
            if !self.pop(gathered)? {
                return Ok(());
            }
        }
        Ok(())
    }

    /// Gathers all lines, and lets them go.
    pub fn release_all(&mut self, gathered: &mut TextBuffer) -> Result<(), NoMemory>
        ensures { OnOk result (IsSound self.old
            → text_of gathered.new ≡ text_of gathered.old ++ texts (held_of self.old)) }
    {
        'lines: loop {
            if !self.pop(gathered)? {
                return Ok(());
            }
        }
    }
}
