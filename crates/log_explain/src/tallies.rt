ghost use Rattle.std.specs.Prelude.{◌≡◌, ◌<◌, ◌≤◌, ◌*◌, ◌^◌, ◌∷◌, [], List, Some, IfOk, length, replicate, set, slice_get};
ghost use Rattle.log_explain.specs.Counts.{counts, line_of};
ghost use Rattle.log_explain.specs.Places.{slot_at};
ghost use Rattle.log_explain.specs.SessionLines.{tally_at};
ghost use Rattle.log_explain.specs.declared.line.FrameLine.{FrameLine as FrameLineOf};
ghost use Rattle.log_explain.specs.declared.tally.Tally.{Tally as TallyOf};

use crate::line::FrameLine;
use crate::tally::Tally;
use cy_bits::NoMemory;
use std::alloc::Global;

/// What is counted of each session, by its slot: 128 slots stand for each port, one for each
/// source.
#[derive(Drop)]
pub struct Tallies {
    /// By the slots.
    pub by_slot: Vec<Tally>,
    /// By the slots, where the session may be among those of its port.
    hints: Vec<u8>,
}

/// How many sources a port may have.
const SOURCES: usize = 128;

impl Tallies {
    /// No line yet, of so many ports.
    pub fn new(alloc: Global, ports: usize) -> Result<Tallies, NoMemory>
        ensures { ports ≤ 2 ^ 16 → IfOk result (λ t.
            t.by_slot.items ≡ replicate (ports * 128) (counts [])) }
    {
        let slots = ports.saturating_mul(SOURCES);
        let mut by_slot = Vec::new(alloc);
        by_slot.resize(slots, Tally::new())?;
        let mut hints = Vec::new(alloc);
        hints.resize(slots, 0)?;
        Ok(Tallies { by_slot, hints })
    }

    /// The line of the last frame of the last delivery; 0 where there is none.
    #[inline(always)]
    pub fn last_line(&self, slot: usize) -> u64
        ensures { (t : TallyOf) → slice_get self.now.by_slot.items slot ≡ Some t
            → result ≡ line_of t.last }
    {
        match self.by_slot.get(slot) {
            Some(tally) => tally.last_line(),
            None => 0,
        }
    }

    /// What is counted at a slot.
    pub fn at(&self, slot: usize) -> Tally
        ensures { result ≡ tally_at self.now.by_slot.items slot }
    {
        match self.by_slot.get(slot) {
            Some(tally) => *tally,
            None => Tally::new(),
        }
    }

    /// Where the session of a slot may be among those of its port.
    #[inline(always)]
    pub fn hint(&self, slot: usize) -> usize {
        match self.hints.get(slot) {
            Some(hint) => *hint as usize,
            None => 0,
        }
    }

    /// Keeps where the session of a slot is among those of its port.
    pub fn keep_hint(&mut self, slot: usize, index: usize)
        ensures { self.new.by_slot ≡ self.old.by_slot }
    {
        if slot < self.hints.len() {
            self.hints[slot] = index.min(255) as u8;
        }
    }

    /// One line more at a slot.
    #[inline(always)]
    pub fn add(&mut self, slot: usize, line: &FrameLine)
        ensures { (past : List FrameLineOf) → length past < 2 ^ 28
            → slice_get self.old.by_slot.items slot ≡ Some (counts past)
            → self.new.by_slot.items
            ≡ set self.old.by_slot.items slot (counts (line.now ∷ past)) }
    {
        if slot < self.by_slot.len() {
            let tally = &mut self.by_slot[slot];
            tally.add(line);
        }
    }
}

/// The slot of a source on the port at a place.
#[inline(always)]
pub fn slot_of(place: usize, source: u8) -> usize
    ensures { place ≤ 2 ^ 16 → result ≡ slot_at place source }
{
    place.wrapping_mul(SOURCES).wrapping_add(source as usize)
}
