ghost use Rattle.std.specs.Prelude.{◌≡◌, ◌<◌, ◌^◌, ◌∷◌, [], List, length};
ghost use Rattle.bus_survey.specs.Starts.{kept_starts, is_copy, is_gap};

use crate::waits::Waits;

/// The start of a transfer.
#[derive(Clone, Copy)]
pub struct Start {
    /// The transfer-ID, 0 to 31.
    pub tid: u8,
    /// When it was received, in microseconds.
    pub moment: u64,
}

/// What is counted of the starts of one flow.
///
/// It stands for a list of starts: those that `add` was called with.
#[derive(Clone, Copy)]
pub struct Starts {
    /// How many there are.
    pub count: u64,
    /// How many have the transfer-ID of the start before.
    pub copies: u64,
    /// How many are no copy, and haven't the transfer-ID that follows that of the start before.
    pub gaps: u64,
    /// The transfer-ID of the last start, if there is one.
    pub last_tid: Option<u8>,
    /// The times between starts that are no copies.
    pub waits: Waits,
}

impl Starts {
    /// No start yet.
    pub fn new() -> Starts
        ensures { result ≡ kept_starts [] }
    {
        Starts {
            count: 0,
            copies: 0,
            gaps: 0,
            last_tid: None,
            waits: Waits::new(),
        }
    }

    /// One start more.
    pub fn add(&mut self, start: Start)
        ensures { (past : List Start) → length past < 2 ^ 28 → self.old ≡ kept_starts past
            → self.new ≡ kept_starts (start ∷ past) }
    {
        let is_copy = is_copy(self.last_tid, start.tid);
        let is_gap = is_gap(self.last_tid, start.tid);
        self.count = self.count.saturating_add(1);
        self.copies = self.copies.saturating_add(u64::from(is_copy));
        self.gaps = self.gaps.saturating_add(u64::from(is_gap));
        self.last_tid = Some(start.tid);
        if !is_copy {
            self.waits.add(start.moment);
        }
    }
}

/// Whether a start is a copy: it has the transfer-ID of the start before.
fn is_copy(last: Option<u8>, tid: u8) -> bool
    ensures { result ≡ is_copy last tid }
{
    match last {
        Some(before) => tid == before,
        None => false,
    }
}

/// Whether there is a gap before a start: it is no copy, and hasn't the transfer-ID that follows that
/// of the start before.
fn is_gap(last: Option<u8>, tid: u8) -> bool
    ensures { result ≡ is_gap last tid }
{
    match last {
        Some(before) => tid != before && u16::from(tid) != (u16::from(before) + 1) % 32,
        None => false,
    }
}
