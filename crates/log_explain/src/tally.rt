ghost use Rattle.std.specs.Prelude.{◌≡◌, ◌<◌, ◌+◌, ◌^◌, ◌∷◌, [], List, length};
ghost use Rattle.log_explain.specs.declared.line.FrameLine.{FrameLine as FrameLineOf};
ghost use Rattle.log_explain.specs.ReasonLaws.{is_badcrc};
ghost use Rattle.log_explain.specs.Counts.{change_of, counts, delivery_in, is_copy, is_delivered, is_gap, is_standby, is_stray, line_of, one_if};

use crate::line::FrameLine;
use crate::reasons::{Change, Reason};

/// What is counted of the lines of a session.
///
/// It stands for a list of lines: those that `add` was called with.
#[derive(Clone, Copy, Debug, PartialEq, Eq)]
pub struct Tally {
    /// How many transfers were delivered.
    pub delivered: u64,
    /// How many had bytes that don't fit their CRC.
    pub badcrc: u64,
    /// How many start frames had the transfer-ID of the last delivery.
    pub copies: u64,
    /// How many frames were on another bus than the active one.
    pub standby: u64,
    /// How many frames were no next frame of a transfer.
    pub stray: u64,
    /// How many transfers were given up.
    pub abandoned: u64,
    /// How many times another bus became active.
    pub handovers: u64,
    /// How many deliveries hadn't the transfer-ID that follows that of the one before.
    pub gaps: u64,
    /// The last delivery, if there is one.
    pub last: Option<Last>,
}

/// The last delivery of a session.
#[derive(Clone, Copy, Debug, PartialEq, Eq)]
pub struct Last {
    /// Its transfer-ID, 0 to 31.
    pub tid: u8,
    /// The line of its last frame.
    pub line: u64,
}

impl Tally {
    /// No line yet.
    pub fn new() -> Tally
        ensures { result ≡ counts [] }
    {
        Tally {
            delivered: 0,
            badcrc: 0,
            copies: 0,
            standby: 0,
            stray: 0,
            abandoned: 0,
            handovers: 0,
            gaps: 0,
            last: None,
        }
    }

    /// The line of the last frame of the last delivery; 0 where there is none.
    pub fn last_line(&self) -> u64
        ensures { result ≡ line_of self.now.last }
    {
        match self.last {
            Some(last) => last.line,
            None => 0,
        }
    }

    /// One line more.
    #[inline(always)]
    pub fn add(&mut self, line: &FrameLine)
        ensures { (past : List FrameLineOf) → length past < 2 ^ 28 → self.old ≡ counts past
            → self.new ≡ counts (line.now ∷ past) }
    {
        match line.reason {
            Reason::Taken(_) => {}
            Reason::Standby(_) => self.standby = plus(self.standby, true),
            _ => self.add_any(line),
        }
    }

    /// The same of any line.
    #[inline(always)]
    fn add_any(&mut self, line: &FrameLine)
        ensures { (past : List FrameLineOf) → length past < 2 ^ 28 → self.old ≡ counts past
            → self.new ≡ counts (line.now ∷ past) }
    {
        self.delivered = plus(self.delivered, is_delivered(line.reason));
        self.badcrc = plus(self.badcrc, is_badcrc(line.reason));
        self.copies = plus(self.copies, is_copy(line.reason));
        self.standby = plus(self.standby, is_standby(line.reason));
        self.stray = plus(self.stray, is_stray(line.reason));
        let change = change_of(line.reason);
        self.abandoned = plus(self.abandoned, change.over.is_some());
        self.handovers = plus(self.handovers, change.from.is_some());
        let delivery = delivery_in(line);
        self.gaps = plus(self.gaps, is_gap(self.last, delivery));
        self.last = delivery.or(self.last);
    }
}

/// One more, where this is so.
fn plus(count: u64, is: bool) -> u64
    ensures { count < 2 ^ 28 → result ≡ count + one_if is }
{
    count.saturating_add(u64::from(is))
}

/// The delivery that a line tells, if it tells one.
fn delivery_in(line: &FrameLine) -> Option<Last>
    ensures { result ≡ delivery_in line.now }
{
    let Some(transfer) = line.transfer else {
        return None;
    };
    match line.reason {
        Reason::Delivered { .. } => Some(Last {
            tid: transfer.tid,
            line: line.line,
        }),
        _ => None,
    }
}

/// Whether a delivery hasn't the transfer-ID that follows that of the one before.
fn is_gap(before: Option<Last>, now: Option<Last>) -> bool
    ensures { result ≡ is_gap before now }
{
    match (before, now) {
        (Some(before), Some(now)) => u32::from(now.tid) != (u32::from(before.tid) + 1) % 32,
        _ => false,
    }
}

/// What changes with a frame that begins a transfer, and nothing with any other.
fn change_of(reason: Reason) -> Change
    ensures { result ≡ change_of reason }
{
    match reason {
        Reason::Begun(change) => change,
        Reason::Delivered { change, .. } => change,
        _ => Change::NONE,
    }
}

fn is_delivered(reason: Reason) -> bool
    ensures { result ≡ is_delivered reason }
{
    matches!(reason, Reason::Delivered { .. })
}

fn is_badcrc(reason: Reason) -> bool
    ensures { result ≡ is_badcrc reason }
{
    matches!(reason, Reason::BadCrc(_))
}

fn is_copy(reason: Reason) -> bool
    ensures { result ≡ is_copy reason }
{
    matches!(reason, Reason::Copy(_))
}

fn is_standby(reason: Reason) -> bool
    ensures { result ≡ is_standby reason }
{
    matches!(reason, Reason::Standby(_))
}

fn is_stray(reason: Reason) -> bool
    ensures { result ≡ is_stray reason }
{
    matches!(
        reason,
        Reason::StrayNone | Reason::StrayTid(_) | Reason::StrayToggle(_)
    )
}
