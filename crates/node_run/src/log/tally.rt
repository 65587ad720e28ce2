ghost use Rattle.std.specs.Prelude.{◌≡◌, ◌≤◌, ◌<◌, count_by};
ghost use Rattle.node_core.specs.Steps.{is_rx, is_nosession, one_if};
ghost use Rattle.report_lines.specs.Lent.{told_lines};

use node_core::{LineRef, Numbers};

/// The numbers of a run, step by step.
#[derive(Drop)]
pub struct Tally {
    /// The numbers.
    pub numbers: Numbers,
    ghost few_delivered: { numbers.delivered ≤ numbers.records },
    ghost few_bad: { numbers.badcrc ≤ numbers.records },
    ghost few_refused: { numbers.nosession ≤ numbers.records },
}

/// What is counted of a record: each number is 0 or 1.
#[derive(Clone, Copy, Debug, PartialEq, Eq)]
pub struct Seen {
    /// Whether a transfer was delivered.
    pub delivered: u64,
    /// Whether one was dropped since its bytes didn't fit its CRC.
    pub badcrc: u64,
    /// Whether one began at a source without a session.
    pub nosession: u64,
    ghost one_delivered: { delivered ≤ 1 },
    ghost one_bad: { badcrc ≤ 1 },
    ghost one_refused: { nosession ≤ 1 },
}

impl Seen {
    /// What is counted of the line on a record, if there is one, and of whether it dropped a
    /// transfer for its CRC.
    #[inline(always)]
    pub fn of(told: Option<LineRef<'_>>, badcrc: bool) -> Seen
        ensures delivered { result.delivered ≡ count_by is_rx (told_lines told.entry) }
        ensures badcrc { result.badcrc ≡ one_if badcrc }
        ensures nosession { result.nosession ≡ count_by is_nosession (told_lines told.entry) }
    {
        Seen {
            delivered: rx_in(told),
            badcrc: one_if(badcrc),
            nosession: nosession_in(told),
        }
    }

    /// What is counted of a record on which nothing is told, by whether it dropped a transfer for its
    /// CRC.
    #[inline(always)]
    pub fn silent(badcrc: bool) -> Seen
        ensures delivered { result.delivered ≡ 0 }
        ensures badcrc { result.badcrc ≡ one_if badcrc }
        ensures nosession { result.nosession ≡ 0 }
    {
        Seen {
            delivered: 0,
            badcrc: one_if(badcrc),
            nosession: 0,
        }
    }
}

impl Tally {
    ghost use Rattle.node_run.specs.Hears.{counted};
    ghost use Rattle.node_run.specs.Goes.{with_sent};
    ghost use Rattle.node_run.specs.Ran.{no_numbers};

    /// The numbers before the first record, with the bytes that are held, and the bound on them.
    pub fn new(held: u64, bound: u64) -> Tally
        ensures { result.numbers ≡ record no_numbers { held = held; bound = bound } }
    {
        Tally {
            numbers: Numbers {
                records: 0,
                delivered: 0,
                badcrc: 0,
                nosession: 0,
                sent: 0,
                held,
                bound,
            },
        }
    }

    /// Counts a record, and the bytes that are held behind it.
    #[inline(always)]
    pub fn count(&mut self, seen: Seen, held: u64)
        requires { self.old.numbers.records < 0xFFFF_FFFF_FFFF_FFFF }
        ensures { self.new.numbers ≡ counted self.old.numbers seen held }
    {
        let numbers = self.numbers;
        self.numbers = Numbers {
            records: numbers.records + 1,
            delivered: numbers.delivered + seen.delivered,
            badcrc: numbers.badcrc + seen.badcrc,
            nosession: numbers.nosession + seen.nosession,
            held,
            ..numbers
        };
    }

    /// Counts frames that were sent. No run sends more than the greatest number.
    pub fn send(&mut self, sent: u64)
        ensures { self.new.numbers ≡ with_sent self.old.numbers sent }
    {
        self.numbers.sent = self.numbers.sent.saturating_add(sent);
    }
}

/// How many deliveries a line reports.
#[inline(always)]
fn rx_in(told: Option<LineRef<'_>>) -> u64
    ensures value { result ≡ count_by is_rx (told_lines told.entry) }
    ensures small { result ≤ 1 }
{
    match told {
        Some(LineRef::Rx(_)) => 1,
        _ => 0,
    }
}

/// How many transfers without a session a line reports.
#[inline(always)]
fn nosession_in(told: Option<LineRef<'_>>) -> u64
    ensures value { result ≡ count_by is_nosession (told_lines told.entry) }
    ensures small { result ≤ 1 }
{
    match told {
        Some(LineRef::NoSession(_)) => 1,
        _ => 0,
    }
}

/// 1 for a yes.
#[inline(always)]
fn one_if(yes: bool) -> u64
    ensures value { result ≡ one_if yes }
    ensures small { result ≤ 1 }
{
    if yes { 1 } else { 0 }
}
