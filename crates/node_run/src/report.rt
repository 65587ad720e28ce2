ghost use Rattle.std.specs.Prelude.{◌≡◌};
ghost use Rattle.node_run.specs.Ran.{IsEmpty, numbers_of};

use cy_bits::List;
use node_core::{Line, Numbers};
use std::alloc::Global;

/// What a run reports.
#[derive(Drop)]
pub struct Report {
    /// The lines, in order.
    pub lines: List<Line>,
    /// How many records the log had.
    pub records: u64,
    /// How many transfers were delivered.
    pub delivered: u64,
    /// How many transfers were dropped since their bytes didn't fit their CRC.
    pub badcrc: u64,
    /// How many transfers began at a source for which its port had no session.
    pub nosession: u64,
    /// How many frames were sent.
    pub sent: u64,
    /// The greatest number of bytes that the open sessions' buffers had.
    pub held: u64,
    /// The bytes that they have at most.
    pub bound: u64,
    /// For each request of a file in which the tree failed, the log line of its last frame.
    pub failed: List<u64>,
}

impl Report {
    /// A report of nothing. It takes no memory.
    pub fn empty(alloc: Global) -> Report
        ensures { IsEmpty result }
    {
        Report {
            lines: List::empty(alloc),
            records: 0,
            delivered: 0,
            badcrc: 0,
            nosession: 0,
            sent: 0,
            held: 0,
            bound: 0,
            failed: List::empty(alloc),
        }
    }

    /// Takes its numbers from these.
    pub fn count(&mut self, numbers: &Numbers)
        ensures numbers { numbers_of self.new ≡ numbers.now }
        ensures lines { self.new.lines ≡ self.old.lines }
        ensures failed { self.new.failed ≡ self.old.failed }
    {
        self.records = numbers.records;
        self.delivered = numbers.delivered;
        self.badcrc = numbers.badcrc;
        self.nosession = numbers.nosession;
        self.sent = numbers.sent;
        self.held = numbers.held;
        self.bound = numbers.bound;
    }
}
