//! When a node ticks.
ghost use Rattle.std.specs.Prelude.{◌≡◌, ◌≤◌, ◌<◌, ◌+◌, ◌*◌, ◌-◌, ◌^◌, if◌then◌else◌};

/// When a node that runs ticks next, and behind which step frames left it last. Moments are in
/// microseconds.
#[derive(Clone, Copy, Debug, PartialEq, Eq)]
pub struct Clock {
    /// The number of the next tick: how many ticks there were.
    pub number: u64,
    /// Its moment: 0 before the first record, and the greatest number where the node is silent.
    pub next: u64,
    /// The moment of the last step behind which frames were to leave.
    pub last: u64,
    pub ghost slow: { number * 1000000 ≤ next },
}

impl Clock {
    ghost use Rattle.node_run.specs.Goes.{begun_next};

    /// The time between two ticks.
    pub const SECOND: u64 = 1_000_000;

    /// The clock before the first record.
    pub fn new(silent: bool) -> Clock
        ensures number { result.number ≡ 0 }
        ensures next { result.next ≡ (if silent then 2 ^ 64 - 1 else 0) }
    {
        Clock {
            number: 0,
            next: if silent { u64::MAX } else { 0 },
            last: 0,
        }
    }

    /// Lets the first tick be at a moment, where there was none yet.
    pub fn begin(&mut self, moment: u64)
        ensures number { self.new.number ≡ self.old.number }
        ensures next { self.new.next ≡ begun_next self.old.number self.old.next moment }
        ensures last { self.new.last ≡ self.old.last }
    {
        if self.number == 0 {
            self.next = moment;
        }
    }

    /// Goes on to the next tick.
    pub fn tick(&mut self)
        requires { self.old.next < 10 ^ 18 }
        ensures number { self.new.number ≡ self.old.number + 1 }
        ensures next { self.new.next ≡ self.old.next + 1000000 }
        ensures last { self.new.last ≡ self.old.next }
    {
        *self = Clock {
            number: self.number + 1,
            next: self.next + Self::SECOND,
            last: self.next,
        };
    }
}
