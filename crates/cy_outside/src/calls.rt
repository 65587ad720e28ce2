ghost use Rattle.std.specs.Prelude.{◌≡◌, ◌≤◌, if◌then◌else◌};
ghost use Rattle.cy_outside.specs.Calls.{one_more, is_failing};

/// The calls of an object in memory: which of them are to fail, and how many faults there were.
#[derive(Drop)]
pub struct Calls<'a> {
    /// The numbers of the calls that are to fail, counted from 0, in any order.
    pub failing: &'a [u64],
    /// The number of the next call, up to 2^64 - 1.
    pub next: u64,
    /// How many faults were counted, up to 2^64 - 1.
    pub faults: u64,
}

impl<'a> Calls<'a> {
    /// No call yet; those with these numbers are to fail.
    pub fn new(failing: &'a [u64]) -> Calls<'a>
        ensures failing { result.failing.now ≡ failing.now }
        ensures next { result.next ≡ 0 }
        ensures faults { result.faults ≡ 0 }
    {
        Calls {
            failing,
            next: 0,
            faults: 0,
        }
    }

    /// Counts a fault.
    pub fn fail(&mut self)
        ensures failing { self.new.failing.now ≡ self.old.failing.now }
        ensures next { self.new.next ≡ self.old.next }
        ensures faults { self.new.faults ≡ one_more self.old.faults }
        ensures grows { self.old.faults ≤ self.new.faults }
    {
        self.faults = self.faults.saturating_add(1);
    }

    /// Counts a call, and answers whether it is to fail, which counts a fault.
    pub fn fails(&mut self) -> bool
        ensures value { result ≡ is_failing self.old.failing.now self.old.next }
        ensures failing { self.new.failing.now ≡ self.old.failing.now }
        ensures next { self.new.next ≡ one_more self.old.next }
        ensures faults { self.new.faults
            ≡ (if result then one_more self.old.faults else self.old.faults) }
        ensures grows { self.old.faults ≤ self.new.faults }
    {
        let call = self.next;
        self.next = call.saturating_add(1);
        let is_failing = self.failing.contains(&call);
        if is_failing {
            self.fail();
        }
        is_failing
    }
}
