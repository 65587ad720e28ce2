ghost use Rattle.std.specs.Prelude.{◌≡◌, ◌<◌, ◌≤◌, ℕ, List, Option, length, OnErr, IfOk};
ghost use Rattle.cy_outside.specs.Outside.{HasCause, Adds};

use crate::Failed;

/// Where bytes go.
pub trait Sink {
    /// The bytes that were written, where it tells them.
    ghost written: { Self → Option (List ℕ) };

    /// How often it has failed. The count stays at 2^64 - 1 once it is there.
    ghost faults: { Self → ℕ };

    /// Appends the first bytes of `bytes` and answers their number, which is 0 only where there are
    /// none. `put_all` writes them all.
    ///
    /// `Failed` leaves the bytes that were written as they were, and raises the count of faults.
    fn write(&mut self, bytes: &[u8]) -> Result<usize, Failed>
        ensures within { IfOk result (λ n. n ≤ length bytes.now) }
        ensures some { IfOk result (λ n. 0 < length bytes.now → 0 < n) }
        ensures adds { IfOk result (λ n. Adds (written self.old) (written self.new) bytes.now n) }
        ensures failed { OnErr result (written self.new ≡ written self.old) }
        ensures cause { HasCause (faults self.old) (faults self.new) result }
        ensures count { faults self.old ≤ faults self.new };
}
