ghost use Rattle.std.specs.Prelude.{◌≡◌, ◌≤◌, ℕ, List, Option, length, drop, OnErr, IfOk};
ghost use Rattle.cy_outside.specs.Outside.{HasCause, Takes};

use crate::Failed;

/// Where bytes come from.
pub trait Source {
    /// The bytes that are left, where it tells them.
    ghost left: { Self → Option (List ℕ) };

    /// How often it has failed. The count stays at 2^64 - 1 once it is there.
    ghost faults: { Self → ℕ };

    /// Puts the first bytes that are left at the buffer's front and answers their number, which is
    /// 0 only at the end of input or where the buffer is empty. The rest of the buffer stays.
    ///
    /// `Failed` leaves the bytes that are left as they were, and raises the count of faults.
    fn read(&mut self, buf: &mut [u8]) -> Result<usize, Failed>
        ensures within { IfOk result (λ n. n ≤ length buf.old) }
        ensures takes { IfOk result (λ n. Takes (left self.old) (left self.new) buf.old buf.new n) }
        ensures behind { IfOk result (λ n. drop n buf.new ≡ drop n buf.old) }
        ensures failed { OnErr result (left self.new ≡ left self.old) }
        ensures cause { HasCause (faults self.old) (faults self.new) result }
        ensures count { faults self.old ≤ faults self.new };

    /// The same, and the rest of the buffer may change: a source that reads into the buffer itself
    /// saves a copy.
    fn read_over(&mut self, buf: &mut [u8]) -> Result<usize, Failed>
        ensures within { IfOk result (λ n. n ≤ length buf.old) }
        ensures takes { IfOk result (λ n. Takes (left self.old) (left self.new) buf.old buf.new n) }
        ensures failed { OnErr result (left self.new ≡ left self.old) }
        ensures cause { HasCause (faults self.old) (faults self.new) result }
        ensures count { faults self.old ≤ faults self.new }
    {
        self.read(buf)
    }
}
