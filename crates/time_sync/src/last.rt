ghost use Rattle.std.specs.Prelude.{◌≡◌, ◌<◌, ◌^◌, ◌+◌, nat_le};

/// What is kept of the last message of a source (Cyphal Specification, section 5.3.5).
#[derive(Clone, Copy)]
pub struct Last {
    /// Its moment in microseconds, below 2^62.
    pub moment: u64,
    /// Its transfer-ID, below 32.
    pub tid: u8,
    /// The offset in microseconds of the source's last pair, if there was one.
    pub offset: Option<i64>,
    pub ghost early: { moment < 2 ^ 62 },
    pub ghost cyclic: { tid < 32 },
}

impl Last {
    ghost use Rattle.time_sync.specs.Pairs.{offset_after};

    /// The offset in microseconds of the source's last pair once a message follows: with its moment
    /// in microseconds, its transfer-ID, 0 to 31, and `stamp`, the source's own moment of sending
    /// the message before it, in microseconds below 2^56. The two are a pair where the transfer-ID
    /// is the next one, at most 2 seconds lie between them, and the stamp isn't 0.
    pub fn offset_after(&self, moment: u64, tid: u8, stamp: u64) -> Option<i64>
        requires tid { tid < 32 }
        requires stamp { stamp < 2 ^ 56 }
        ensures { result
            ≡ offset_after self.now.moment self.now.tid moment tid stamp self.now.offset }
    {
        if tid == (self.tid + 1) % 32 && moment <= self.moment + 2_000_000 && stamp != 0 {
            Some(stamp as i64 - self.moment as i64)
        } else {
            self.offset
        }
    }

    /// Whether the message is at most 3 seconds before this moment in microseconds, or behind it.
    pub fn is_recent(&self, moment: u64) -> bool
        ensures { result ≡ nat_le moment (self.now.moment + 3000000) }
    {
        moment <= self.moment + 3_000_000
    }
}
