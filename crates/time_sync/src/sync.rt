ghost use Rattle.std.specs.Prelude.{◌≡◌, ◌≤◌, ◌<◌, ◌^◌, ◌∷◌, [], length, ℕ, List, None, IfSome, slice_index_or};

use crate::last::Last;

/// The messages of each source, as far as they tell the time (Cyphal Specification, section 5.3.5).
///
/// It stands for a list of messages: those that `hear` was called with.
#[derive(Drop)]
pub struct Sync {
    /// By source, what is kept of its last message.
    sources: [Option<Last>; 128],
    /// The moment of the last message, or 0.
    latest: u64,
    ghost full: { length sources ≡ 128 },
}

/// The network's time (Cyphal Specification, section 5.3.5).
#[derive(Clone, Copy, Debug, PartialEq, Eq)]
pub struct Estimate {
    /// The source that tells it, 0 to 127.
    pub source: u8,
    /// The network's time less the own moment, in microseconds.
    pub offset: i64,
}

impl Sync {
    ghost use Rattle.time_sync.specs.Pairs.{Message};
    ghost use Rattle.time_sync.specs.Times.{estimate, least, is_kept_recent, estimate_of, offset_in};
    ghost use Rattle.time_sync.specs.Stands.{Stands};

    /// No message yet.
    pub fn new() -> Sync
        ensures stands { Stands [] result }
        ensures latest { result.latest ≡ 0 }
    {
        Sync {
            sources: [None; 128],
            latest: 0,
        }
    }

    /// Hears a message of a source, 0 to 127, at a moment in microseconds below 2^62 and not before
    /// the last one: its transfer-ID, 0 to 31, and the source's own moment of sending the message
    /// before it in microseconds below 2^56, or 0.
    pub fn hear(&mut self, moment: u64, source: u8, tid: u8, stamp: u64)
        requires order { self.old.latest ≤ moment }
        requires moment { moment < 2 ^ 62 }
        requires source { source ≤ 127 }
        requires tid { tid < 32 }
        requires stamp { stamp < 2 ^ 56 }
        ensures stands { (past : List Message) → Stands past self.old
            → Stands (record {
              moment = moment;
              source = source;
              tid = tid;
              stamp = stamp;
            } ∷ past) self.new }
        ensures latest { self.new.latest ≡ moment }
    {
        let offset = match self.last_of(source) {
            Some(last) => last.offset_after(moment, tid, stamp),
            None => None,
        };
        self.sources[source as usize] = Some(Last {
            moment,
            tid,
            offset,
        });
        self.latest = moment;
    }

    /// The network's time at a moment in microseconds, told by the least source with a message at
    /// most 3 seconds before it, or behind it. `None` where there is no such source, or where no
    /// two messages of it told an offset.
    pub fn estimate(&self, moment: u64) -> Option<Estimate>
        ensures { (past : List Message) → Stands past self.now → result ≡ estimate moment past }
    {
        match self.master(moment) {
            Some(source) => self.estimate_of(source),
            None => None,
        }
    }

    /// The least source with a message at most 3 seconds before this moment, or behind it.
    fn master(&self, moment: u64) -> Option<u8>
        ensures least { result ≡ least (is_kept_recent moment self.now.sources) 128 }
        ensures below { IfSome result (λ s. s < 128) }
    {
        for source in 0..128u8 {
            if self.is_recent(source, moment) {
                return Some(source);
            }
        }
        None
    }

    /// Whether a source's last message is at most 3 seconds before this moment, or behind it.
    fn is_recent(&self, source: u8, moment: u64) -> bool
        requires { source < 128 }
        ensures { result ≡ is_kept_recent moment self.now.sources source }
    {
        match self.last_of(source) {
            Some(last) => last.is_recent(moment),
            None => false,
        }
    }

    /// The estimate with a source as the master.
    fn estimate_of(&self, source: u8) -> Option<Estimate>
        requires { source < 128 }
        ensures { result
            ≡ estimate_of source (offset_in (slice_index_or self.now.sources source None)) }
    {
        let last = self.last_of(source)?;
        let offset = last.offset?;
        Some(Estimate { source, offset })
    }

    /// What is kept of the last message of a source.
    fn last_of(&self, source: u8) -> Option<Last>
        requires { source < 128 }
        ensures { result ≡ slice_index_or self.now.sources source None }
    {
        self.sources[source as usize]
    }
}
