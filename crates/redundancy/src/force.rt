ghost use Rattle.std.specs.Prelude.{◌≡◌, ℕ, ◌≤◌, ◌+◌, nat_lt, List, [], ◌∷◌, None, Some};
ghost use Rattle.tail_frame.specs.Chains.{KeyRecord};
ghost use Rattle.redundancy.specs.Hear.{hear, lateness_of, force_then, answer_at, ForceStands, IsFrameOf};

use crate::laws::hearing;

/// The bus in force for a session, and when a frame of the session was last heard on it (Cyphal
/// Specification, section 4.1).
///
/// It stands for a list of records of one key: those of every frame that `hear` was called with.
#[derive(Clone, Copy, Debug, PartialEq, Eq)]
pub struct Force {
    /// The number of the bus in force, if a start frame was heard.
    pub bus: Option<u8>,
    /// The moment in microseconds of the last frame heard, or 0.
    pub heard: u64,
}

/// Whether a frame is heard (Cyphal Specification, section 4.1).
#[derive(Clone, Copy, Debug, PartialEq, Eq)]
pub enum Heard {
    /// The frame is on a bus that isn't in force and that it doesn't take over.
    Elsewhere,
    /// The frame is on the bus in force, which it may just have taken over.
    Here {
        /// Whether nothing was heard for longer than the timeout before it.
        late: bool,
    },
}

impl Force {
    /// No bus in force, which stands for no record.
    pub fn new() -> Force
        ensures bus { result.bus ≡ None }
        ensures heard { result.heard ≡ 0 }
        ensures stands { (timeout : ℕ) → ForceStands timeout [] result }
    {
        Force {
            bus: None,
            heard: 0,
        }
    }

    /// Hears a frame of the session (Cyphal Specification, section 4.1), at a moment in
    /// microseconds not before the last one heard; `timeout` is in microseconds too.
    ///
    /// The first start frame's bus is in force. A start frame on another bus takes over where
    /// nothing was heard for more than the timeout. A frame on the bus in force is heard, and is
    /// late where the silence before it was longer than the timeout. A frame elsewhere changes
    /// nothing.
    #[inline(always)]
    pub fn hear(&mut self, bus: u8, moment: u64, start: bool, timeout: u64) -> Heard
        requires { self.old.heard ≤ moment }
        ensures answer { lateness_of result
            ≡ hear timeout self.old.bus self.old.heard bus moment start }
        ensures state { self.new ≡ force_then self.old bus moment (lateness_of result) }
        ensures stands { (past : List KeyRecord) (r : KeyRecord) → IsFrameOf bus moment start r
            → ForceStands timeout past self.old → ForceStands timeout (r ∷ past) self.new }
        ensures told { (past : List KeyRecord) (r : KeyRecord) → IsFrameOf bus moment start r
            → ForceStands timeout past self.old
            → lateness_of result ≡ answer_at timeout r past }
    {
        hearing();
        self.step(bus, moment, start, timeout)
    }

    /// The step of `hear`.
    #[inline(always)]
    fn step(&mut self, bus: u8, moment: u64, start: bool, timeout: u64) -> Heard
        requires { self.old.heard ≤ moment }
        ensures answer { lateness_of result
            ≡ hear timeout self.old.bus self.old.heard bus moment start }
        ensures state { self.new ≡ force_then self.old bus moment (lateness_of result) }
    {
        let silent = moment - self.heard > timeout;
        let heard = self.answer(bus, start, silent);
        if let Heard::Here { .. } = heard {
            self.keep(bus, moment);
        }
        heard
    }

    /// What `hear` answers a frame, without hearing it; `silent` says whether the silence before it
    /// was longer than the timeout.
    #[inline(always)]
    pub fn answer(&self, bus: u8, start: bool, silent: bool) -> Heard
        ensures { (timeout moment : ℕ) → silent ≡ nat_lt (self.now.heard + timeout) moment
            → lateness_of result ≡ hear timeout self.now.bus self.now.heard bus moment start }
    {
        match self.bus {
            None => {
                if start {
                    Heard::Here { late: false }
                } else {
                    Heard::Elsewhere
                }
            }
            Some(in_force) => {
                if in_force == bus {
                    Heard::Here { late: silent }
                } else if start && silent {
                    Heard::Here { late: true }
                } else {
                    Heard::Elsewhere
                }
            }
        }
    }

    /// Whether nothing was heard for longer than the timeout before a moment.
    #[inline(always)]
    pub fn is_silent(&self, moment: u64, timeout: u64) -> bool
        ensures { result ≡ nat_lt (self.now.heard + timeout) moment }
    {
        moment.saturating_sub(self.heard) > timeout
    }

    /// Keeps that a frame was heard on a bus, which is in force with it.
    #[inline(always)]
    pub fn keep(&mut self, bus: u8, moment: u64)
        ensures { self.new ≡ record { bus = Some bus; heard = moment } }
    {
        self.bus = Some(bus);
        self.heard = moment;
    }
}
