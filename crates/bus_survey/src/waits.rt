ghost use Rattle.std.specs.Prelude.{◌≡◌, ◌∷◌, [], ℕ, List};
ghost use Rattle.bus_survey.specs.Starts.{kept_waits};

/// The times between moments that follow each other.
///
/// It stands for a list of moments: those that `add` was called with.
#[derive(Clone, Copy)]
pub struct Waits {
    /// The last moment, in microseconds, if there is one.
    pub last: Option<u64>,
    /// The least time, in microseconds, where there are two moments.
    pub least: Option<u64>,
    /// The greatest time, in microseconds, where there are two moments.
    pub greatest: Option<u64>,
}

impl Waits {
    /// No moment yet.
    pub fn new() -> Waits
        ensures { result ≡ kept_waits [] }
    {
        Waits {
            last: None,
            least: None,
            greatest: None,
        }
    }

    /// One moment more.
    pub fn add(&mut self, moment: u64)
        ensures { (past : List ℕ) → self.old ≡ kept_waits past
            → self.new ≡ kept_waits (moment ∷ past) }
    {
        if let Some(last) = self.last {
            let wait = moment.saturating_sub(last);
            self.least = Some(self.least.unwrap_or(wait).min(wait));
            self.greatest = Some(self.greatest.unwrap_or(wait).max(wait));
        }
        self.last = Some(moment);
    }
}
