ghost use Rattle.std.specs.Prelude.{◌≡◌, ◌<◌, ◌^◌, ◌∷◌, [], List, length, is_some};
ghost use Rattle.tail_frame.specs.Frames.{frame_of};
ghost use Rattle.tail_frame.specs.declared.logged.Record.{Record};
ghost use Rattle.bus_survey.specs.Buses.{kept_records, time_from};

use tail_frame::Record;

/// What is counted of the records of one bus.
///
/// It stands for a list of records: those that `add` was called with.
#[derive(Clone, Copy)]
pub struct BusCounts {
    /// How many there are.
    pub records: u64,
    /// How many of them are no frame.
    pub discarded: u64,
    /// The moment of the first, in microseconds, if there is one.
    pub first: Option<u64>,
    /// The moment of the last, in microseconds, if there is one.
    pub last: Option<u64>,
    /// The longest time, in microseconds, between two that follow each other; 0 where there are fewer
    /// than two.
    pub silence: u64,
}

impl BusCounts {
    /// No record yet.
    pub fn new() -> BusCounts
        ensures { result ≡ kept_records [] }
    {
        BusCounts {
            records: 0,
            discarded: 0,
            first: None,
            last: None,
            silence: 0,
        }
    }

    /// One record more, which is a frame or is discarded.
    pub fn add(&mut self, rec: &Record, is_frame: bool)
        requires { is_frame ≡ is_some (frame_of rec.now) }
        ensures { (past : List Record) → length past < 2 ^ 28 → self.old ≡ kept_records past
            → self.new ≡ kept_records (rec.now ∷ past) }
    {
        let moment = rec.moment;
        self.records = self.records.saturating_add(1);
        self.discarded = self.discarded.saturating_add(u64::from(!is_frame));
        self.first = Some(self.first.unwrap_or(moment));
        self.silence = self.silence.max(time_from(self.last, moment));
        self.last = Some(moment);
    }
}

/// The time from a moment to another, in microseconds; 0 where there is no first one.
fn time_from(before: Option<u64>, moment: u64) -> u64
    ensures { result ≡ time_from before moment }
{
    match before {
        Some(before) => moment.saturating_sub(before),
        None => 0,
    }
}
