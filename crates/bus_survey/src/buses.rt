ghost use Rattle.std.specs.Prelude.{◌≡◌, ◌<◌, ◌^◌, ◌∷◌, [], List, length, is_some};
ghost use Rattle.tail_frame.specs.Frames.{frame_of};
ghost use Rattle.tail_frame.specs.declared.logged.Record.{Record};
ghost use Rattle.bus_survey.specs.Buses.{bus_counts};

use crate::bus_counts::BusCounts;
use tail_frame::Record;

/// What is counted of each bus.
///
/// It stands for a list of records: those that `add` was called with.
#[derive(Drop)]
pub struct Buses {
    /// By the place of a bus among those of the log, counted from 0.
    pub counts: [BusCounts; 3],
    ghost full: { length counts ≡ 3 },
}

impl Buses {
    /// No record yet.
    pub fn new() -> Buses
        ensures { result.counts ≡ bus_counts [] }
    {
        Buses {
            counts: [BusCounts::new(); 3],
        }
    }

    /// One record more, which is a frame or is discarded.
    pub fn add(&mut self, rec: &Record, is_frame: bool)
        requires { is_frame ≡ is_some (frame_of rec.now) }
        ensures { (past : List Record) → length past < 2 ^ 28 → self.old.counts ≡ bus_counts past
            → self.new.counts ≡ bus_counts (rec.now ∷ past) }
    {
        let bus = rec.bus as usize;
        if bus < 3 {
            let mut counts = self.counts[bus];
            counts.add(rec, is_frame);
            self.counts[bus] = counts;
        }
    }
}
