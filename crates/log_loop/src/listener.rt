ghost use Rattle.std.specs.Prelude.{◌≡◌, ◌≤◌, ◌<◌, ◌+◌, ◌^◌, ◌++◌, ℕ, List, length, OnOk, OnErr};
ghost use Rattle.tail_frame.specs.declared.logged.Record.{Record};
ghost use Rattle.line_text.specs.Buffer.{text_of};
ghost use Rattle.log_loop.specs.Met.{Comes, HasBroken, HasHeard};
ghost use Rattle.log_loop.specs.Voice.{Voice};

use cy_bits::NoMemory;
use line_text::TextBuffer;
use tail_frame::Record;

/// What hears the records of a log, one after the other. It meets events: a record, and what came of it beside the log.
/// Lists of events have the newest first.
pub trait Listener {
    /// What it meets.
    ghost event: { Type 0 };

    /// What it says, by what it was at first.
    ghost voice: { Self → Voice event };

    /// What it was at first, what it is, and the events that it heard in between.
    ghost heard: { Self → Self → List event → Type 0 };

    /// The same where it has said its last words behind these events.
    ghost ended: { Self → Self → List event → Type 0 };

    /// The same where it broke off on the newest of these events.
    ghost broke: { Self → Self → List event → Type 0 };

    /// The same where it broke off in its last words behind these events.
    ghost cut_short: { Self → Self → List event → Type 0 };

    /// The moment behind which it hears.
    ghost latest: { Self → ℕ };

    /// How many records it has heard, at least.
    ghost count: { Self → ℕ };

    /// Hears a record, and gathers what it says on it.
    fn hear(&mut self, rec: &Record, gathered: &mut TextBuffer) -> Result<(), NoMemory>
        requires moment { latest self.old ≤ rec.now.moment }
        requires moment_low { rec.now.moment < 10 ^ 18 }
        requires count { count self.old < 2 ^ 28 }
        requires few { length (text_of gathered.old) ≤ 65536 }
        ensures heard { OnOk result (HasHeard voice heard self.old self.new rec.now
            (text_of gathered.old) (text_of gathered.new)) }
        ensures broke { OnErr result (HasBroken voice heard broke self.old self.new rec.now) }
        ensures latest { latest self.new ≤ rec.now.moment }
        ensures count { count self.new ≤ count self.old + 1 };

    /// Gathers what it says at the end.
    fn finish(&mut self, gathered: &mut TextBuffer) -> Result<(), NoMemory>
        ensures ended { OnOk result ((first : Self) (past : List event)
            → heard first self.old past → ended first self.new past) }
        ensures cut_short { OnErr result ((first : Self) (past : List event)
            → heard first self.old past → cut_short first self.new past) }
        ensures text { OnOk result ((first : Self) (past : List event) → heard first self.old past
            → text_of gathered.new ≡ text_of gathered.old ++ (voice first).last past) };

    /// Whoever heard all may break off there.
    ghost heard_broke: { (first now : Self) (past : List event) → heard first now past
        → broke first now past };

    /// Each record may come behind any events.
    ghost comes: { (first : Self) (rec : Record) (past : List event)
        → Comes (voice first) rec past };
}
