ghost use Rattle.std.specs.Prelude.{◌≡◌, ◌<◌, ◌≤◌, ◌^◌, ◌∷◌, [], List, length};
ghost use Rattle.tail_frame.specs.Frames.{FrameOf, seen};
ghost use Rattle.bus_survey.specs.Counts.{kept_frames, AreShort};

use crate::starts::{Start, Starts};
use tail_frame::Frame;

/// What is counted of the frames of one flow.
///
/// It stands for a list of frames: those that `add` was called with.
#[derive(Clone, Copy)]
pub struct FlowCounts {
    /// How many there are.
    pub frames: u64,
    /// How many data bytes they have together, with their tails.
    pub bytes: u64,
    /// What is counted of the starts among them.
    pub starts: Starts,
}

impl FlowCounts {
    /// No frame yet.
    pub fn new() -> FlowCounts
        ensures { result ≡ kept_frames [] }
    {
        FlowCounts {
            frames: 0,
            bytes: 0,
            starts: Starts::new(),
        }
    }

    /// One frame more.
    pub fn add(&mut self, frame: &Frame<'_>)
        requires { length frame.now.body.now ≤ 63 }
        ensures { (past : List FrameOf) → length past < 2 ^ 28 → AreShort past
            → self.old ≡ kept_frames past → self.new ≡ kept_frames (seen frame.now ∷ past) }
    {
        self.frames = self.frames.saturating_add(1);
        self.bytes = self.bytes.saturating_add(frame.body.len() as u64 + 1);
        if frame.tail.start {
            self.starts.add(Start {
                tid: frame.tail.tid,
                moment: frame.moment,
            });
        }
    }
}
