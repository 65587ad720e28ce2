ghost use Rattle.std.specs.Prelude.{◌≡◌, ◌<◌, ◌∷◌, [], List, length, IfSome};
ghost use Rattle.tail_frame.specs.Frames.{FrameOf, seen};
ghost use Rattle.can_id.specs.Identifiers.{IsIdent};
ghost use Rattle.bus_survey.specs.Sources.{AreSources, nodes};

use tail_frame::Frame;

/// The nodes that sent frames.
///
/// It stands for a list of frames: those that `add` was called with.
#[derive(Drop)]
pub struct Sources {
    /// By node-ID, whether it sent one of them.
    pub heard: [bool; 128],
    ghost full: { length heard ≡ 128 },
}

impl Sources {
    /// No frame yet.
    pub fn new() -> Sources
        ensures { AreSources [] result.heard }
    {
        Sources {
            heard: [false; 128],
        }
    }

    /// One frame more.
    pub fn add(&mut self, frame: &Frame<'_>)
        requires { IsIdent frame.now.ident }
        ensures { (past : List FrameOf) → AreSources past self.old.heard
            → AreSources (seen frame.now ∷ past) self.new.heard }
    {
        if let Some(node) = frame.ident.key().source {
            self.heard[node as usize] = true;
        }
    }

    /// How many nodes sent frames.
    pub fn count(&self) -> u64
        ensures { (past : List FrameOf) → AreSources past self.now.heard → result ≡ nodes past }
    {
        let mut count = 0;
        for node in 0..128usize {
            if self.heard[node] {
                count += 1;
            }
        }
        count
    }
}
