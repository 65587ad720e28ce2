ghost use Rattle.std.specs.Prelude.{◌≡◌, ◌<◌, ◌≤◌, ◌^◌, ◌∷◌, [], List, None, OnOk, OnErr, length, nat_eq};
ghost use Rattle.std.specs.Map.{lookup, values_of};
ghost use Rattle.tail_frame.specs.Frames.{FrameOf, seen};
ghost use Rattle.bus_survey.specs.Counts.{AreShort, kept_frames, table};
ghost use Rattle.bus_survey.specs.Flows.{flow_of};
ghost use Rattle.bus_survey.specs.Ranks.{IsTableOf, rank};

use crate::flow::{Flow, flow_of};
use crate::flow_counts::FlowCounts;
use crate::flow_rank::rank;
use cy_bits::NoMemory;
use indexmap::IndexMap;
use std::alloc::Global;
use tail_frame::Frame;

/// What is counted of each flow.
///
/// It stands for a list of frames: those that `hear` was called with. `hear` takes memory only for
/// a flow that is new.
#[derive(Drop)]
pub struct FlowTable {
    /// The flows by their ranks, each with what is counted of its frames. They stand in the order
    /// in which they came, until `sort` puts them in that of their lines.
    pub counts: IndexMap<u64, (Flow, FlowCounts)>,
}

impl FlowTable {
    /// No frame yet.
    pub fn new(alloc: Global) -> FlowTable
        ensures { IsTableOf [] result.counts.entries }
    {
        FlowTable {
            counts: IndexMap::new(alloc),
        }
    }

    /// One frame more.
    pub fn hear(&mut self, frame: &Frame<'_>) -> Result<(), NoMemory>
        requires { length frame.now.body.now ≤ 63 }
        ensures heard { OnOk result ((past : List FrameOf) → length past < 2 ^ 28 → AreShort past
            → IsTableOf past self.old.counts.entries
            → IsTableOf (seen frame.now ∷ past) self.new.counts.entries) }
        ensures memory { OnErr result
            (lookup (nat_eq (rank (flow_of (seen frame.now)))) self.old.counts.entries ≡ None) }
    {
        let flow = flow_of(frame);
        let rank = rank(flow);
        match self.counts.get_mut(&rank) {
            Some(known) => known.1.add(frame),
            None => {
                self.counts.insert(rank, (flow, first_counts(frame)))?;
            }
        }
        Ok(())
    }

    /// Puts the flows in the order of their lines. It takes memory for as long as it sorts.
    pub fn sort(&mut self) -> Result<(), NoMemory>
        ensures sorted { OnOk result ((past : List FrameOf) → IsTableOf past self.old.counts.entries
            → values_of self.new.counts.entries ≡ table past) }
        ensures stands { (past : List FrameOf) → IsTableOf past self.old.counts.entries
            → IsTableOf past self.new.counts.entries }
    {
        self.counts.sort_unstable_keys()?;
        Ok(())
    }
}

/// What is counted of one frame.
fn first_counts(frame: &Frame<'_>) -> FlowCounts
    requires { length frame.now.body.now ≤ 63 }
    ensures { result ≡ kept_frames (seen frame.now ∷ []) }
{
    let mut counts = FlowCounts::new();
    counts.add(frame);
    counts
}
