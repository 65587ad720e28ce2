ghost use Rattle.std.specs.Prelude.{◌≡◌};

use crate::node_state::NodeState;

/// What a heartbeat made of its node (Cyphal Specification, section 5.3.2).
#[derive(Clone, Copy)]
pub struct Renewal {
    /// How the node was before, if it was heard.
    pub before: Option<NodeState>,
    /// How it is.
    pub state: NodeState,
}

impl Renewal {
    ghost use Rattle.net_monitor.specs.Renewals.{uptime_before};

    /// Its uptime in seconds with the heartbeat before, where it restarted since: where that is
    /// greater than it is now.
    pub fn uptime_before(&self) -> Option<u32>
        ensures { result ≡ uptime_before self.now.before self.now.state.beat.uptime }
    {
        let before = self.before?;
        if self.state.beat.uptime < before.beat.uptime {
            Some(before.beat.uptime)
        } else {
            None
        }
    }
}
