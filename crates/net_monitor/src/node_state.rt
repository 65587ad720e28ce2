ghost use Rattle.std.specs.Prelude.{◌≡◌, ◌+◌, ◌-◌, ◌^◌, min, nat_le};

use std_types::node::{Health, Heartbeat, Mode};

/// How a node is: its last heartbeat, and how often it restarted (Cyphal Specification,
/// section 5.3.2).
#[derive(Clone, Copy)]
pub struct NodeState {
    /// Its node-ID, at most 127.
    pub node: u8,
    /// Its last heartbeat.
    pub beat: Heartbeat,
    /// The moment of its last heartbeat, in microseconds.
    pub last: u64,
    /// How many of its heartbeats have an uptime below that of its heartbeat before; where that
    /// is 2^64 or more, 2^64 - 1.
    pub restarts: u64,
}

impl Default for NodeState {
    fn default() -> NodeState {
        NodeState {
            node: 0,
            beat: Heartbeat {
                uptime: 0,
                health: Health { value: 0 },
                mode: Mode { value: 0 },
                vendor_specific_status_code: 0,
            },
            last: 0,
            restarts: 0,
        }
    }
}

impl NodeState {
    ghost use Rattle.net_monitor.specs.Kept.{restarts_after};

    /// The number of restarts once a heartbeat with this uptime in seconds follows.
    pub fn restarts_after(&self, uptime: u32) -> u64
        ensures { result ≡ restarts_after self.now uptime }
    {
        if uptime < self.beat.uptime {
            self.restarts.saturating_add(1)
        } else {
            self.restarts
        }
    }

    /// Whether the last heartbeat is at most 3 seconds before this moment in microseconds, or
    /// behind it.
    pub fn is_online(&self, moment: u64) -> bool
        ensures { result ≡ nat_le moment (self.now.last + 3000000) }
    {
        moment <= self.online_until()
    }

    /// The last moment in microseconds at which the node is online by its last heartbeat.
    pub fn online_until(&self) -> u64
        ensures { result ≡ min (self.now.last + 3000000) (2 ^ 64 - 1) }
    {
        self.last.saturating_add(3_000_000)
    }
}
