ghost use Rattle.std.specs.Prelude.{◌≡◌, ◌<◌, ◌≤◌, ◌^◌};
ghost use Rattle.dsdl_types.specs.Cast.{cast};
ghost use Rattle.dsdl_types.specs.Laws.{encoding};
ghost use Rattle.node_status.specs.Status.{heartbeat_bytes, heartbeat_in, heartbeat_payload};
ghost use Rattle.std_types.specs.Node.{FitsHeartbeat, heartbeat_value};
ghost use Rattle.std_types.specs.Schemas.{heartbeat};

use std_types::node::{Health, Heartbeat, Mode};

/// The heartbeat that a node publishes so many seconds after its start (Cyphal Specification,
/// section 5.3.2): `health` of 0 to 3, `mode` of 0 to 3, the vendor's `code`, and the uptime
/// `tick` in seconds, below 2^32. Takes no memory.
pub fn heartbeat_at(health: u8, mode: u8, code: u8, tick: u64) -> Heartbeat
    requires health { health ≤ 3 }
    requires mode { mode ≤ 3 }
    requires tick { tick < 2 ^ 32 }
    ensures heartbeat { result ≡ heartbeat_in health mode code tick }
    ensures fits { FitsHeartbeat result }
    ensures exact { cast heartbeat (heartbeat_value result) ≡ heartbeat_value result }
    ensures bytes { encoding heartbeat (heartbeat_value result)
        ≡ heartbeat_bytes health mode code tick }
{
    Heartbeat {
        uptime: tick as u32,
        health: Health { value: health },
        mode: Mode { value: mode },
        vendor_specific_status_code: code,
    }
}

/// The payload of the heartbeat that a node publishes so many seconds after its start (Cyphal
/// Specification, section 5.3.2): `health` of 0 to 3, `mode` of 0 to 3, and the vendor's `code`.
/// The uptime that it says stays at 2^32 - 1 seconds.
pub fn heartbeat_payload(health: u8, mode: u8, code: u8, seconds: u64) -> [u8; 7]
    requires health { health ≤ 3 }
    requires mode { mode ≤ 3 }
    ensures { result ≡ heartbeat_payload health mode code seconds }
{
    let uptime = seconds.min(u32::MAX as u64) as u32;
    let seconds = uptime.to_le_bytes();
    [
        seconds[0], seconds[1], seconds[2], seconds[3], health, mode, code,
    ]
}
