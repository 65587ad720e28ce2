//! What a node says of itself: its heartbeat, and the reply of `uavcan.node.GetInfo.1.0` (Cyphal
//! Specification, sections 5.3.2 and 5.3.3).
#![tactic(auto)]

mod heartbeat;
mod info;

pub use heartbeat::{heartbeat_at, heartbeat_payload};
pub use info::{info_payload, info_reply};
