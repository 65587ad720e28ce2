//! Who is online (Cyphal Specification, section 5.3.2): the heartbeats of a network's nodes, what
//! they give of each node, and what changes by them.
#![tactic(auto)]

pub mod gone;
pub mod laws;
pub mod monitor;
pub mod node_state;
pub mod renewal;

pub use gone::Gone;
pub use laws::monitor_laws;
pub use monitor::Monitor;
pub use node_state::NodeState;
pub use renewal::Renewal;
