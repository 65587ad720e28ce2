//! Node-IDs for nodes without one (Cyphal Specification, section 5.3.12): who gets which number,
//! and who keeps it.
#![tactic(auto)]

pub mod allocator;
pub mod event;
pub mod laws;

pub use allocator::Allocator;
pub use event::{AllocEvent, AllocOut, Owner};
pub use laws::alloc_laws;
