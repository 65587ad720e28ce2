//! The frames of Cyphal/CAN (Cyphal Specification, section 4.2): a record of a log with its
//! identifier and its tail byte taken apart.
#![tactic(auto)]

pub mod discard;
pub mod frame;
pub mod frame_data;
pub mod logged;
pub mod tail;

pub use discard::Discard;
pub use frame::{Frame, frame_of, read_frame};
pub use frame_data::FrameData;
pub use logged::Record;
pub use tail::Tail;
