//! The node: what one record or one tick gives, line by line, and what it sends. The lines are
//! those of `report_lines`.
#![tactic(auto)]

mod answers;
mod bus_queue;
mod bus_queues;
pub mod came;
mod fed;
pub mod file_reply;
mod heard;
pub mod laws;
pub mod node;
pub mod port_shape;
mod ports;
mod pushes;
mod question;
mod quick;
mod raw_shape;
mod request;
mod sending;
mod serving;
mod transfer;

pub use bus_queue::BusQueue;
pub use bus_queues::BusQueues;
pub use came::Came;
pub use file_reply::FileReply;
pub use node::{Node, Stepped};
pub use port_shape::PortShape;
pub use question::Question;
pub use quick::{Lead, Quick};
pub use raw_shape::RawShape;
pub use report_lines::{
    CompiledShape, FullLine, KeptLines, Line, LineRef, LineSink, NoLines, Numbers, Reading,
    Refused, Rx, RxRef, Tx, TxRef,
};
pub use request::Request;
