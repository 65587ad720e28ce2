//! The outside: where bytes come from, where they go, and the files under paths. Each trait counts
//! how often it failed, so that every fault that a caller answers has its cause.
#![tactic(auto)]

pub mod calls;
pub mod failed;
pub mod file;
mod members;
pub mod memory;
pub mod memory_tree;
pub mod never;
pub mod never_tree;
mod opened;
mod paths;
pub mod reading;
pub mod real;
pub mod real_tree;
mod retried;
pub mod sink;
pub mod source;
pub mod tree;
pub mod writing;

pub use calls::Calls;
pub use failed::Failed;
pub use file::File;
pub use memory::{MemSink, MemSource};
pub use memory_tree::MemTree;
pub use never::{NeverSink, NeverSource};
pub use never_tree::NeverTree;
pub use reading::read_file;
pub use real::{PIECE, RealSink, RealSource};
pub use real_tree::RealTree;
pub use sink::Sink;
pub use source::Source;
pub use tree::{Entry, Got, Listing, Size, Tree, TreeError};
pub use writing::put_all;
