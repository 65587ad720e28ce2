//! The files below a folder of a tree that may fail, as a node serves them: what is replied to a
//! read, a listing and a question of what stands at a path.
#![tactic(auto)]

pub mod codes;
pub mod done;
pub mod laws;
mod listed;
pub mod place;
pub mod served;

pub use done::{ListDone, ReadDone};
pub use laws::file_laws;
pub use served::Served;
