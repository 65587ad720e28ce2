//! The versions of the types of a namespace: each is compared with the one before it.
#![tactic(auto)]

pub mod laws;
mod pairs;
mod parts;
mod versions;
mod words;

pub use parts::parts_newer;
pub use versions::{Versions, push_verdict, versions_of};
pub use words::{compat_why_text, push_bytes, push_id, push_number};
