//! A client that fetches a file from a file server (Cyphal Specification, section 5.3.7), piece by
//! piece, whatever of its replies is lost, repeated or late.
#![tactic(auto)]

pub mod event;
pub mod fetch;
pub mod laws;

pub use event::{FetchEvent, FetchOut};
pub use fetch::Fetch;
pub use laws::fetch_laws;
