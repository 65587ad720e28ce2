//! Lines of a log in the order of their moments: each is held until every line that may stand
//! before it was heard.
#![tactic(auto)]

pub mod form;
mod front;
pub mod laws;
mod line_queue;
pub mod orderer;
mod over_log;
pub mod place;
mod plain;
mod queued;
pub mod refusal;
pub mod window;

pub use orderer::Orderer;
pub use over_log::order_log;
pub use refusal::Refusal;
