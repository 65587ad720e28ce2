//! The plan of a node: which node it is, its buses, the subjects it subscribes to with their types,
//! and what it says of itself.
#![tactic(auto)]

mod bus;
pub mod buses;
mod draft;
mod info;
pub mod laws;
mod limit;
mod line;
mod memory;
mod migration;
mod numbers;
pub mod plan;
mod read;
mod registers;
mod serve;
pub mod services;
mod sub;
mod types;
mod words;

pub use limit::MAX_TEXT;
pub use memory::bound;
pub use migration::migrate;
pub use plan::{BusPlan, NodeStatus, Plan, PlanError, PlanWhy, Sub, SubShape};
pub use read::read_plan;
pub use services::Service;
