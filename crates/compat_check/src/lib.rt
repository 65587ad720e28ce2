//! Whether a new version of a data type can live beside an old one (Cyphal Specification,
//! section 3.8).
#![tactic(auto)]

mod compare;
mod difference;
mod equal;
mod path;
mod primitive;
mod services;
mod verdict;

pub use equal::same_but_names;
pub use services::{other_kind, services_newer};
pub use verdict::{CompatWhy, Verdict, newer};
