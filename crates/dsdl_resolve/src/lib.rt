//! From the files of a folder to the namespace of the types that they define, or to the first
//! refusal.
#![tactic(auto)]

mod addition;
mod at;
mod attributes;
mod before;
mod clashes;
mod constant;
mod counts;
mod directive;
mod entry;
mod error;
mod file;
mod finding;
mod fits;
mod form;
mod in_order;
mod judge;
mod laws;
mod limits;
mod measure;
mod mention;
mod names;
mod namespace;
mod naming;
mod offsets;
mod open_section;
mod order;
mod outcome;
mod primitive;
mod printing;
mod progress;
mod room;
pub mod rules;
mod size;
mod soundness;
mod sources;
mod split;
mod standing;
mod totals;
mod typed;
mod values;
mod valuing;
mod whole;
mod why;
mod width;

pub use error::DsdlError;
pub use laws::one_answer;
pub use namespace::resolve;
pub use soundness::{definitions_keep_rules, namespaces_keep_rules};
pub use why::{DsdlWhy, ExprWhy};
