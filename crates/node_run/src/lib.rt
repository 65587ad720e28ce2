//! Three parts: `log`, what a plan's node does over a log, `types`, what is written of a folder's
//! types, and `values`, what is written of values of a type.
#![tactic(auto)]

pub mod form;
pub mod log;
pub mod report;
pub mod status;
pub mod types;
pub mod values;

pub use form::Form;
pub use frame_log::LogWhy;
pub use log::bound_text::bound;
pub use log::generated::run_gen;
pub use log::run::{run_in, run_log, run_over, status_of};
pub use report::Report;
pub use status::Status;
pub use types::compared::compat;
pub use types::layouts::compile;
pub use types::namespace::load;
pub use values::decoded::decode;
pub use values::encoded::encode;
