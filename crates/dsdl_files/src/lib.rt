//! Which files of a folder are compiled: those below it whose path ends in `.dsdl`, with their
//! bytes, within stated limits.
#![tactic(auto)]

mod error;
mod file;
mod files;
mod folder;
mod found;
mod limits;
mod listing;
mod paths;
mod places;

pub use error::FolderError;
pub use file::DsdlFile;
pub use folder::{read_folder, read_within};
pub use limits::{LIMITS, Limits, MAX_ENTRIES, MAX_FILE, MAX_FILES};
