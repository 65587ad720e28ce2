//! The commands of the program in one table, and what it says of them: the overview, and the help
//! of each.
#![tactic(auto)]

pub mod command;
pub mod groups;
pub mod help;
pub mod laws;
pub mod log_help;
pub mod lookup;
pub mod node_help;
pub mod overview_text;
pub mod plan_help;
pub mod table;
pub mod types_help;
pub mod values_help;

pub use command::Command;
pub use help::Help;
pub use laws::table_laws;
pub use lookup::{find, help_of};
pub use overview_text::overview;
pub use table::COMMANDS;
