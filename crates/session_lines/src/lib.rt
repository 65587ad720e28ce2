//! What a report says of one session: its lines are what the session's records deliver.
#![tactic(auto)]

pub mod laws;
