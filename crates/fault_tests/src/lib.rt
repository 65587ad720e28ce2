//! Tests over an outside in memory that fails at a call, changes between two, or gives and takes few
//! bytes at a time, and of limits that no files of a row reach. Each is proved too, so they stand in a
//! crate of their own.
#![tactic(auto)]

#[cfg(test)]
mod cause_tests;
#[cfg(test)]
mod failing_calls;
#[cfg(test)]
mod file_requests;
#[cfg(test)]
mod file_service_tests;
#[cfg(test)]
mod folders;
#[cfg(test)]
mod line_loop_tests;
#[cfg(test)]
mod most_fields;
#[cfg(test)]
mod narrow;
#[cfg(test)]
mod runs;
