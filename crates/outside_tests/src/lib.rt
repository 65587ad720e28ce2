//! Tests of the real edge, of values that come from outside, and of calls that the program never makes:
//! one happy path each. Each is proved too, so they stand in a crate of their own.
#![tactic(auto)]

#[cfg(test)]
mod crc_tests;
#[cfg(test)]
mod file_client_tests;
#[cfg(test)]
mod frame_steps;
#[cfg(test)]
mod generator_tests;
#[cfg(test)]
mod node_status_tests;
#[cfg(test)]
mod outside_tests;
#[cfg(test)]
mod register_service_tests;
#[cfg(test)]
mod samples;
#[cfg(test)]
mod session_tests;
#[cfg(test)]
mod shapes;
#[cfg(test)]
mod standard_tests;
#[cfg(test)]
mod table_tests;
#[cfg(test)]
mod tx_line_tests;
#[cfg(test)]
mod writes;
