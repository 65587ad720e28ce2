//! Fractions in lowest terms over i128.
//!
//! Each operation has a rule that names the numbers on its way. Its answer is exact where they all
//! lie within i128, and Range where one leaves it. A greatest common divisor is kept unsigned and is
//! no named number.
#![tactic(auto)]

pub mod laws;
mod named;
mod order;
mod ratio;

pub use ratio::Ratio;

/// Why an operation has no fraction to answer.
#[derive(Clone, Copy, Debug, PartialEq, Eq)]
pub enum RatioError {
    /// A number that the operation's rule names leaves i128.
    Range,
    /// A divisor, or a base under a negative exponent, is 0.
    Zero,
}
