//! The 29-bit identifiers of Cyphal/CAN frames (Cyphal Specification, section 4.2): what each says
//! of its frame, and how it is made.
#![tactic(auto)]

pub mod ident;
pub mod key;
pub mod wire;

pub use ident::Ident;
pub use key::{Key, Kind};
pub use wire::{make, parse};
