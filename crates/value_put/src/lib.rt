//! The text of what bits read as, put at once: no value is made of it (Cyphal Specification, section 3.7). Where that
//! gives up, nothing is said, not even that the bits can't be read.
#![tactic(auto)]

mod array;
pub mod bits;
mod byte_array;
mod marks;
mod name;
mod own;
pub mod parts;
mod primitive;
mod stop;
mod structure;
mod variant;
mod word;

pub use bits::Bits;
pub use marks::{ROOM, put_mark};
pub use own::{go_to_begin, put_own};
pub use primitive::{Primitive, Signed, Truth, Unsigned};
pub use stop::Stop;
