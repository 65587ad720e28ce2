//! Bits of bytes, small types over std's and `arrayvec`'s that contracts see as lists of their
//! items, and the copy that may want memory.
#![tactic(auto)]

pub mod bit_reader;
pub mod bit_writer;
pub mod boxed;
pub mod bus_name;
pub mod bytes;
pub mod copy;
pub mod decimal;
pub mod list;
pub mod memory;
pub mod short_list;
pub mod text;

pub use bit_reader::BitReader;
pub use bit_writer::{BitWriter, Full};
pub use boxed::Boxed;
pub use bus_name::BusName;
pub use bytes::{Bytes, put_at};
pub use copy::TryCopy;
pub use decimal::capped_decimal;
pub use list::List;
pub use memory::NoMemory;
pub use short_list::ShortList;
pub use text::Text;
