//! The names of types and of their files (Cyphal Specification, section 3.1).
#![tactic(auto)]

ghost use Rattle.std.specs.Prelude.{◌≡◌};

mod beside;
mod full_name;
mod laws;
mod number;
mod parse;
mod parts;
mod word;

use cy_bits::{NoMemory, TryCopy};
pub use full_name::FullName;
pub use laws::order_of_types;
pub use parse::{parse_file_name, parse_type_id};
use std::alloc::Global;
pub use word::is_reserved;

/// A type (Cyphal Specification, section 3.1): its full name and its version.
///
/// Types are ordered by the bytes of their dotted names, and then by version.
#[derive(PartialEq, Eq, PartialOrd, Ord, Drop)]
pub struct TypeId {
    /// The full name.
    pub name: FullName,
    /// The major number of the version, 0 to 255.
    pub major: u8,
    /// The minor number of the version, 0 to 255.
    pub minor: u8,
}

impl TryCopy for TypeId {
    fn copy(&self, alloc: Global) -> Result<TypeId, NoMemory> {
        Ok(TypeId {
            name: self.name.copy(alloc)?,
            major: self.major,
            minor: self.minor,
        })
    }
}

/// What the path of a file says (Cyphal Specification, section 3.1).
#[derive(Drop)]
pub struct FileName {
    /// The type that the file defines.
    pub id: TypeId,
    /// Its port, from 0 to 8191, where the file's name begins with one.
    pub port: Option<u16>,
}

/// Why a text is no name, the first of these that holds (Cyphal Specification, sections 3.1 and
/// 3.2).
#[derive(Clone, Copy, Debug, PartialEq, Eq, Drop)]
pub enum NameError {
    /// There is no folder or namespace, the number of points is wrong, the name of a file doesn't
    /// end in `.dsdl`, or a name isn't a letter or `_` and then letters, digits and `_`.
    BadName,
    /// A name is kept for the language.
    Reserved,
    /// A part of the version isn't a decimal number from 0 to 255 without leading zeros, or the version is 0.0.
    BadVersion,
    /// The port isn't a decimal number from 0 to 8191 without leading zeros.
    BadPort,
    /// The dotted name has more than 255 bytes.
    TooLong,
    /// Want of memory.
    NoMemory,
}

impl From<NoMemory> for NameError {
    ghost use Rattle.dsdl_names.specs.declared.NameError.TheVariants as error;

    ghost from_gives = { λ _ e. e ≡ error.NoMemory };

    fn from(_: NoMemory) -> NameError {
        NameError::NoMemory
    }
}
