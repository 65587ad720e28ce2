use crate::constant::Const;
use crate::constants::Constants;
use bit_length::LengthSet;
use cy_bits::{List, Text};
use dsdl_names::{FullName, TypeId};
use dsdl_types::Namespace;

/// What the names in an expression mean (Cyphal Specification, section 3.5).
#[derive(Drop)]
pub struct Scope {
    /// The constants that stand earlier in the section, in order.
    pub constants: Constants,
    /// The lengths in bits that the section so far can have, which `_offset_` means; nothing where
    /// it means nothing.
    pub offset: Option<LengthSet>,
    /// The types that references mean.
    pub namespace: Namespace,
    /// The full name of the type whose definition the expression stands in.
    pub own: FullName,
    /// An entry for each definition of the namespace, in its order; that of a service stands there
    /// too.
    pub members: List<TypeConsts>,
}

/// A constant with its name (Cyphal Specification, section 3.5).
#[derive(Drop)]
pub struct NamedConst {
    /// Its name.
    pub name: Text,
    /// What it is worth.
    pub value: Const,
}

/// The constants of a definition (Cyphal Specification, section 3.5); a service has an entry too.
#[derive(Drop)]
pub struct TypeConsts {
    /// The type.
    pub id: TypeId,
    /// Its constants, in order.
    pub constants: Constants,
}
