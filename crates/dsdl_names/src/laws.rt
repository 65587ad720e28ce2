//! Laws of types.
ghost use Rattle.std.specs.Prelude.{◌≡◌};
ghost use Rattle.dsdl_names.specs.declared.TypeId.{TypeId};
ghost use Rattle.dsdl_names.specs.Types.{type_order};

use crate::TypeId;

/// Types are ordered by the bytes of their dotted names, and then by version.
pub fn order_of_types()
    ensures { (a b : TypeId) → ⟦<TypeId as Ord>⟧.cmp a b ≡ type_order a b }
{}
