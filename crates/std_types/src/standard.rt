ghost use Rattle.std.specs.Prelude.{◌≡◌, IfOk};
ghost use Rattle.dsdl_types.specs.Schemas.{Sch};
ghost use Rattle.dsdl_types.specs.Stored.{IsStored};
ghost use Rattle.dsdl_types.specs.Values.{Val};
ghost use Rattle.dsdl_types.specs.Views.{val};

use cy_bits::NoMemory;
use dsdl_types::Value;
use std::alloc::Global;

/// A struct for a standard data type (Cyphal Specification, chapter 5).
pub trait Standard: Sized {
    ghost schema: { Sch };

    ghost fits: { Self → Type 0 };

    ghost value: { Self → Val };

    ghost made_of: { Val → Self };

    /// The value of the schema.
    fn to_value(&self, alloc: Global) -> Result<Value, NoMemory>
        ensures { IfOk result (λ v. val v ≡ value self.now) };

    /// The struct of a value. Of a value that isn't one of the schema it is some struct, in which
    /// numbers are kept within their ranges and a missing part is 0, false, or no items.
    fn of_value(alloc: Global, from: &Value) -> Result<Self, NoMemory>
        ensures { IfOk result (λ x. x ≡ made_of (val from.now)) };

    ghost back: { (x : Self) → fits x → IsStored schema (value x) × (made_of (value x) ≡ x) };

    ghost forth: { (v : Val) → IsStored schema v → fits (made_of v) × (value (made_of v) ≡ v) };
}
