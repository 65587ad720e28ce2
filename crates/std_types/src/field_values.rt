//! The values of a structure's fields.
ghost use Rattle.std.specs.Prelude.{◌≡◌, IfOk};
ghost use Rattle.dsdl_types.specs.Values.{Empty, More, Parts, join};
ghost use Rattle.dsdl_types.specs.Views.{val, vals};

use cy_bits::{List, NoMemory};
use dsdl_types::Value;
use std::alloc::Global;

/// The values of a structure's fields, in order.
#[derive(Drop)]
pub struct FieldValues {
    values: List<Value>,
}

impl FieldValues {
    /// No values.
    pub fn new(alloc: Global) -> FieldValues
        ensures { vals result.values ≡ Empty }
    {
        FieldValues {
            values: List::empty(alloc),
        }
    }

    /// One more value, behind the others.
    #[tactic(auto, using(crate::proofs::Rows::vals_push))]
    pub fn with(mut self, value: Value) -> Result<FieldValues, NoMemory>
        ensures { IfOk result (λ all. vals all.values
            ≡ join (vals self.values) (More (val value) Empty)) }
    {
        self.values.push(value)?;
        Ok(self)
    }

    /// The value of the structure.
    pub fn structure(self) -> Value
        ensures { val result ≡ Parts (vals self.values) }
    {
        Value::Struct(self.values)
    }
}
