ghost use Rattle.std.specs.Prelude.{◌≡◌, IfOk};

use cy_bits::{Boxed, List, NoMemory, TryCopy};
use std::alloc::Global;

/// A value of a schema (Cyphal Specification, section 3.4).
#[derive(Drop)]
#[cycle(value)]
pub enum Value {
    /// A truth value.
    Bool(bool),
    /// A value of an integer type, from -2^63 to 2^64 - 1.
    Num(i128),
    /// The raw bits of a value of a float type, as a number that its width holds.
    Bits(u64),
    /// The items of an array.
    Items(List<Value>),
    /// The values of a structure's fields that aren't padding, in order.
    Struct(List<Value>),
    /// A variant of a union.
    Union {
        /// The number of the variant, counted from 0.
        tag: u32,
        /// The variant's value.
        value: Boxed<Value>,
    },
}

impl TryCopy for Value {
    #[cycle(copy_value)]
    fn copy(&self, alloc: Global) -> Result<Value, NoMemory> {
        match self {
            Value::Bool(truth) => Ok(Value::Bool(*truth)),
            Value::Num(number) => Ok(Value::Num(*number)),
            Value::Bits(bits) => Ok(Value::Bits(*bits)),
            Value::Items(items) => Ok(Value::Items(copy_all(alloc, items)?)),
            Value::Struct(fields) => Ok(Value::Struct(copy_all(alloc, fields)?)),
            Value::Union { tag, value } => {
                let value = value.get().copy(alloc)?;
                Ok(Value::Union {
                    tag: *tag,
                    value: Boxed::new(alloc, value)?,
                })
            }
        }
    }
}

/// Equal values.
#[cycle(copy_value)]
fn copy_all(alloc: Global, values: &List<Value>) -> Result<List<Value>, NoMemory>
    ensures { IfOk result (λ r. r ≡ values.now) }
{
    let mut copies = Vec::new(alloc);
    for value in values.as_slice() {
        copies.push(value.copy(alloc)?)?;
    }
    Ok(List::new(copies))
}
