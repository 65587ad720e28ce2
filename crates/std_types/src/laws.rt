//! The laws of the standard types.
ghost use Rattle.std.specs.Prelude.{◌≡◌, IfOk, true};
ghost use Rattle.dsdl_types.specs.Rules.{IsSchema};
ghost use Rattle.dsdl_types.specs.Schemas.{is_composite};
ghost use Rattle.dsdl_types.specs.Stored.{IsStored};
ghost use Rattle.dsdl_types.specs.Views.{val};
ghost use Rattle.std_types.specs.Types.{schema_of};
ghost use Rattle.std_types.specs.declared.std_name.StdName.{StdName};

use crate::Standard;
use cy_bits::NoMemory;
use dsdl_types::Value;
use std::alloc::Global;

/// The schema of each standard type is that of a composite that keeps the rules of the language.
pub fn schemas_keep_rules()
    ensures rules { (name : StdName) → IsSchema (schema_of name) }
    ensures composite { (name : StdName) → is_composite (schema_of name) ≡ true }
{}

/// A struct whose fields are within their limits, through its value and back: the same struct.
pub fn through_value<S: Standard>(alloc: Global, given: &S) -> Result<S, NoMemory>
    requires { S.fits given.now }
    ensures { IfOk result (λ x. x ≡ given.now) }
{
    let value = given.to_value(alloc)?;
    let made = S::of_value(alloc, &value)?;
    Ok(made)
}

/// A value of the schema, through its struct and back: the same value.
pub fn through_type<S: Standard + Drop>(alloc: Global, given: &Value) -> Result<Value, NoMemory>
    requires { IsStored S.schema (val given.now) }
    ensures { IfOk result (λ v. v ≡ given.now) }
{
    let made = S::of_value(alloc, given)?;
    let value = made.to_value(alloc)?;
    Ok(value)
}
