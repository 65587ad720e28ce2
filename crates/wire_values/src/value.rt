//! What a value is made of.
ghost use Rattle.std.specs.Prelude.{◌≡◌, ℕ, ℤ, Bool};
ghost use Rattle.dsdl_types.specs.Values.{Num, Raw, Truth, inner_of, items_of, parts_of, tag_of};
ghost use Rattle.dsdl_types.specs.Views.{val, vals};

use dsdl_types::Value;

/// A truth value; false for another value.
pub fn truth(value: &Value) -> bool
    ensures { (b : Bool) → val value.now ≡ Truth b → result ≡ b }
{
    match value {
        Value::Bool(truth) => *truth,
        _ => false,
    }
}

/// A number; 0 for another value.
pub fn number(value: &Value) -> i128
    ensures { (z : ℤ) → val value.now ≡ Num z → result ≡ z }
{
    match value {
        Value::Num(number) => *number,
        _ => 0,
    }
}

/// The raw bits of a floating-point number; 0 for another value.
pub fn raw_bits(value: &Value) -> u64
    ensures { (n : ℕ) → val value.now ≡ Raw n → result ≡ n }
{
    match value {
        Value::Bits(bits) => *bits,
        _ => 0,
    }
}

/// The items of an array; of another value none.
pub fn items(value: &Value) -> &[Value]
    ensures { vals result.now ≡ items_of (val value.now) }
{
    match value {
        Value::Items(items) => items.as_slice(),
        _ => &[],
    }
}

/// The values of a structure's fields; of another value none.
pub fn fields(value: &Value) -> &[Value]
    ensures { vals result.now ≡ parts_of (val value.now) }
{
    match value {
        Value::Struct(fields) => fields.as_slice(),
        _ => &[],
    }
}

/// The tag of a union; of another value 0.
pub fn tag(value: &Value) -> u32
    ensures { result ≡ tag_of (val value.now) }
{
    match value {
        Value::Union { tag, .. } => *tag,
        _ => 0,
    }
}

/// The value of a union's variant; any other value itself.
pub fn inner(value: &Value) -> &Value
    ensures { val result.now ≡ inner_of (val value.now) }
{
    match value {
        Value::Union { value, .. } => value.get(),
        other => other,
    }
}
