//! What the numbers of a register's value are kept within.
ghost use Rattle.std.specs.Prelude.{◌≡◌};
ghost use Rattle.std.specs.List.{list_all};
ghost use Rattle.std_types.specs.Limits.{is_whole, lies, lie_within};

use crate::register_value::RegisterValue;
use crate::registers::Limits;
use crate::whole::Whole;

/// Whether a number lies from the least to the greatest.
fn lies(limits: Limits, number: i128) -> bool
    ensures { result ≡ lies limits number }
{
    limits.low <= number && number <= limits.high
}

/// Whether each of these numbers does.
fn all_lie<T: Whole>(limits: Limits, numbers: &[T]) -> bool
    ensures { result ≡ list_all (λ n. lies limits (T.number n)) numbers.now }
{
    numbers.iter().all(|n| lies(limits, n.widened()))
}

/// Whether each item of an integer or natural variant lies within the limits; the items of other
/// variants always do.
pub fn lie_within(limits: Limits, value: &RegisterValue) -> bool
    ensures { result ≡ lie_within limits value.now }
{
    match value {
        RegisterValue::Integer64(items) => all_lie(limits, items.as_slice()),
        RegisterValue::Integer32(items) => all_lie(limits, items.as_slice()),
        RegisterValue::Integer16(items) => all_lie(limits, items.as_slice()),
        RegisterValue::Integer8(items) => all_lie(limits, items.as_slice()),
        RegisterValue::Natural64(items) => all_lie(limits, items.as_slice()),
        RegisterValue::Natural32(items) => all_lie(limits, items.as_slice()),
        RegisterValue::Natural16(items) => all_lie(limits, items.as_slice()),
        RegisterValue::Natural8(items) => all_lie(limits, items.as_slice()),
        _ => true,
    }
}

/// Whether a value is of an integer or natural variant, whose items are whole numbers.
pub fn is_whole(value: &RegisterValue) -> bool
    ensures { result ≡ is_whole value.now }
{
    matches!(
        value,
        RegisterValue::Integer64(_)
            | RegisterValue::Integer32(_)
            | RegisterValue::Integer16(_)
            | RegisterValue::Integer8(_)
            | RegisterValue::Natural64(_)
            | RegisterValue::Natural32(_)
            | RegisterValue::Natural16(_)
            | RegisterValue::Natural8(_)
    )
}
