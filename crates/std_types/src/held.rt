//! The values of what a struct's fields hold, and what they hold of values.
ghost use Rattle.std.specs.Prelude.{◌≡◌, IfOk};
ghost use Rattle.dsdl_types.specs.Values.{Num, Raw, Truth, Parts, Items, items_of};
ghost use Rattle.dsdl_types.specs.Views.{val, vals};
ghost use Rattle.std_types.specs.Held.{alone, list_of, naturals_of, naturals_value, number_of, part, raw_of, row_of, truth_of, truths_of, truths_value, unique_id_of};

use crate::float_bits::FloatBits;
use crate::whole::Whole;
use cy_bits::{Bytes, List, NoMemory, put_at};
use dsdl_types::Value;
use std::alloc::Global;

/// A number's value.
pub fn number_value<T: Whole>(number: T) -> Value
    ensures { val result ≡ Num (T.number number) }
{
    Value::Num(number.widened())
}

/// A value's number, or the nearest to it that the type holds; 0 of a value of another kind.
pub fn number<T: Whole>(value: &Value) -> T
    ensures { result ≡ T.nearest (number_of (val value.now)) }
{
    match value {
        Value::Num(number) => T::nearest_to(*number),
        _ => T::nearest_to(0),
    }
}

/// The value of a float's raw bits.
pub fn float_value<T: FloatBits>(bits: T) -> Value
    ensures { val result ≡ Raw (T.bits bits) }
{
    Value::Bits(bits.widened())
}

/// A value's raw bits, or the greatest that the type holds; 0 of a value of another kind.
pub fn float<T: FloatBits>(value: &Value) -> T
    ensures { result ≡ T.held (raw_of (val value.now)) }
{
    match value {
        Value::Bits(bits) => T::held_of(*bits),
        _ => T::held_of(0),
    }
}

/// A truth value's value.
pub fn truth_value(truth: bool) -> Value
    ensures { val result ≡ Truth truth }
{
    Value::Bool(truth)
}

/// A value's truth value; false of a value of another kind.
pub fn truth(value: &Value) -> bool
    ensures { result ≡ truth_of (val value.now) }
{
    match value {
        Value::Bool(truth) => *truth,
        _ => false,
    }
}

/// The value of a structure, by those of its fields.
pub fn structure(fields: Vec<Value>) -> Value
    ensures { val result ≡ Parts (vals fields.items) }
{
    Value::Struct(List::new(fields))
}

/// The value of a structure of one field.
pub fn alone(alloc: Global, field: Value) -> Result<Value, NoMemory>
    ensures { IfOk result (λ v. val v ≡ alone (val field)) }
{
    Ok(structure(vec![in alloc; field]?))
}

/// The value of a structure's field by its number among those that aren't padding; the value itself
/// where it has none.
pub fn part(value: &Value, number: usize) -> &Value
    ensures { val result.now ≡ part number (val value.now) }
{
    match value {
        Value::Struct(fields) => match fields.get(number) {
            Some(part) => part,
            None => value,
        },
        _ => value,
    }
}

/// The items of an array's value; none of a value of another kind.
pub fn items(value: &Value) -> &[Value]
    ensures { vals result.now ≡ items_of (val value.now) }
{
    match value {
        Value::Items(items) => items.as_slice(),
        _ => &[],
    }
}

/// The value of an array of numbers.
#[tactic(auto, using(crate::proofs::Rows::written_next, crate::proofs::Rows::written_all))]
pub fn numbers_value<T: Whole>(alloc: Global, numbers: &[T]) -> Result<Value, NoMemory>
    ensures { IfOk result (λ v. val v ≡ Items (row_of (λ n. Num (T.number n)) numbers.now)) }
{
    let mut items = Vec::new(alloc);
    for number in numbers {
        items.push(number_value(*number))?;
    }
    Ok(Value::Items(List::new(items)))
}

/// The numbers of an array's value.
#[tactic(auto, using(crate::proofs::Rows::taken_next, crate::proofs::Rows::taken_all))]
pub fn numbers<T: Whole>(alloc: Global, value: &Value) -> Result<List<T>, NoMemory>
    ensures { IfOk result (λ ns. ns
        ≡ list_of (λ v. T.nearest (number_of v)) (items_of (val value.now))) }
{
    let mut numbers = Vec::new(alloc);
    for item in items(value) {
        numbers.push(number::<T>(item))?;
    }
    Ok(List::new(numbers))
}

/// The value of an array of floats, by their raw bits.
#[tactic(auto, using(crate::proofs::Rows::written_next, crate::proofs::Rows::written_all))]
pub fn floats_value<T: FloatBits>(alloc: Global, floats: &[T]) -> Result<Value, NoMemory>
    ensures { IfOk result (λ v. val v ≡ Items (row_of (λ n. Raw (T.bits n)) floats.now)) }
{
    let mut items = Vec::new(alloc);
    for bits in floats {
        items.push(float_value(*bits))?;
    }
    Ok(Value::Items(List::new(items)))
}

/// The raw bits of an array's floats.
#[tactic(auto, using(crate::proofs::Rows::taken_next, crate::proofs::Rows::taken_all))]
pub fn floats<T: FloatBits>(alloc: Global, value: &Value) -> Result<List<T>, NoMemory>
    ensures { IfOk result (λ ns. ns ≡ list_of (λ v. T.held (raw_of v)) (items_of (val value.now))) }
{
    let mut floats = Vec::new(alloc);
    for item in items(value) {
        floats.push(float::<T>(item))?;
    }
    Ok(List::new(floats))
}

/// The value of an array of truth values.
#[tactic(auto, using(crate::proofs::Rows::written_next, crate::proofs::Rows::written_all))]
pub fn truths_value(alloc: Global, truths: &[bool]) -> Result<Value, NoMemory>
    ensures { IfOk result (λ v. val v ≡ truths_value truths.now) }
{
    let mut items = Vec::new(alloc);
    for truth in truths {
        items.push(truth_value(*truth))?;
    }
    Ok(Value::Items(List::new(items)))
}

/// The truth values of an array's value.
#[tactic(auto, using(crate::proofs::Rows::taken_next, crate::proofs::Rows::taken_all))]
pub fn truths(alloc: Global, value: &Value) -> Result<List<bool>, NoMemory>
    ensures { IfOk result (λ bs. bs ≡ truths_of (val value.now)) }
{
    let mut truths = Vec::new(alloc);
    for item in items(value) {
        truths.push(truth(item))?;
    }
    Ok(List::new(truths))
}

/// The value of an array of bytes.
pub fn bytes_value(alloc: Global, bytes: &Bytes) -> Result<Value, NoMemory>
    ensures { IfOk result (λ v. val v ≡ naturals_value bytes.now) }
{
    numbers_value(alloc, bytes.as_slice())
}

/// The bytes of an array's value.
pub fn bytes(alloc: Global, value: &Value) -> Result<Bytes, NoMemory>
    ensures { IfOk result (λ b. b ≡ naturals_of 8 (val value.now)) }
{
    let bytes = numbers::<u8>(alloc, value)?;
    Ok(Bytes::new(bytes.into_vec()))
}

/// The value of a structure whose one field is an array of bytes.
pub fn byte_array_value(alloc: Global, bytes: &Bytes) -> Result<Value, NoMemory>
    ensures { IfOk result (λ v. val v ≡ alone (naturals_value bytes.now)) }
{
    alone(alloc, bytes_value(alloc, bytes)?)
}

/// The value of a structure whose one field is an array of numbers.
pub fn number_array_value<T: Whole>(alloc: Global, numbers: &List<T>) -> Result<Value, NoMemory>
    ensures { IfOk result (λ v. val v
        ≡ alone (Items (row_of (λ n. Num (T.number n)) numbers.now))) }
{
    alone(alloc, numbers_value(alloc, numbers.as_slice())?)
}

/// The value of a structure whose one field is an array of floats, by their raw bits.
pub fn float_array_value<T: FloatBits>(alloc: Global, floats: &List<T>) -> Result<Value, NoMemory>
    ensures { IfOk result (λ v. val v ≡ alone (Items (row_of (λ n. Raw (T.bits n)) floats.now))) }
{
    alone(alloc, floats_value(alloc, floats.as_slice())?)
}

/// The value of a structure whose one field is an array of truth values.
pub fn truth_array_value(alloc: Global, truths: &List<bool>) -> Result<Value, NoMemory>
    ensures { IfOk result (λ v. val v ≡ alone (truths_value truths.now)) }
{
    alone(alloc, truths_value(alloc, truths.as_slice())?)
}

/// The bytes of a structure whose one field is an array of them.
pub fn byte_array(alloc: Global, value: &Value) -> Result<Bytes, NoMemory>
    ensures { IfOk result (λ b. b ≡ naturals_of 8 (part 0 (val value.now))) }
{
    bytes(alloc, part(value, 0))
}

/// The first 16 bytes of an array's value, with zeros behind fewer.
pub fn unique_id(alloc: Global, value: &Value) -> Result<[u8; 16], NoMemory>
    ensures { IfOk result (λ id. id ≡ unique_id_of (val value.now)) }
{
    let bytes = numbers::<u8>(alloc, value)?;
    let mut id = [0; 16];
    put_at(&mut id, 0, bytes.as_slice());
    Ok(id)
}
