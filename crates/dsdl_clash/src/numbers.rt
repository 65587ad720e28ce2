//! Full names as numbers.
ghost use Rattle.std.specs.Prelude.{◌≡◌, ◌<◌, ◌≤◌, ◌+◌, Some, length, IfOk, IfSome};
ghost use Rattle.std.specs.List.{HoldsAt};
ghost use Rattle.dsdl_clash.specs.Names.{ArePlaces, IsReached, first_of_name, name_numbers};

use cy_bits::{NoMemory, TryCopy};
use dsdl_names::FullName;
use dsdl_types::Definition;
use std::alloc::Global;
use std::cmp::Ordering;
use std::collections::BTreeMap;

/// For each definition the number of the first one of its full name, counted from 0.
pub fn name_numbers(alloc: Global, definitions: &[Definition]) -> Result<Vec<usize>, NoMemory>
    ensures { IfOk result (λ numbers. numbers.items ≡ name_numbers definitions.now) }
{
    match numbers_in_order(alloc, definitions)? {
        Some(numbers) => Ok(numbers),
        None => numbers_by_map(alloc, definitions),
    }
}

/// The numbers of definitions whose full names ascend; of others nothing.
fn numbers_in_order(
    alloc: Global,
    definitions: &[Definition],
) -> Result<Option<Vec<usize>>, NoMemory>
    ensures { IfOk result (λ found.
        IfSome found (λ numbers. numbers.items ≡ name_numbers definitions.now)) }
{
    let mut numbers = Vec::new(alloc);
    let mut number = 0;
    for i in 0..definitions.len() {
        match next_number(definitions, number, i) {
            Some(next) => {
                numbers.push(next)?;
                number = next;
            }
            None => return Ok(None),
        }
    }
    Ok(Some(numbers))
}

/// The number of a definition's full name, where this number is that of the greatest name before
/// it; nothing where a name before it is greater.
fn next_number(definitions: &[Definition], number: usize, i: usize) -> Option<usize>
    requires within { number ≤ i }
    requires at { i < length definitions.now }
    ensures within { IfSome result (λ next. next ≤ i) }
    ensures reached { IsReached definitions.now number i → IfSome result (λ next.
        IsReached definitions.now next (i + 1) ×
        HoldsAt (λ d. first_of_name definitions.now d.id.name ≡ Some next) definitions.now i) }
{
    match definitions[number].id.name.cmp(&definitions[i].id.name) {
        Ordering::Less => Some(i),
        Ordering::Equal => Some(number),
        Ordering::Greater => None,
    }
}

/// The numbers of definitions, each found by its full name.
fn numbers_by_map(alloc: Global, definitions: &[Definition]) -> Result<Vec<usize>, NoMemory>
    ensures { IfOk result (λ numbers. numbers.items ≡ name_numbers definitions.now) }
{
    let places = places_of(alloc, definitions)?;
    let mut numbers = Vec::new(alloc);
    for definition in definitions {
        numbers.push(places.get(&definition.id.name).copied().unwrap_or(0))?;
    }
    Ok(numbers)
}

/// The number of the first definition of each full name.
fn places_of(
    alloc: Global,
    definitions: &[Definition],
) -> Result<BTreeMap<FullName, usize>, NoMemory>
    ensures { IfOk result (ArePlaces definitions.now) }
{
    let mut places = BTreeMap::new(alloc);
    let mut i = definitions.len();
    while i > 0 {
        i -= 1;
        places.insert(definitions[i].id.name.copy(alloc)?, i)?;
    }
    Ok(places)
}
