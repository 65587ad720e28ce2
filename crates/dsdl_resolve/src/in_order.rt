//! Types put into path order.
ghost use Rattle.std.specs.Prelude.{◌≡◌, List as ListOf, None, Some, length, replicate, filter_map, slice_set, IfOk};
ghost use Rattle.dsdl_links.specs.declared.source.Source.{Source as SourceOf};
ghost use Rattle.dsdl_types.specs.Definitions.{IsNamespace};
ghost use Rattle.dsdl_resolve.specs.Placing.{AreNumbered, Places};
ghost use Rattle.dsdl_resolve.specs.Progressing.{AreBeside, Holds, IsSound};
ghost use Rattle.dsdl_resolve.specs.Valuing.{Done, in_path_order, prints_of};

use crate::progress::Progress;
use const_expr::Scope;
use cy_bits::{List, NoMemory};
use dsdl_types::{Definition, Namespace};
use std::alloc::Global;

/// The types of so many valued files in path order, and what `@print` wrote.
pub fn namespace_of(alloc: Global, count: usize, valued: Progress) -> Result<Namespace, NoMemory>
    requires { AreBeside valued }
    ensures definitions { IfOk result (λ names.
        (sources : ListOf SourceOf) (done : ListOf Done) →
        Holds sources done valued → names.definitions ≡ in_path_order count done) }
    ensures prints { IfOk result (λ names.
        (sources : ListOf SourceOf) (done : ListOf Done) →
        Holds sources done valued → names.prints ≡ prints_of done) }
    ensures sound { IfOk result (λ names.
        (sources : ListOf SourceOf) (done : ListOf Done) →
        Holds sources done valued → IsSound valued → IsNamespace names) }
{
    let Progress {
        scope,
        places: _places,
        numbers,
        doubles,
        double_numbers,
        prints,
    } = valued;
    let Scope {
        constants: _constants,
        offset: _offset,
        namespace,
        own: _own,
        members: _members,
    } = scope;
    let mut slots = empty_slots(alloc, count)?;
    place(double_numbers.as_slice(), doubles, &mut slots);
    place(numbers.as_slice(), definitions_in(namespace), &mut slots);
    Ok(Namespace {
        definitions: filled(alloc, slots)?,
        prints,
    })
}

/// The types of a namespace.
fn definitions_in(namespace: Namespace) -> Vec<Definition>
    ensures { result.items ≡ namespace.definitions }
{
    let Namespace {
        definitions,
        prints: _prints,
    } = namespace;
    definitions.into_vec()
}

/// So many places for types.
fn empty_slots(alloc: Global, count: usize) -> Result<Vec<Option<Definition>>, NoMemory>
    ensures { IfOk result (λ slots. slots.items ≡ replicate count None) }
{
    let mut slots = Vec::new(alloc);
    for _ in 0..count {
        slots.push(None)?;
    }
    Ok(slots)
}

/// Puts each type at the place of its number, the first of a number where there are several.
fn place(numbers: &[usize], definitions: Vec<Definition>, slots: &mut Vec<Option<Definition>>)
    requires { length numbers.now ≡ length definitions.items }
    ensures { (done : ListOf Done) → AreNumbered done numbers.now definitions.items →
        Places done slots.old.items slots.new.items }
{
    let mut left = definitions;
    while let Some(definition) = left.pop() {
        put(slots, numbers[left.len()], definition);
    }
}

/// Puts a type at a place, where there is this place.
fn put(slots: &mut Vec<Option<Definition>>, number: usize, definition: Definition)
    ensures { slots.new.items ≡ slice_set slots.old.items number (Some definition) }
{
    if number < slots.len() {
        slots[number] = Some(definition);
    }
}

/// The types at the places that have one.
fn filled(alloc: Global, slots: Vec<Option<Definition>>) -> Result<List<Definition>, NoMemory>
    ensures { IfOk result (λ definitions. definitions ≡ filter_map (λ slot. slot) slots.items) }
{
    let mut definitions = List::empty(alloc);
    for slot in slots {
        if let Some(definition) = slot {
            definitions.push(definition)?;
        }
    }
    Ok(definitions)
}
