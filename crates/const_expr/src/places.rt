//! The places of the types of a scope.
ghost use Rattle.std.specs.Prelude.{◌≡◌, ◌∷◌, ◌++◌, [], length, List as ListOf, None, MatchOption, OnOk, OnErr};
ghost use Rattle.std.specs.BTreeMap.{IsUnchanged};
ghost use Rattle.dsdl_names.specs.declared.TypeId.{TypeId as TypeIdOf};
ghost use Rattle.dsdl_types.specs.Finding.{definition_of};
ghost use Rattle.const_expr.specs.Places.{ArePlaces, ArePlacesOf, IsFound};

use crate::scope::Scope;
use cy_bits::NoMemory;
use dsdl_names::{TypeId, order_of_types};
use dsdl_types::Definition;
use std::alloc::Global;
use std::collections::BTreeMap;

/// The place of the first definition of each type of a scope among all of its definitions, counted from 0.
pub type TypePlaces = BTreeMap<TypeId, usize>;

/// The places of no types. Takes no memory.
pub fn no_places(alloc: Global) -> TypePlaces
    ensures { ArePlacesOf [] result }
{
    TypePlaces::new(alloc)
}

/// The first definition of a type with its place, or nothing where the scope has none. Takes no memory.
pub fn find<'a>(
    scope: &'a Scope,
    places: &TypePlaces,
    id: &TypeId,
) -> Option<(usize, &'a Definition)>
    requires { ArePlaces scope.now places.now }
    ensures { MatchOption result
        (definition_of scope.now.namespace.definitions id.now ≡ None)
        (λ found. IsFound scope.now id.now found.0 found.1.now) }
{
    order_of_types();
    let Some(place) = places.get(id) else {
        return None;
    };
    match scope.namespace.definitions.as_slice().get(*place) {
        Some(definition) => Some((*place, definition)),
        None => None,
    }
}

/// Adds the place of a type whose definition stands behind all others. Where memory is wanting the
/// places stay as they were.
pub fn add_place(places: &mut TypePlaces, id: TypeId, place: usize) -> Result<(), NoMemory>
    ensures added { OnOk result ((ids : ListOf TypeIdOf) → place ≡ length ids →
        ArePlacesOf ids places.old → ArePlacesOf (ids ++ id ∷ []) places.new) }
    ensures kept { OnErr result (IsUnchanged places.old places.new) }
{
    order_of_types();
    if !places.contains_key(&id) {
        places.insert(id, place)?;
    }
    Ok(())
}
