//! The types of a scope, by what is known of them.
ghost use Rattle.std.specs.Prelude.{◌≡◌, ◌∷◌, ◌++◌, [], length, List as ListOf, None, Some, MatchOption, OnOk};
ghost use Rattle.const_expr.specs.Places.{ArePlacesOf};
ghost use Rattle.dsdl_names.specs.declared.TypeId.{TypeId as TypeIdOf};
ghost use Rattle.dsdl_types.specs.Finding.{definition_of};
ghost use Rattle.dsdl_resolve.specs.Places.{AreCountsIn, ArePlacesIn};

use crate::counts::Counts;
use const_expr::{Scope, TypePlaces, add_place, no_places};
use cy_bits::{List, NoMemory};
use dsdl_names::TypeId;
use dsdl_types::Definition;
use std::alloc::Global;

/// What is known of the types of a scope.
#[derive(Drop)]
pub struct Places {
    /// Their places.
    pub types: TypePlaces,
    /// How large the message of each is, in the order of their definitions.
    pub counts: List<Counts>,
}

impl Places {
    /// Nothing is known yet. Takes no memory.
    pub fn empty(alloc: Global) -> Places
        ensures types { ArePlacesOf [] result.types }
        ensures counts { result.counts ≡ [] }
    {
        Places {
            types: no_places(alloc),
            counts: List::empty(alloc),
        }
    }

    /// Adds a type whose definition stands behind all others.
    pub fn add(&mut self, id: TypeId, counts: Counts) -> Result<(), NoMemory>
        ensures types { OnOk result ((ids : ListOf TypeIdOf) → length self.old.counts ≡ length ids →
            ArePlacesOf ids self.old.types → ArePlacesOf (ids ++ id ∷ []) self.new.types) }
        ensures counts { OnOk result (self.new.counts ≡ self.old.counts ++ counts ∷ []) }
    {
        add_place(&mut self.types, id, self.counts.len())?;
        self.counts.push(counts)
    }
}

/// The first definition of a type, and how large the message is that it defines, or nothing where
/// there is none.
pub fn find<'a>(scope: &'a Scope, places: &Places, id: &TypeId) -> Option<(&'a Definition, Counts)>
    requires { ArePlacesIn scope.now places.now }
    ensures { MatchOption result
        (definition_of scope.now.namespace.definitions id.now ≡ None)
        (λ found. (definition_of scope.now.namespace.definitions id.now ≡ Some found.0.now)
        × AreCountsIn found.1 found.0.now.parts) }
{
    let Some((place, definition)) = const_expr::find(scope, &places.types, id) else {
        return None;
    };
    match places.counts.get(place) {
        Some(counts) => Some((definition, *counts)),
        None => None,
    }
}
