ghost use Rattle.std.specs.Prelude.{◌≡◌, ◌↔◌, IsTrue, ◌++◌, ◌∷◌, [], length, OnOk, OnErr, slice_get, take};
ghost use Rattle.std.specs.Option.{option_copied};

use crate::{NoMemory, TryCopy};
use std::alloc::Global;
use std::marker::Model;

/// Several of a thing, seen as a list.
pub struct List<X> {
    items: Vec<X>,
}

impl<X: Drop> Drop for List<X> {
    fn drop(self) {
        let List { items: _items } = self;
    }
}

impl<X> Model for List<X> {
    ghost use Rattle.std.specs.Prelude.{List as ListOf};
    ghost use Rattle.std.specs.Coded.{coded_list};

    ghost Value = { ListOf X };

    ghost coded = { coded_list X.code };

    ghost view = { λ a. a.items.items };
}

impl<X> List<X> {
    /// Takes a `Vec` as it is, without memory.
    pub fn new(items: Vec<X>) -> List<X>
        ensures { result ≡ items.items }
    {
        List { items }
    }

    /// No items; takes no memory yet.
    pub fn empty(alloc: Global) -> List<X>
        ensures { result ≡ [] }
    {
        List {
            items: Vec::new(alloc),
        }
    }

    /// The number of items.
    pub fn len(&self) -> usize
        ensures { result ≡ length self.now }
    {
        self.items.len()
    }

    /// Whether there is no item.
    pub fn is_empty(&self) -> bool
        ensures { IsTrue result ↔ (self.now ≡ []) }
    {
        self.items.is_empty()
    }

    /// The items in a row.
    pub fn as_slice(&self) -> &[X]
        ensures { result.now ≡ self.now }
    {
        self.items.as_slice()
    }

    /// The item at a place, counted from 0.
    pub fn get(&self, index: usize) -> Option<&X>
        ensures { option_copied result ≡ slice_get self.now index }
    {
        self.items.get(index)
    }

    /// Gives the `Vec` back, without memory.
    pub fn into_vec(self) -> Vec<X>
        ensures { result.items ≡ self }
    {
        let List { items } = self;
        items
    }
}

impl<X: Drop> List<X> {
    /// Appends an item. Want of memory leaves the list as it was, and drops the item.
    pub fn push(&mut self, item: X) -> Result<(), NoMemory>
        ensures ok { OnOk result (self.new ≡ self.old ++ item ∷ []) }
        ensures err { OnErr result (self.new ≡ self.old) }
    {
        self.items.push(item)?;
        Ok(())
    }

    /// Drops all items but the first `len`. Takes no memory.
    pub fn cut_back(&mut self, len: usize)
        ensures { self.new ≡ take len self.old }
    {
        self.items.truncate(len);
    }
}

impl<X: TryCopy + Drop> TryCopy for List<X> {
    fn copy(&self, alloc: Global) -> Result<List<X>, NoMemory> {
        let mut items = Vec::new(alloc);
        for x in &self.items {
            items.push(x.copy(alloc)?)?;
        }
        Ok(List { items })
    }
}
