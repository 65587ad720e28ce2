ghost use Rattle.std.specs.Prelude.{◌≡◌, ◌↔◌, IsTrue, ◌++◌, ◌∷◌, [], ◌<◌, ◌≤◌, length, slice_get};
ghost use Rattle.std.specs.Option.{option_copied};

use arrayvec::ArrayVec;
use std::marker::Model;

/// A list of at most `N` items, kept in place: it takes no memory of the heap.
#[derive(Drop)]
pub struct ShortList<T, const N: usize> {
    items: ArrayVec<T, N>,
}

impl<T, const N: usize> Model for ShortList<T, N> {
    ghost use Rattle.std.specs.Prelude.{List};
    ghost use Rattle.std.specs.Coded.{coded_list};

    ghost Value = { List T };

    ghost coded = { coded_list T.code };

    ghost view = { λ a. a.items.items };
}

impl<T: Default, const N: usize> ShortList<T, N> {
    /// No items.
    pub fn new() -> ShortList<T, N>
        ensures { result ≡ [] }
    {
        ShortList {
            items: ArrayVec::new(),
        }
    }
}

impl<T, const N: usize> ShortList<T, N> {
    /// Takes an `ArrayVec` as it is.
    pub fn from_array_vec(items: ArrayVec<T, N>) -> ShortList<T, N>
        ensures { result ≡ items.items }
    {
        ShortList { items }
    }

    /// Gives the `ArrayVec` back.
    pub fn into_array_vec(self) -> ArrayVec<T, N>
        ensures { result.items ≡ self }
    {
        let ShortList { items } = self;
        items
    }

    /// The items in a row.
    pub fn as_slice(&self) -> &[T]
        ensures value { result.now ≡ self.now }
        ensures short { length self.now ≤ N }
    {
        self.items.as_slice()
    }

    /// The number of items.
    pub fn len(&self) -> usize
        ensures value { result ≡ length self.now }
        ensures short { length self.now ≤ N }
    {
        self.items.len()
    }

    /// Whether there is no item.
    pub fn is_empty(&self) -> bool
        ensures { IsTrue result ↔ (self.now ≡ []) }
    {
        self.items.is_empty()
    }

    /// The item at a place, counted from 0.
    pub fn get(&self, index: usize) -> Option<&T>
        ensures { option_copied result ≡ slice_get self.now index }
    {
        self.items.as_slice().get(index)
    }

    /// Appends an item. There is room for it.
    pub fn push(&mut self, item: T)
    where
        T: Drop,
        requires { length self.old < N }
        ensures { self.new ≡ self.old ++ item ∷ [] }
    {
        self.items.push(item);
    }
}
