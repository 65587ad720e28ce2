ghost use Rattle.std.specs.Prelude.{◌≡◌, length, IfOk};

use cy_bits::{List, NoMemory, TryCopy};
use std::alloc::Global;
use std::marker::Model;
use std::rc::Rc;

/// A value on the heap that doesn't change and may have several owners, which contracts see as the
/// value alone. A copy is one owner more.
pub struct Shared<T> {
    inner: Rc<T>,
}

impl<T: Drop> Drop for Shared<T> {
    fn drop(self) {
        let Shared { inner: _inner } = self;
    }
}

impl<T> Model for Shared<T> {
    ghost Value = { T };

    ghost coded = { T.code };

    ghost view = { λ s. s.inner.value };
}

impl<T> Shared<T> {
    /// The value.
    pub fn get(&self) -> &T
        ensures { result.now ≡ self.now }
    {
        self.inner.as_ref()
    }
}

impl<T: Drop> Shared<T> {
    /// Puts a value where several owners can have it.
    pub fn new(alloc: Global, value: T) -> Result<Shared<T>, NoMemory>
        ensures { IfOk result (λ s. s ≡ value) }
    {
        Ok(Shared {
            inner: Rc::new(alloc, value)?,
        })
    }
}

impl<X> Shared<List<X>> {
    /// The number of items.
    pub fn len(&self) -> usize
        ensures { result ≡ length self.now }
    {
        self.inner.as_ref().len()
    }

    /// The items in a row.
    pub fn as_slice(&self) -> &[X]
        ensures { result.now ≡ self.now }
    {
        self.inner.as_ref().as_slice()
    }
}

impl<T: Drop> TryCopy for Shared<T> {
    fn copy(&self, alloc: Global) -> Result<Shared<T>, NoMemory> {
        Ok(Shared {
            inner: self.inner.clone()?,
        })
    }
}
