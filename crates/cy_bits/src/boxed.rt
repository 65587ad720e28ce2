ghost use Rattle.std.specs.Prelude.{◌≡◌, IfOk};

use crate::{NoMemory, TryCopy};
use std::alloc::Global;
use std::marker::Model;

/// A value on the heap, which contracts see as the value alone. A type that holds itself holds it
/// so.
pub struct Boxed<T> {
    inner: Box<T>,
}

impl<T: Drop> Drop for Boxed<T> {
    fn drop(self) {
        let Boxed { inner: _inner } = self;
    }
}

impl<T> Model for Boxed<T> {
    ghost Value = { T };

    ghost coded = { T.code };

    ghost view = { λ b. b.inner.value };
}

impl<T> Boxed<T> {
    /// The value.
    pub fn get(&self) -> &T
        ensures { result.now ≡ self.now }
    {
        &self.inner
    }

    /// The value, off the heap.
    pub fn into_inner(self) -> T
        ensures { result ≡ self }
    {
        let Boxed { inner } = self;
        Box::into_inner(inner)
    }
}

impl<T: Drop> Boxed<T> {
    /// Puts a value on the heap.
    pub fn new(alloc: Global, value: T) -> Result<Boxed<T>, NoMemory>
        ensures { IfOk result (λ b. b ≡ value) }
    {
        Ok(Boxed {
            inner: Box::new(alloc, value)?,
        })
    }
}

impl<T: TryCopy + Drop> TryCopy for Boxed<T> {
    fn copy(&self, alloc: Global) -> Result<Boxed<T>, NoMemory> {
        let value = self.inner.copy(alloc)?;
        Boxed::new(alloc, value)
    }
}
