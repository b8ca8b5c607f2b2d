ghost use Rattle.std.specs.Prelude.{◌≡◌, IfOk, IfSome};

use crate::values::{NoMemory, Same, TryCopy};
use std::alloc::Global;
use std::marker::Model;
use std::rc::Rc;

/// An `Rc` that contracts see as its value, so that a type may hold itself in one. A copy shares the value.
#[derive(Debug, Drop)]
pub struct Shared<T> {
    inner: Rc<T>,
}

impl<T> Model for Shared<T> {
    ghost Value = { T };

    ghost coded = { T.code };

    ghost view = { λ b. b.inner.value };
}

impl<T> Shared<T> {
    pub fn get(&self) -> &T
        ensures { result.now ≡ self.now }
    {
        &*self.inner
    }

    /// The value, if no other handle on it is left.
    pub fn into_inner(self) -> Option<T>
        ensures { IfSome result (λ x. x ≡ self) }
    {
        Rc::into_inner(self.inner)
    }
}

impl<T: Drop> Shared<T> {
    pub fn new(alloc: Global, value: T) -> Result<Shared<T>, NoMemory>
        ensures { IfOk result (λ b. b ≡ value) }
    {
        match Rc::new(alloc, value) {
            Ok(inner) => Ok(Shared { inner }),
            Err(_) => Err(NoMemory),
        }
    }

    /// Another handle on the same value.
    pub fn share(&self) -> Result<Shared<T>, NoMemory>
        ensures { IfOk result (λ b. b ≡ self.now) }
    {
        match self.inner.clone() {
            Ok(inner) => Ok(Shared { inner }),
            Err(_) => Err(NoMemory),
        }
    }
}

impl<T: Drop> TryCopy for Shared<T> {
    fn try_copy(&self, _alloc: Global) -> Result<Shared<T>, NoMemory> {
        self.share()
    }
}

impl<T: Same> Same for Shared<T> {
    fn same(&self, other: &Shared<T>) -> bool {
        self.get().same(other.get())
    }
}
