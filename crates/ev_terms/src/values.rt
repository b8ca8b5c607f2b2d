ghost use Rattle.std.specs.Prelude.{◌≡◌, ◌↔◌, IsTrue, IfOk};

use std::alloc::{AllocError, AllocFailed, Global};

/// Memory ran out.
#[derive(Debug, Clone, Copy, PartialEq, Eq)]
pub struct NoMemory;

impl From<AllocError> for NoMemory {
    fn from(_error: AllocError) -> NoMemory {
        NoMemory
    }
}

impl<T: Drop> From<AllocFailed<T>> for NoMemory {
    fn from(_error: AllocFailed<T>) -> NoMemory {
        NoMemory
    }
}

/// A copy that equals what it copies.
pub trait TryCopy: Drop {
    fn try_copy(&self, alloc: Global) -> Result<Self, NoMemory>
        ensures { IfOk result (λ copy. copy ≡ self.now) };
}

/// Whether two values are equal.
pub trait Same {
    fn same(&self, other: &Self) -> bool
        ensures { IsTrue result ↔ (self.now ≡ other.now) };
}

impl Same for u8 {
    fn same(&self, other: &u8) -> bool {
        *self == *other
    }
}

impl TryCopy for u8 {
    fn try_copy(&self, _alloc: Global) -> Result<u8, NoMemory> {
        Ok(*self)
    }
}

impl TryCopy for u32 {
    fn try_copy(&self, _alloc: Global) -> Result<u32, NoMemory> {
        Ok(*self)
    }
}

impl TryCopy for u128 {
    fn try_copy(&self, _alloc: Global) -> Result<u128, NoMemory> {
        Ok(*self)
    }
}
