//! Slots for the values that matching finds.
ghost use Rattle.std.specs.Prelude.{◌≡◌, ◌<◌, None, length, replicate, IfOk};
ghost use Rattle.ev_rewrite.specs.inner.Slots.{IsPut};

use ev_terms::{NoMemory, Same, Tree, Ty};
use std::alloc::Global;

/// What is found so far: a slot for each type parameter and for each variable, that of the outermost variable first.
#[derive(Drop)]
pub(crate) struct Found {
    pub(crate) types: Vec<Option<Ty>>,
    pub(crate) terms: Vec<Option<Tree>>,
}

/// So many empty slots.
pub(crate) fn empty_slots<T: Drop>(alloc: Global, count: u32) -> Result<Vec<Option<T>>, NoMemory>
    ensures { IfOk result (λ slots. slots.items ≡ replicate count None) }
{
    let mut slots = Vec::new(alloc);
    for _ in 0..count {
        slots.push(None)?;
    }
    Ok(slots)
}

/// Puts a value into a slot that is empty or has it already.
pub(crate) fn put<T: Same + Drop>(slots: &mut Vec<Option<T>>, at: usize, value: T) -> bool
    requires { at < length slots.old.items }
    ensures { IsPut slots.old.items at value slots.new.items result }
{
    if let Some(known) = &slots[at] {
        return known.same(&value);
    }
    slots[at] = Some(value);
    true
}
