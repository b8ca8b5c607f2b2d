//! Lists that are read.
ghost use Rattle.std.specs.Prelude.{◌≡◌, IfOk};
ghost use Rattle.ev_parse.specs.inner.Taking.{joined, single};

use ev_terms::{ListOf, NoMemory};
use std::alloc::Global;

/// A list of one item, if that is kept.
pub fn one<T: Drop>(alloc: Global, item: Option<T>) -> Result<Option<ListOf<T>>, NoMemory>
    ensures { IfOk result (λ v. v ≡ single item) }
{
    let Some(item) = item else {
        return Ok(None);
    };
    let mut items = ListOf::new(alloc);
    items.push(alloc, item)?;
    Ok(Some(items))
}

/// Items with one more, if all of them are kept.
pub fn with<T: Drop>(
    alloc: Global,
    items: Option<ListOf<T>>,
    item: Option<T>,
) -> Result<Option<ListOf<T>>, NoMemory>
    ensures { IfOk result (λ v. v ≡ joined items (single item)) }
{
    let Some(mut items) = items else {
        return Ok(None);
    };
    let Some(item) = item else {
        return Ok(None);
    };
    items.push(alloc, item)?;
    Ok(Some(items))
}
