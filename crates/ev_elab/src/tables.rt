//! Tables of names.
ghost use Rattle.std.specs.Prelude.{◌≡◌, ℕ, List, bytes_eq, IfOk};
ghost use Rattle.indexmap.specs.IndexSet.{contains};
ghost use Rattle.ev_resolve.specs.UsedNames.{is_name_among};
ghost use Rattle.ev_elab.specs.Taken.{repeats};

use ev_terms::{Name, NoMemory, TryCopy};
use indexmap::IndexSet;
use std::alloc::Global;

/// The table of names.
pub(crate) fn table_of(alloc: Global, names: &[Name]) -> Result<IndexSet<Name>, NoMemory>
    ensures { IfOk result (λ table. (n : List ℕ) → contains bytes_eq table n ≡ is_name_among names.now n) }
{
    let mut table = IndexSet::new(alloc);
    let mut left = names.len();
    'names: while left > 0 {
        left -= 1;
        table.insert_full(names[left].try_copy(alloc)?)?;
    }
    Ok(table)
}

/// Whether a name stands twice. Linear in the names.
pub(crate) fn repeats(alloc: Global, names: &[Name]) -> Result<bool, NoMemory>
    ensures { IfOk result (λ b. b ≡ repeats names.now) }
{
    let mut table = IndexSet::new(alloc);
    let mut left = names.len();
    'names: while left > 0 {
        left -= 1;
        let (_, added) = table.insert_full(names[left].try_copy(alloc)?)?;
        if !added {
            return Ok(true);
        }
    }
    Ok(false)
}
