//! Pieces that were read, with their nesting.
ghost use Rattle.std.specs.Prelude.{◌≡◌, [], ◌∷◌, ◌++◌, OnOk, OnErr};

use ev_terms::NoMemory;

/// A tree and its nesting, or one that nests too deeply and is not built.
#[derive(Drop)]
pub enum Piece<T> {
    Whole(T, u64),
    Deep,
}

/// Appends an item. After `NoMemory` the items are as they were.
pub fn push<T: Drop>(items: &mut Vec<T>, item: T) -> Result<(), NoMemory>
    ensures ok { OnOk result (items.new.items ≡ items.old.items ++ item ∷ []) }
    ensures err { OnErr result (items.new.items ≡ items.old.items) }
{
    match items.push(item) {
        Ok(()) => Ok(()),
        Err(_) => Err(NoMemory),
    }
}
