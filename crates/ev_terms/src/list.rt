ghost use Rattle.std.specs.Prelude.{◌≡◌, [], ◌∷◌, ◌++◌, ◌<◌, length, slice_get, ◌↔◌, IsTrue, IfOk, OnOk, OnErr};
ghost use Rattle.std.specs.Option.{option_copied};

use crate::values::{NoMemory, Same, TryCopy};
use std::alloc::Global;
use std::marker::Model;

/// A list of values, which contracts see as the list. It grows at its end alone.
#[derive(Debug, Drop)]
pub struct ListOf<T> {
    items: Vec<T>,
}

impl<T> Model for ListOf<T> {
    ghost use Rattle.std.specs.Prelude.{List};
    ghost use Rattle.std.specs.Coded.{coded_list};

    ghost Value = { List T };

    ghost coded = { coded_list T.code };

    ghost view = { λ l. l.items.items };
}

impl<T> ListOf<T> {
    /// The empty list, which takes no memory.
    pub fn new(alloc: Global) -> ListOf<T>
        ensures { result ≡ [] }
    {
        ListOf {
            items: Vec::new(alloc),
        }
    }

    pub fn len(&self) -> usize
        ensures { result ≡ length self.now }
    {
        self.items.len()
    }

    pub fn get(&self, i: usize) -> Option<&T>
        ensures { option_copied result ≡ slice_get self.now i }
    {
        self.items.get(i)
    }

    pub fn as_slice(&self) -> &[T]
        ensures { result.now ≡ self.now }
    {
        self.items.as_slice()
    }

    pub fn is_empty(&self) -> bool
        ensures { IsTrue result ↔ (self.now ≡ []) }
    {
        self.items.is_empty()
    }

    /// The list of a vector's items, which are not copied.
    pub fn from_vec(items: Vec<T>) -> ListOf<T>
        ensures { result ≡ items.items }
    {
        ListOf { items }
    }

    /// The vector of the items, which are not copied.
    pub fn into_vec(self) -> Vec<T>
        ensures { result.items ≡ self }
    {
        self.items
    }
}

impl<T: Drop> ListOf<T> {
    /// Appends an item. After `NoMemory` the list is as it was, and the item is dropped.
    pub fn push(&mut self, _alloc: Global, item: T) -> Result<(), NoMemory>
        ensures ok { OnOk result (self.new ≡ self.old ++ item ∷ []) }
        ensures err { OnErr result (self.new ≡ self.old) }
    {
        self.items.push(item)?;
        Ok(())
    }
}

impl<T: Same> Same for ListOf<T> {
    fn same(&self, other: &ListOf<T>) -> bool {
        let (items, others) = (self.as_slice(), other.as_slice());
        if items.len() != others.len() {
            return false;
        }
        for i in 0..items.len() {
            if !items[i].same(&others[i]) {
                return false;
            }
        }
        true
    }
}

impl<T: TryCopy> TryCopy for ListOf<T> {
    fn try_copy(&self, alloc: Global) -> Result<ListOf<T>, NoMemory> {
        let mut copy = ListOf::new(alloc);
        for item in self.as_slice() {
            copy.push(alloc, item.try_copy(alloc)?)?;
        }
        Ok(copy)
    }
}
