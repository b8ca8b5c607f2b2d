ghost use Rattle.std.specs.Prelude.{◌≡◌, ◌<◌, ℕ, List, ◌∷◌, reverse, length, slice_set, IfOk, IfSome, IfNone};
ghost use Rattle.ev_imports.specs.Walks.{AreBelow, InRange, HasNoCycle};
ghost use Rattle.ev_imports.specs.Cycles.{IsFirstCycle};
ghost use Rattle.ev_imports.specs.inner.Found.{ParentsFall, IsTrail};

use crate::Graph;
use crate::lists::append;
use ev_terms::{Ids, NoMemory};
use std::alloc::Global;

/// A number that the search found, with the place of the one that imports it.
#[derive(Debug, Clone, Copy)]
struct Found {
    number: u32,
    parent: usize,
}

impl Found {
    fn new(number: u32, parent: usize) -> Found
        ensures { result ≡ record { number = number; parent = parent } }
    {
        Found { number, parent }
    }
}

/// The shortest walk of imports from `name` back to `name`, both written, once `name` has these imports in place of its own in
/// the graph. Among the shortest walks it is the one whose import positions come first, at `name` and then onwards. `None` where
/// there is no such walk. Each number's imports are read once at most.
pub fn first_cycle(
    alloc: Global,
    graph: &Graph,
    name: u32,
    imports: &Ids,
) -> Result<Option<Ids>, NoMemory>
    requires graph { InRange graph.now }
    requires imports { AreBelow (length graph.now) imports.now }
    requires name { name < length graph.now }
    ensures first { IfOk result (λ answer. IfSome answer (IsFirstCycle (slice_set graph.now name imports.now) name)) }
    ensures none { IfOk result (λ answer. IfNone answer (HasNoCycle (slice_set graph.now name imports.now) name)) }
{
    let lists = graph.as_slice();
    let mut marks = vec![in alloc; false; lists.len()]?;
    let mut found = Vec::new(alloc);
    append(&mut found, Found::new(name, 0))?;
    let mut head = 0;
    while head < found.len() {
        let number = found[head].number;
        let row = if number == name {
            imports.as_slice()
        } else {
            lists[number as usize].as_slice()
        };
        for &next in row {
            if next == name {
                return Ok(Some(walk_back(alloc, found.as_slice(), head, name)?));
            }
            if !marks[next as usize] {
                marks[next as usize] = true;
                append(&mut found, Found::new(next, head))?;
            }
        }
        head += 1;
    }
    Ok(None)
}

/// The walk to `last` by way of the number that was found at this place.
fn walk_back(alloc: Global, found: &[Found], from: usize, last: u32) -> Result<Ids, NoMemory>
    requires within { from < length found.now }
    requires parents { ParentsFall found.now }
    ensures { IfOk result (λ walk. (trail : List ℕ) × IsTrail found.now from trail × (walk ≡ reverse (last ∷ trail))) }
{
    let mut walk = Vec::new(alloc);
    append(&mut walk, last)?;
    let mut place = from;
    while 0 < place {
        append(&mut walk, found[place].number)?;
        place = found[place].parent;
    }
    append(&mut walk, found[0].number)?;
    walk.as_mut_slice().reverse();
    Ok(Ids::from_vec(walk))
}
