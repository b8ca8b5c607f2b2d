ghost use Rattle.std.specs.Prelude.{◌≡◌, ◌<◌, ℕ, [], length, IfOk};
ghost use Rattle.std.specs.List.{concat};
ghost use Rattle.ev_imports.specs.Walks.{imports_of, InRange, HasNoCycle};
ghost use Rattle.ev_imports.specs.Reached.{reached, reached_by_each};
ghost use Rattle.ev_imports.specs.inner.Listing.{ListsReached};

use crate::lists::append;
use crate::{Flags, Graph};
use ev_terms::{Ids, NoMemory};
use std::alloc::Global;

/// A number whose imports are being walked, with the position of the next one.
#[derive(Debug, Clone, Copy)]
struct Frame {
    number: u32,
    next: usize,
}

impl Frame {
    fn new(number: u32, next: usize) -> Frame
        ensures { result ≡ record { number = number; next = next } }
    {
        Frame { number, next }
    }
}

/// The numbers that `name` reaches: a walk through its imports in order, depth first, enters a number only where it is
/// deployed, and lists it after those that it imports, each once. `name` is not listed, and need not be deployed. Each number's
/// imports are read once at most, and a long chain of imports takes no stack.
pub fn reach(alloc: Global, graph: &Graph, deployed: &Flags, name: u32) -> Result<Ids, NoMemory>
    requires graph { InRange graph.now }
    requires deployed { length deployed.now ≡ length graph.now }
    requires name { name < length graph.now }
    requires acyclic { (u : ℕ) → HasNoCycle graph.now u }
    ensures reached { IfOk result (λ listed. listed ≡ reached graph.now deployed.now name) }
    ensures by_each { IfOk result (λ listed. listed ≡ concat (reached_by_each (length graph.now) graph.now deployed.now [] (imports_of graph.now name))) }
    ensures lists { IfOk result (ListsReached graph.now deployed.now name) }
{
    let lists = graph.as_slice();
    let deployed = deployed.as_slice();
    let mut is_listed = vec![in alloc; false; lists.len()]?;
    let mut listed = Vec::new(alloc);
    let mut stack = Vec::new(alloc);
    append(&mut stack, Frame::new(name, 0))?;
    while let Some(Frame { number, next }) = stack.pop() {
        let imports = lists[number as usize].as_slice();
        if next < imports.len() {
            append(&mut stack, Frame::new(number, next + 1))?;
            let import = imports[next];
            if deployed[import as usize] && !is_listed[import as usize] {
                append(&mut stack, Frame::new(import, 0))?;
            }
        } else {
            is_listed[number as usize] = true;
            append(&mut listed, number)?;
        }
    }
    // The start itself is not listed.
    let _name = listed.pop();
    Ok(Ids::from_vec(listed))
}
