//! Cases of imports. A graph is a list of words, one for each number: its imports with commas between them, or `-`. An import is a
//! number, or `<` and how much smaller it is.
ghost use Rattle.std.specs.Prelude.{◌≡◌, IsTrue, length, IfOk, IfSome};
ghost use Rattle.ev_imports.specs.Walks.{AreBelow, InRange};
ghost use Rattle.cases_theories.specs.Ordered.{IsOrdered};

use ev_imports::{Flags, Graph, first_cycle, reach};
use ev_terms::{Ids, NoMemory};
use std::alloc::Global;

/// How many numbers are written out.
const MANY: usize = 16;

fn number_of(word: &str) -> Option<u32> {
    match word.parse::<u32>() {
        Ok(number) => Some(number),
        Err(_) => None,
    }
}

fn import_of(word: &str, own: u32) -> Option<u32> {
    match word.strip_prefix('<') {
        Some(smaller) => own.checked_sub(number_of(smaller)?),
        None => number_of(word),
    }
}

/// The imports of a number.
fn imports_of(alloc: Global, word: &str, own: u32) -> Result<Option<Ids>, NoMemory> {
    let mut imports = Ids::new(alloc);
    if word == "-" {
        return Ok(Some(imports));
    }
    for part in word.split(',') {
        let Some(import) = import_of(part, own) else {
            return Ok(None);
        };
        imports.push(alloc, import)?;
    }
    Ok(Some(imports))
}

/// Whether all numbers are below a bound.
fn are_below(numbers: &[u32], bound: usize) -> bool
    ensures { IsTrue result → AreBelow bound numbers.now }
{
    numbers.iter().all(|number| (*number as usize) < bound)
}

/// Whether all imports are numbers of the graph.
fn is_in_range(graph: &Graph) -> bool
    ensures { IsTrue result → InRange graph.now }
{
    let bound = graph.len();
    graph
        .as_slice()
        .iter()
        .all(|imports| are_below(imports.as_slice(), bound))
}

/// The graph that a text is.
fn graph_of(alloc: Global, text: &str) -> Result<Option<Graph>, NoMemory> {
    let mut graph = Graph::new(alloc);
    let mut own = 0;
    for word in text.split_whitespace() {
        let Some(imports) = imports_of(alloc, word, own)? else {
            return Ok(None);
        };
        graph.push(alloc, imports)?;
        own = own.saturating_add(1);
    }
    Ok(Some(graph))
}

/// The same graph, where each number imports smaller ones only.
#[tactic(auto, using(crate::proofs::Ordered::ordered))]
fn ordered(alloc: Global, graph: Graph) -> Result<Option<Graph>, NoMemory>
    ensures { IfOk result (λ o. IfSome o IsOrdered) }
{
    let mut copy = Graph::new(alloc);
    for imports in graph.into_vec() {
        if !are_below(imports.as_slice(), copy.len()) {
            return Ok(None);
        }
        copy.push(alloc, imports)?;
    }
    Ok(Some(copy))
}

/// A flag for each number: all, or those that have a `1`.
fn flags_of(alloc: Global, text: &str, count: usize) -> Result<Flags, NoMemory>
    ensures { IfOk result (λ flags. length flags ≡ count) }
{
    let digits = text.as_bytes();
    let mut flags = Vec::new(alloc);
    for place in 0..count {
        let is_deployed = match digits.get(place) {
            Some(digit) => *digit == b'1',
            None => digits.is_empty(),
        };
        flags.push(is_deployed)?;
    }
    Ok(Flags::from_vec(flags))
}

fn put_numbers(alloc: Global, line: &mut Vec<u8>, numbers: &[u32]) -> Result<(), NoMemory> {
    for (place, number) in numbers.iter().enumerate() {
        if place > 0 {
            line.push(b' ')?;
        }
        let digits = format!(in alloc; "{number}")?;
        line.extend_from_slice(digits.as_bytes())?;
    }
    Ok(())
}

/// Numbers, of many the first two and the last two.
fn shown(alloc: Global, numbers: &[u32]) -> Result<Vec<u8>, NoMemory> {
    let mut line = Vec::new(alloc);
    let count = numbers.len();
    if count <= MANY {
        put_numbers(alloc, &mut line, numbers)?;
        return Ok(line);
    }
    let text = format!(in alloc; "{count} numbers: ")?;
    line.extend_from_slice(text.as_bytes())?;
    put_numbers(alloc, &mut line, &numbers[..2])?;
    line.extend_from_slice(b" .. ")?;
    put_numbers(alloc, &mut line, &numbers[count - 2..])?;
    Ok(line)
}

/// The numbers that a number reaches. None where the case is none.
#[tactic(auto, using(crate::proofs::Ordered::ordered))]
pub fn reach_case(
    alloc: Global,
    graph: &str,
    name: &str,
    deployed: &str,
) -> Result<Option<Vec<u8>>, NoMemory> {
    let (Some(graph), Some(name)) = (graph_of(alloc, graph)?, number_of(name)) else {
        return Ok(None);
    };
    let Some(graph) = ordered(alloc, graph)? else {
        return Ok(None);
    };
    if name as usize >= graph.len() {
        return Ok(None);
    }
    let deployed = flags_of(alloc, deployed, graph.len())?;
    let reached = reach(alloc, &graph, &deployed, name)?;
    Ok(Some(shown(alloc, reached.as_slice())?))
}

fn shown_walk(alloc: Global, walk: Option<Ids>) -> Result<Vec<u8>, NoMemory> {
    match walk {
        Some(walk) => shown(alloc, walk.as_slice()),
        None => Ok(b"none".as_slice().to_vec(alloc)?),
    }
}

/// The walk from a number to itself. None where the case is none.
pub fn cycle_case(
    alloc: Global,
    graph: &str,
    name: &str,
    imports: &str,
) -> Result<Option<Vec<u8>>, NoMemory> {
    let (Some(graph), Some(name)) = (graph_of(alloc, graph)?, number_of(name)) else {
        return Ok(None);
    };
    let Some(imports) = imports_of(alloc, imports, name)? else {
        return Ok(None);
    };
    if name as usize >= graph.len() || !is_in_range(&graph) {
        return Ok(None);
    }
    if !are_below(imports.as_slice(), graph.len()) {
        return Ok(None);
    }
    let walk = first_cycle(alloc, &graph, name, &imports)?;
    Ok(Some(shown_walk(alloc, walk)?))
}
