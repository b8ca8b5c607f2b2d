use cases_notation::fault::Fault;
use cases_notation::reading::{Items, read_items, read_tree};
use ev_typing::{Sequent, Sequents};
use std::alloc::Global;

/// The sequent of a text: the types of the context and the hypotheses, `|-`, and the goal.
fn read_sequent(alloc: Global, text: &str) -> Result<Sequent, Fault> {
    let (before, goal) = text.split_once("|- ").ok_or(Fault::NoCase)?;
    let Items { types, trees } = read_items(alloc, before)?;
    Ok(Sequent {
        context: types,
        hyps: trees,
        goal: read_tree(alloc, goal)?,
    })
}

/// The sequents of a text, with `;` between them.
pub fn read_sequents(alloc: Global, text: &str) -> Result<Sequents, Fault> {
    let mut all = Sequents::new(alloc);
    for part in text.split(';') {
        all.push(alloc, read_sequent(alloc, part)?)?;
    }
    Ok(all)
}
