//! `axiom NUMBER`: the canonical text of an axiom. `axioms`: how many rows of the table are the axioms by their numbers.
use crate::fault::Fault;
use crate::writing::push_term;
use ev_axioms::{AXIOM_COUNT, AxiomFault, Axioms, axiom};
use ev_terms::same;
use ev_typing::Env;
use std::alloc::Global;

fn push_axiom(alloc: Global, out: &mut String, env: &Env, word: &str) -> Result<(), Fault> {
    let Ok(number) = word.parse::<u32>() else {
        return Err(Fault::NoCase);
    };
    match axiom(alloc, number) {
        Ok(tree) => push_term(alloc, out, env, 0, &tree),
        Err(AxiomFault::NoSuch) => Ok(out.push_str("none")?),
        Err(AxiomFault::NoMemory) => Err(Fault::NoMemory),
    }
}

fn equal_rows(alloc: Global) -> Result<u32, Fault> {
    let table = Axioms::<AXIOM_COUNT>::new(alloc)?;
    let mut count = 0u32;
    for k in 0..100 {
        if let Some(row) = table.row(k) {
            if same(row, &axiom(alloc, k)?) {
                count = count.saturating_add(1);
            }
        }
    }
    Ok(count)
}

/// Whether the case is one of these, and then its answer.
pub fn answer(
    alloc: Global,
    out: &mut String,
    env: &Env,
    case: &str,
    rest: &str,
) -> Result<bool, Fault> {
    match case {
        "axiom" => push_axiom(alloc, out, env, rest)?,
        "axioms" => {
            let count = equal_rows(alloc)?;
            out.push_str(format!(in alloc; "{count}")?.as_str())?;
        }
        _ => return Ok(false),
    }
    Ok(true)
}
