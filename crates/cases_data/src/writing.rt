//! Terms, types and sequents as text.
use crate::fault::Fault;
use ev_print::{print, print_type};
use ev_terms::{Bytes, Tree, Tys};
use ev_typing::{Env, Sequent};
use std::alloc::Global;

fn push_bytes(out: &mut String, bytes: &Bytes) -> Result<(), Fault> {
    let text = std::str::from_utf8(bytes.as_slice()).unwrap_or("no UTF-8");
    out.push_str(text)?;
    Ok(())
}

/// The canonical text of a term under so many variables.
pub fn push_term(
    alloc: Global,
    out: &mut String,
    env: &Env,
    depth: u32,
    tree: &Tree,
) -> Result<(), Fault> {
    push_bytes(out, &print(alloc, env, depth, tree)?)
}

/// The types, with commas between them. The answer is how many there are.
fn push_types(alloc: Global, out: &mut String, types: &Tys) -> Result<u32, Fault> {
    let mut count = 0u32;
    let mut left = types;
    while let Tys::More(ty, rest) = left {
        if count > 0 {
            out.push_str(", ")?;
        }
        push_bytes(out, &print_type(alloc, ty.get())?)?;
        count = count.saturating_add(1);
        left = rest.get();
    }
    Ok(count)
}

/// `CONTEXT; HYPOTHESES |- GOAL`
pub fn push_sequent(
    alloc: Global,
    out: &mut String,
    env: &Env,
    sequent: &Sequent,
) -> Result<(), Fault> {
    let depth = push_types(alloc, out, &sequent.context)?;
    out.push_str(";")?;
    for hyp in sequent.hyps.as_slice() {
        out.push_str(" ")?;
        push_term(alloc, out, env, depth, hyp)?;
        out.push_str(";")?;
    }
    out.push_str(" |- ")?;
    push_term(alloc, out, env, depth, &sequent.goal)
}
