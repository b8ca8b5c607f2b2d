//! Which variables occur.
ghost use Rattle.std.specs.Prelude.{◌≡◌, ◌+◌, ℕ, drop, IfOk, vec_len};
ghost use Rattle.ev_terms.specs.Term.{var, terms};
ghost use Rattle.ev_wd.specs.inner.Marks.{marked, all_marked, occurring, either};

use ev_forms::node_parts;
use ev_terms::{NoMemory, Tree, binds, loose};
use std::alloc::Global;

/// For how many variables it is looked up at once.
const WIDTH: usize = 128;

/// For the first variables, the innermost first, whether they occur in the term. Linear in the term.
#[tactic(auto, using(crate::proofs::Marking::first))]
pub(crate) fn occurring(alloc: Global, tree: &Tree) -> Result<Vec<bool>, NoMemory>
    ensures { IfOk result (λ v. v.items ≡ occurring 0 (vec_len v) tree.now) }
{
    let unmarked = Vec::from_slice(alloc, &[false; WIDTH])?;
    Ok(marked(unmarked, tree))
}

/// The marks, with those of what occurs in the term. Linear in the term.
pub(crate) fn marked(marks: Vec<bool>, tree: &Tree) -> Vec<bool>
    ensures { result.items ≡ marked 0 marks.items tree.now }
{
    let mut marks = marks;
    mark(tree, 0, marks.as_mut_slice());
    marks
}

/// Marks what occurs in the term, the first mark being that of the variable `from`.
#[cycle(mark)]
#[tactic(auto, using(crate::proofs::Marking::walk))]
fn mark(tree: &Tree, from: u64, marks: &mut [bool])
    ensures { marks.new ≡ marked from marks.old tree.now }
{
    if loose(tree) <= from {
        return;
    }
    match node_parts(tree) {
        Some((sym, _, children)) => mark_all(children, from + u64::from(binds(sym)), marks),
        None => if let Some(i) = tree.var() {
            mark_variable(u64::from(i) - from, marks);
        },
    }
}

/// Marks what occurs in one of the terms.
#[cycle(mark)]
#[tactic(auto, using(crate::proofs::Marking::walk))]
fn mark_all(trees: &[Tree], from: u64, marks: &mut [bool])
    ensures { marks.new ≡ all_marked from marks.old (terms trees.now) }
{
    for tree in trees {
        mark(tree, from, marks);
    }
}

#[tactic(auto, using(crate::proofs::Marking::variables))]
fn mark_variable(at: u64, marks: &mut [bool])
    ensures { (from : ℕ) → marks.new ≡ marked from marks.old (var (from + at)) }
{
    if at < marks.len() as u64 {
        marks[at as usize] = true;
    }
}

/// Marks of what occurs in one of two terms, for the variables of which both have one.
#[tactic(auto, using(crate::proofs::Marking::joining))]
pub(crate) fn joined_marks(
    alloc: Global,
    left: &[bool],
    right: &[bool],
) -> Result<Vec<bool>, NoMemory>
    ensures { IfOk result (λ v. v.items ≡ either left.now right.now) }
{
    let count = left.len().min(right.len());
    let mut all = Vec::with_capacity(alloc, count)?;
    for i in 0..count {
        let (one, other) = (left[i], right[i]);
        all.push(one || other)?;
    }
    Ok(all)
}

/// The marks outside the innermost binder.
pub(crate) fn outer_marks(marks: Vec<bool>) -> Vec<bool>
    ensures { result.items ≡ drop 1 marks.items }
{
    let mut marks = marks;
    if !marks.is_empty() {
        let _innermost = marks.remove(0);
    }
    marks
}
