//! Which type parameters occur in terms and types.
ghost use Rattle.std.specs.Prelude.{◌≡◌, ◌==◌, false, replicate, IfOk};
ghost use Rattle.ev_terms.specs.Term.{terms};
ghost use Rattle.ev_terms.specs.Measures.{all_params};
ghost use Rattle.ev_typing.specs.Occurs.{has_param, have_param, mentions_param, mention_param};
ghost use Rattle.ev_rules.specs.Params.{params_of};
ghost use Rattle.ev_rules.specs.inner.Marks.{marked, numbers};

use ev_forms::node_parts;
use ev_terms::{Ids, NoMemory, Tree, Ty, Tys, bounds_of, types_params};
use std::alloc::Global;

/// The type parameters that occur in the terms or types, in order. Linear in them and in the greatest parameter.
#[tactic(auto, using(crate::proofs::Marking::found))]
pub fn params_of(alloc: Global, trees: &[Tree], types: &Tys) -> Result<Ids, NoMemory>
    ensures { IfOk result (λ ids. ids ≡ params_of trees.now types.now) }
{
    let count = greatest_param(trees).max(types_params(types));
    let marks = with_marks(unmarked(alloc, count)?, trees, types);
    marked_numbers(alloc, marks.as_slice())
}

/// The marks, with those of what occurs in the terms or types.
fn with_marks(marks: Vec<bool>, trees: &[Tree], types: &Tys) -> Vec<bool>
    ensures { result.items ≡ marked 0 (λ j. have_param j types.now) (marked 0 (λ j. mention_param j (terms trees.now)) marks.items) }
{
    let mut marks = marks;
    mark_all(trees, marks.as_mut_slice());
    mark_types(types, marks.as_mut_slice());
    marks
}

/// One more than the greatest type parameter of the terms, or 0.
#[tactic(auto, using(crate::proofs::Marking::greatest))]
fn greatest_param(trees: &[Tree]) -> u64
    ensures { result ≡ all_params (terms trees.now) }
{
    let mut greatest = 0;
    for tree in trees {
        greatest = greatest.max(bounds_of(tree).params);
    }
    greatest
}

fn unmarked(alloc: Global, count: u64) -> Result<Vec<bool>, NoMemory>
    ensures { IfOk result (λ v. v.items ≡ replicate count false) }
{
    let Ok(count) = usize::try_from(count) else {
        return Err(NoMemory);
    };
    let mut marks = Vec::new(alloc);
    marks.resize(count, false)?;
    Ok(marks)
}

/// The numbers that are marked.
#[tactic(auto, using(crate::proofs::Marking::read))]
fn marked_numbers(alloc: Global, marks: &[bool]) -> Result<Ids, NoMemory>
    ensures { IfOk result (λ ids. ids ≡ numbers 0 marks.now) }
{
    let mut ids = Ids::new(alloc);
    for i in 0..marks.len() {
        if marks[i] {
            let Ok(id) = u32::try_from(i) else {
                return Err(NoMemory);
            };
            ids.push(alloc, id)?;
        }
    }
    Ok(ids)
}

/// Marks the type parameters of the term. Parts without any are not walked through.
#[cycle(mark)]
#[tactic(auto, using(crate::proofs::Marking::walk))]
fn mark(tree: &Tree, marks: &mut [bool])
    ensures { marks.new ≡ marked 0 (λ j. mentions_param j tree.now) marks.old }
{
    if bounds_of(tree).params == 0 {
        return;
    }
    if let Some((_, types, children)) = node_parts(tree) {
        mark_types(types, marks);
        mark_all(children, marks);
    }
}

#[cycle(mark)]
#[tactic(auto, using(crate::proofs::Marking::walk))]
fn mark_all(trees: &[Tree], marks: &mut [bool])
    ensures { marks.new ≡ marked 0 (λ j. mention_param j (terms trees.now)) marks.old }
{
    for tree in trees {
        mark(tree, marks);
    }
}

#[cycle(mark_type)]
#[tactic(auto, using(crate::proofs::Marking::types))]
fn mark_type(ty: &Ty, marks: &mut [bool])
    ensures { marks.new ≡ marked 0 (λ j. has_param j ty.now) marks.old }
{
    match ty {
        Ty::Int => {}
        Ty::Bool => {}
        Ty::Prop => {}
        Ty::Param(i) => mark_param(*i as usize, marks),
        Ty::Pow(a) => mark_type(a.get(), marks),
        Ty::Prod(a, b) => {
            mark_type(a.get(), marks);
            mark_type(b.get(), marks);
        }
        Ty::Data(_, types) => mark_types(types, marks),
    }
}

#[cycle(mark_type)]
#[tactic(auto, using(crate::proofs::Marking::types))]
fn mark_types(types: &Tys, marks: &mut [bool])
    ensures { marks.new ≡ marked 0 (λ j. have_param j types.now) marks.old }
{
    let mut left = types;
    while let Tys::More(a, rest) = left {
        mark_type(a.get(), marks);
        left = rest.get();
    }
}

#[tactic(auto, using(crate::proofs::Marking::single))]
fn mark_param(i: usize, marks: &mut [bool])
    ensures { marks.new ≡ marked 0 (λ j. i == j) marks.old }
{
    if i < marks.len() {
        marks[i] = true;
    }
}
