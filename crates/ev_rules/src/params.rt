//! The type parameters of elements.
ghost use Rattle.std.specs.Prelude.{◌≡◌, [], ◌∷◌, ◌++◌, flat_map, IfOk, OnOk};
ghost use Rattle.std.specs.List.{range_with_len};
ghost use Rattle.ev_rules.specs.Params.{branch_terms, element_params, params_of};

use crate::elements::{Branch, Element, InferenceRule, RewriteRule};
use crate::occurring::params_of;
use ev_terms::{Ids, NoMemory, Tree, Trees, TryCopy, Tys};
use std::alloc::Global;

/// An element's type parameters in order, by the numbers that the element itself uses: a datatype, operator or constant has its own,
/// from 0, and an axiom, theorem or rule those of its theory that occur in it. Linear in the element and in the greatest number.
pub fn element_params(alloc: Global, element: &Element) -> Result<Ids, NoMemory>
    ensures { IfOk result (λ ids. ids ≡ element_params element.now) }
{
    match element {
        Element::Import(_) | Element::Params(_) => Ok(Ids::new(alloc)),
        Element::Data(decl) => first_numbers(alloc, decl.params),
        Element::Direct(signature, _, _)
        | Element::Recursive(signature, _, _, _)
        | Element::Constant(signature, _) => first_numbers(alloc, signature.params),
        Element::Axiom(_, formula) | Element::Theorem(_, formula) => {
            let formulas = one_tree(alloc, formula)?;
            params_of(alloc, formulas.as_slice(), &Tys::Empty)
        }
        Element::Rewrite(rule) => {
            let formulas = rewrite_formulas(alloc, rule)?;
            params_of(alloc, formulas.as_slice(), &rule.vars)
        }
        Element::Inference(rule) => {
            let formulas = inference_formulas(alloc, rule)?;
            params_of(alloc, formulas.as_slice(), &rule.vars)
        }
    }
}

/// The numbers below n.
#[tactic(auto, using(crate::proofs::Numbering::ranges))]
fn first_numbers(alloc: Global, n: u32) -> Result<Ids, NoMemory>
    ensures { IfOk result (λ ids. ids ≡ range_with_len 0 n) }
{
    let mut ids = Ids::new(alloc);
    for i in 0..n {
        ids.push(alloc, i)?;
    }
    Ok(ids)
}

fn one_tree(alloc: Global, tree: &Tree) -> Result<Trees, NoMemory>
    ensures { IfOk result (λ ts. ts ≡ tree.now ∷ []) }
{
    let mut trees = Trees::new(alloc);
    trees.push(alloc, tree.try_copy(alloc)?)?;
    Ok(trees)
}

/// The left side, and of each branch the condition and the right side.
#[tactic(auto, using(crate::proofs::Numbering::gathered))]
fn rewrite_formulas(alloc: Global, rule: &RewriteRule) -> Result<Trees, NoMemory>
    ensures { IfOk result (λ ts. ts ≡ rule.now.left ∷ flat_map branch_terms rule.now.branches) }
{
    let mut trees = one_tree(alloc, &rule.left)?;
    for branch in rule.branches.as_slice() {
        push_branch(alloc, &mut trees, branch)?;
    }
    Ok(trees)
}

fn push_branch(alloc: Global, trees: &mut Trees, branch: &Branch) -> Result<(), NoMemory>
    ensures { OnOk result (trees.new ≡ trees.old ++ branch_terms branch.now) }
{
    if let Some(condition) = &branch.condition {
        trees.push(alloc, condition.try_copy(alloc)?)?;
    }
    trees.push(alloc, branch.right.try_copy(alloc)?)
}

/// The conclusion and the premises.
#[tactic(auto, using(crate::proofs::Numbering::gathered))]
fn inference_formulas(alloc: Global, rule: &InferenceRule) -> Result<Trees, NoMemory>
    ensures { IfOk result (λ ts. ts ≡ rule.now.conclusion ∷ rule.now.givens) }
{
    let mut trees = one_tree(alloc, &rule.conclusion)?;
    for given in rule.givens.as_slice() {
        trees.push(alloc, given.try_copy(alloc)?)?;
    }
    Ok(trees)
}
