//! Whether a term is a row: the row's steps are undone on it, from the last one on. No term is built.
ghost use Rattle.std.specs.Prelude.{◌≡◌, ◌≢◌, ◌↔◌, ◌++◌, List, [], reverse, length, Some, IsTrue, IfOk, IfSome, IfNone, OnOk};
ghost use Rattle.ev_terms.specs.declared.types.Sym.TheVariants.{Base};
ghost use Rattle.ev_terms.specs.Term.{Term, node, terms};
ghost use Rattle.ev_axioms.specs.inner.Building.{types_of, built};
ghost use Rattle.ev_axioms.specs.inner.Undoing.{IsMadeOf, IsNotMade, IsUndone};

use crate::steps::{Args, Step};
use crate::type_args::make_types;
use ev_forms::node_parts;
use ev_terms::{NoMemory, Same, Sym, Tree, TryCopy};
use std::alloc::Global;

/// The children of the term, where it is this base symbol at these type arguments with so many.
fn children_at<'a>(
    alloc: Global,
    tree: &'a Tree,
    row: u16,
    args: Args,
    count: usize,
) -> Result<Option<&'a [Tree]>, NoMemory>
    ensures found { IfOk result (λ o. IfSome o (λ ts. (tree.now ≡ node (Base row) (types_of args) (terms ts.now)) × (length ts.now ≡ count))) }
    ensures none { IfOk result (λ o. IfNone o ((ts : List Term) → length ts ≡ count → tree.now ≢ node (Base row) (types_of args) (terms ts))) }
{
    let Some((Sym::Base(found), types, children)) = node_parts(tree) else {
        return Ok(None);
    };
    if *found != row {
        return Ok(None);
    }
    if children.len() != count {
        return Ok(None);
    }
    if !types.same(&make_types(alloc, args)?) {
        return Ok(None);
    }
    Ok(Some(children))
}

/// No terms, where the test holds.
fn nothing_if<'a>(holds: bool) -> Option<&'a [Tree]>
    ensures found { IfSome result (λ ts. (ts.now ≡ []) × IsTrue holds) }
    ensures none { IfNone result (¬ IsTrue holds) }
{
    if holds { Some(&[]) } else { None }
}

/// The terms of which the step makes this one, where it does.
fn parts_of<'a>(alloc: Global, tree: &'a Tree, step: Step) -> Result<Option<&'a [Tree]>, NoMemory>
    ensures found { IfOk result (λ o. IfSome o (λ ts. IsMadeOf step tree.now ts.now)) }
    ensures none { IfOk result (λ o. IfNone o (IsNotMade step tree.now)) }
{
    match step {
        Step::Var(i) => Ok(nothing_if(tree.var() == Some(i))),
        Step::Lit(n) => Ok(nothing_if(tree.lit() == Some(u128::from(n)))),
        Step::Leaf(row, args) => children_at(alloc, tree, row, args, 0),
        Step::One(row, args) => children_at(alloc, tree, row, args, 1),
        Step::Two(row, args) => children_at(alloc, tree, row, args, 2),
    }
}

/// Puts copies of the terms on the stack.
fn put_all(stack: &mut Vec<Tree>, alloc: Global, trees: &[Tree]) -> Result<(), NoMemory>
    ensures { OnOk result (stack.new.items ≡ stack.old.items ++ trees.now) }
{
    for tree in trees {
        stack.push(tree.try_copy(alloc)?)?;
    }
    Ok(())
}

/// Undoes a step. The answer is whether it leaves such a stack.
fn undo(alloc: Global, stack: &mut Vec<Tree>, step: Step) -> Result<bool, NoMemory>
    ensures { IfOk result (λ b. IsUndone b step (reverse stack.old.items) (reverse stack.new.items)) }
{
    let Some(last) = stack.pop() else {
        return Ok(false);
    };
    let Some(parts) = parts_of(alloc, &last, step)? else {
        return Ok(false);
    };
    put_all(stack, alloc, parts)?;
    Ok(true)
}

/// Whether the steps build the term. Memory is taken for handles on its parts, and for types.
pub(crate) fn is_built(alloc: Global, tree: &Tree, steps: &[Step]) -> Result<bool, NoMemory>
    ensures { IfOk result (λ b. IsTrue b ↔ (built steps.now [] ≡ Some tree.now)) }
{
    let mut stack = Vec::new(alloc);
    stack.push(tree.try_copy(alloc)?)?;
    let mut left = steps.len();
    while left > 0 {
        left -= 1;
        if !undo(alloc, &mut stack, steps[left])? {
            return Ok(false);
        }
    }
    Ok(stack.is_empty())
}
