//! Builds a row from its steps.
ghost use Rattle.std.specs.Prelude.{◌≡◌, [], ◌∷◌, reverse, true, Some, None, if◌then◌else◌, IfOk};
ghost use Rattle.ev_terms.specs.declared.types.Sym.TheVariants.{Base};
ghost use Rattle.ev_terms.specs.Term.{node, terms};
ghost use Rattle.ev_axioms.specs.declared.steps.Step.TheVariants as step;
ghost use Rattle.ev_axioms.specs.inner.Building.{types_of, stepped, only, built};

use crate::steps::{Args, Step};
use crate::type_args::make_types;
use ev_terms::{NoMemory, Sym, Tree, Trees, make_lit, make_node, make_var};
use std::alloc::Global;

fn make_base(alloc: Global, row: u16, args: Args, children: Trees) -> Result<Tree, NoMemory>
    ensures { IfOk result (λ t. t ≡ node (Base row) (types_of args) (terms children)) }
{
    let types = make_types(alloc, args)?;
    make_node(alloc, Sym::Base(row), types, children)
}

/// A symbol on the last term. The answer is whether there is one.
fn put_one(alloc: Global, stack: &mut Vec<Tree>, row: u16, args: Args) -> Result<bool, NoMemory>
    ensures { IfOk result (λ b. stepped (step.One row args) (reverse stack.old.items) ≡ (if b then Some (reverse stack.new.items) else None)) }
{
    let Some(child) = stack.pop() else {
        return Ok(false);
    };
    let mut children = Trees::new(alloc);
    children.push(alloc, child)?;
    stack.push(make_base(alloc, row, args, children)?)?;
    Ok(true)
}

/// A symbol on the last two terms. The answer is whether there are two.
fn put_two(alloc: Global, stack: &mut Vec<Tree>, row: u16, args: Args) -> Result<bool, NoMemory>
    ensures { IfOk result (λ b. stepped (step.Two row args) (reverse stack.old.items) ≡ (if b then Some (reverse stack.new.items) else None)) }
{
    let Some(right) = stack.pop() else {
        return Ok(false);
    };
    let Some(left) = stack.pop() else {
        return Ok(false);
    };
    let mut children = Trees::new(alloc);
    children.push(alloc, left)?;
    children.push(alloc, right)?;
    stack.push(make_base(alloc, row, args, children)?)?;
    Ok(true)
}

/// Puts a term on the stack.
fn put(stack: &mut Vec<Tree>, tree: Tree) -> Result<bool, NoMemory>
    ensures { IfOk result (λ b. (b ≡ true) × (reverse stack.new.items ≡ tree ∷ reverse stack.old.items)) }
{
    stack.push(tree)?;
    Ok(true)
}

/// Takes a step. The answer is whether the stack has the terms that it takes.
fn take_step(alloc: Global, stack: &mut Vec<Tree>, step: Step) -> Result<bool, NoMemory>
    ensures { IfOk result (λ b. stepped step (reverse stack.old.items) ≡ (if b then Some (reverse stack.new.items) else None)) }
{
    match step {
        Step::Var(i) => put(stack, make_var(alloc, i)?),
        Step::Lit(n) => put(stack, make_lit(alloc, u128::from(n))?),
        Step::Leaf(row, args) => put(stack, make_base(alloc, row, args, Trees::new(alloc))?),
        Step::One(row, args) => put_one(alloc, stack, row, args),
        Step::Two(row, args) => put_two(alloc, stack, row, args),
    }
}

/// The only term of a stack.
fn only_of(stack: Vec<Tree>) -> Option<Tree>
    ensures { result ≡ only (reverse stack.items) }
{
    let mut rest = stack;
    let last = rest.pop();
    if rest.is_empty() { last } else { None }
}

/// What the steps build: none where a step lacks terms, or other than one term is left.
pub(crate) fn build(alloc: Global, steps: &[Step]) -> Result<Option<Tree>, NoMemory>
    ensures { IfOk result (λ o. o ≡ built steps.now []) }
{
    let mut stack = Vec::new(alloc);
    for step in steps {
        if !take_step(alloc, &mut stack, *step)? {
            return Ok(None);
        }
    }
    Ok(only_of(stack))
}
