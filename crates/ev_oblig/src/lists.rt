//! Lists of types and terms, and what is made of them.
ghost use Rattle.std.specs.Prelude.{◌≡◌, ◌+◌, ◌++◌, IfOk, OnOk, reverse};
ghost use Rattle.ev_terms.specs.Substitution.{fill};
ghost use Rattle.ev_forms.specs.Forms.{call};

use ev_terms::{
    Name, NoMemory, Sym, Tree, Trees, TryCopy, Ty, Tys, make_node, substitute, substitute_fits,
};
use std::alloc::Global;

/// Appends copies of the types.
pub(crate) fn push_types(all: &mut Vec<Ty>, alloc: Global, types: &[Ty]) -> Result<(), NoMemory>
    ensures { OnOk result (all.new.items ≡ all.old.items ++ types.now) }
{
    for ty in types {
        all.push(ty.try_copy(alloc)?)?;
    }
    Ok(())
}

/// Appends copies of the terms.
pub(crate) fn push_trees(all: &mut Trees, alloc: Global, trees: &[Tree]) -> Result<(), NoMemory>
    ensures { OnOk result (all.new ≡ all.old ++ trees.now) }
{
    for tree in trees {
        all.push(alloc, tree.try_copy(alloc)?)?;
    }
    Ok(())
}

/// The terms from the last to the first.
#[tactic(auto, using(ev_wd::proofs::Destructing::backwards))]
fn reversed(alloc: Global, trees: &[Tree]) -> Result<Trees, NoMemory>
    ensures { IfOk result (λ ts. ts ≡ reverse trees.now) }
{
    let mut all = Trees::new(alloc);
    let mut left = trees.len();
    while left > 0 {
        left -= 1;
        all.push(alloc, trees[left].try_copy(alloc)?)?;
    }
    Ok(all)
}

/// The term with the arguments put in, the first for the outermost variable.
pub(crate) fn put_all(alloc: Global, tree: &Tree, args: &[Tree]) -> Result<Tree, NoMemory>
    ensures { IfOk result (λ t. t ≡ fill tree.now args.now) }
{
    let terms = reversed(alloc, args)?;
    if !substitute_fits(tree, &terms) {
        return Err(NoMemory);
    }
    substitute(alloc, tree, &terms)
}

/// A constructor at types on arguments.
pub(crate) fn call_of(
    alloc: Global,
    name: &Name,
    types: &Tys,
    args: Trees,
) -> Result<Tree, NoMemory>
    ensures { IfOk result (λ t. t ≡ call name.now types.now args) }
{
    let sym = Sym::User(name.try_copy(alloc)?);
    make_node(alloc, sym, types.try_copy(alloc)?, args)
}

/// The number after i.
pub(crate) fn number_after(i: usize) -> Result<u32, NoMemory>
    ensures { IfOk result (λ n. n ≡ i + 1) }
{
    let Ok(i) = u32::try_from(i) else {
        return Err(NoMemory);
    };
    if i == u32::MAX {
        return Err(NoMemory);
    }
    Ok(i + 1)
}
