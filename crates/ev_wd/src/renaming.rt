//! Terms under binders of which some are dropped.
ghost use Rattle.std.specs.Prelude.{◌≡◌, ◌≤◌, map, IfOk};
ghost use Rattle.ev_terms.specs.Term.{node, terms};
ghost use Rattle.ev_terms.specs.Substitution.{inst, lifts};
ghost use Rattle.ev_wd.specs.inner.Renaming.{new_number, renaming};

use ev_forms::node_parts;
use ev_terms::{NoMemory, Sym, Tree, Trees, TryCopy, Tys, binds, loose, make_node, make_var};
use std::alloc::Global;

/// The number of a variable without the binders that are not kept. The innermost binder comes first.
#[tactic(auto, using(crate::proofs::Renamings::numbers))]
fn new_number(kept: &[bool], i: u32) -> u32
    ensures is { result ≡ new_number kept.now i }
    ensures falls { result ≤ i }
{
    match kept {
        [] => i,
        [is_kept, rest @ ..] => if !*is_kept {
            new_number(rest, i.saturating_sub(1))
        } else if i == 0 {
            0
        } else {
            new_number(rest, i - 1) + 1
        },
    }
}

/// The term without the binders around it that are not kept. It takes no more room than the term: no number of a variable rises.
pub(crate) fn renamed(alloc: Global, tree: &Tree, kept: &[bool]) -> Result<Tree, NoMemory>
    ensures { IfOk result (λ t. t ≡ inst (renaming kept.now) tree.now) }
{
    if kept.is_empty() {
        tree.try_copy(alloc)
    } else {
        renamed_under(alloc, tree, 0, kept)
    }
}

#[cycle(renamed)]
#[tactic(auto, using(crate::proofs::Renamings::walk))]
fn renamed_under(alloc: Global, tree: &Tree, under: u64, kept: &[bool]) -> Result<Tree, NoMemory>
    ensures { IfOk result (λ t. t ≡ inst (lifts under (renaming kept.now)) tree.now) }
{
    if loose(tree) <= under {
        return tree.try_copy(alloc);
    }
    match node_parts(tree) {
        Some((sym, types, children)) => renamed_node(alloc, sym, types, children, under, kept),
        None => match tree.var() {
            Some(i) => renamed_variable(alloc, i, under, kept),
            None => tree.try_copy(alloc),
        },
    }
}

#[cycle(renamed)]
#[tactic(auto, using(crate::proofs::Renamings::walk))]
fn renamed_node(
    alloc: Global,
    sym: &Sym,
    types: &Tys,
    children: &[Tree],
    under: u64,
    kept: &[bool],
) -> Result<Tree, NoMemory>
    requires { under ≤ 4294967296 }
    ensures { IfOk result (λ t. t ≡ inst (lifts under (renaming kept.now)) (node sym.now types.now (terms children.now))) }
{
    let children = renamed_all(alloc, children, under + u64::from(binds(sym)), kept)?;
    let sym = sym.try_copy(alloc)?;
    let types = types.try_copy(alloc)?;
    make_node(alloc, sym, types, children)
}

#[cycle(renamed)]
#[tactic(auto, using(crate::proofs::Renamings::walk))]
fn renamed_all(alloc: Global, trees: &[Tree], under: u64, kept: &[bool]) -> Result<Trees, NoMemory>
    ensures { IfOk result (λ ts. ts ≡ map (inst (lifts under (renaming kept.now))) trees.now) }
{
    let mut all = Trees::new(alloc);
    for tree in trees {
        all.push(alloc, renamed_under(alloc, tree, under, kept)?)?;
    }
    Ok(all)
}

#[tactic(auto, using(crate::proofs::Renamings::variables))]
fn renamed_variable(alloc: Global, i: u32, under: u64, kept: &[bool]) -> Result<Tree, NoMemory>
    requires { under ≤ i }
    ensures { IfOk result (λ t. t ≡ lifts under (renaming kept.now) i) }
{
    let under = under as u32;
    make_var(alloc, under + new_number(kept, i - under))
}
