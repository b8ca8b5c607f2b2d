ghost use Rattle.std.specs.Prelude.{◌≡◌, ◌≤◌, ◌+◌, ◌^◌, map, IfOk};
ghost use Rattle.ev_terms.specs.Term.{node, terms};
ghost use Rattle.ev_terms.specs.Measures.{highest, all_highest};
ghost use Rattle.ev_terms.specs.Substitution.{shift, shifts, inst, insts, lifts, entry, substitute};

use super::measures::loose;
use super::{App, Node, Tree, Trees, make_node, make_var};
use crate::types::{Sym, Tys, binds};
use crate::values::{NoMemory, TryCopy};
use std::alloc::Global;

/// Variables from `from` on are raised by `by`. Parts with no such variable are shared.
pub fn shift(alloc: Global, tree: &Tree, from: u32, by: u32) -> Result<Tree, NoMemory>
    requires { highest (shift tree.now from by) ≤ 2 ^ 32 }
    ensures { IfOk result (λ t. t ≡ shift tree.now from by) }
{
    shift_from(alloc, tree, u64::from(from), by)
}

#[cycle(shift)]
#[tactic(auto, using(crate::proofs::Shifts::walk))]
fn shift_from(alloc: Global, tree: &Tree, from: u64, by: u32) -> Result<Tree, NoMemory>
    requires { highest (shift tree.now from by) ≤ 2 ^ 32 }
    ensures { IfOk result (λ t. t ≡ shift tree.now from by) }
{
    if loose(tree) <= from {
        return tree.try_copy(alloc);
    }
    match &tree.node {
        Node::Var(i) => make_var(alloc, *i + by),
        Node::Lit(_) => tree.try_copy(alloc),
        Node::Sym(app) => {
            let App::Of(_, sym, types, children) = app.get();
            let under = from + u64::from(binds(sym));
            let children = shift_all(alloc, children.as_slice(), under, by)?;
            let sym = sym.try_copy(alloc)?;
            let types = types.try_copy(alloc)?;
            make_node(alloc, sym, types, children)
        }
    }
}

#[cycle(shift)]
#[tactic(auto, using(crate::proofs::Shifts::walk))]
fn shift_all(alloc: Global, trees: &[Tree], from: u64, by: u32) -> Result<Trees, NoMemory>
    requires { all_highest (shifts (terms trees.now) from by) ≤ 2 ^ 32 }
    ensures { IfOk result (λ ts. ts ≡ map (λ t. shift t from by) trees.now) }
{
    let mut all = Trees::new(alloc);
    for tree in trees {
        all.push(alloc, shift_from(alloc, tree, from, by)?)?;
    }
    Ok(all)
}

/// Variable i becomes the i-th term for i below the length of `terms`, and later ones fall by the length. Closed parts are shared.
pub fn substitute(alloc: Global, tree: &Tree, terms: &Trees) -> Result<Tree, NoMemory>
    requires { highest (substitute tree.now terms.now) ≤ 2 ^ 32 }
    ensures { IfOk result (λ t. t ≡ substitute tree.now terms.now) }
{
    substitute_under(alloc, tree, 0, terms.as_slice())
}

#[cycle(substitute)]
#[tactic(auto, using(crate::proofs::Shifts::walk))]
fn substitute_under(
    alloc: Global,
    tree: &Tree,
    depth: u64,
    entries: &[Tree],
) -> Result<Tree, NoMemory>
    requires { highest (inst (lifts depth (entry entries.now)) tree.now) ≤ 2 ^ 32 }
    ensures { IfOk result (λ t. t ≡ inst (lifts depth (entry entries.now)) tree.now) }
{
    if loose(tree) <= depth {
        return tree.try_copy(alloc);
    }
    match &tree.node {
        Node::Var(i) => substitute_variable(alloc, *i, depth, entries),
        Node::Lit(_) => tree.try_copy(alloc),
        Node::Sym(app) => {
            let App::Of(_, sym, types, children) = app.get();
            substitute_node(alloc, sym, types, children.as_slice(), depth, entries)
        }
    }
}

#[cycle(substitute)]
#[tactic(auto, using(crate::proofs::Shifts::walk))]
fn substitute_node(
    alloc: Global,
    sym: &Sym,
    types: &Tys,
    children: &[Tree],
    depth: u64,
    entries: &[Tree],
) -> Result<Tree, NoMemory>
    requires shallow { depth ≤ 2 ^ 32 }
    requires fits { highest (inst (lifts depth (entry entries.now)) (node sym.now types.now (terms children.now))) ≤ 2 ^ 32 }
    ensures { IfOk result (λ t. t ≡ inst (lifts depth (entry entries.now)) (node sym.now types.now (terms children.now))) }
{
    let under = depth + u64::from(binds(sym));
    let children = substitute_all(alloc, children, under, entries)?;
    let sym = sym.try_copy(alloc)?;
    let types = types.try_copy(alloc)?;
    make_node(alloc, sym, types, children)
}

#[cycle(substitute)]
#[tactic(auto, using(crate::proofs::Shifts::walk))]
fn substitute_all(
    alloc: Global,
    trees: &[Tree],
    depth: u64,
    entries: &[Tree],
) -> Result<Trees, NoMemory>
    requires { all_highest (insts (lifts depth (entry entries.now)) (terms trees.now)) ≤ 2 ^ 32 }
    ensures { IfOk result (λ ts. ts ≡ map (inst (lifts depth (entry entries.now))) trees.now) }
{
    let mut all = Trees::new(alloc);
    for tree in trees {
        all.push(alloc, substitute_under(alloc, tree, depth, entries)?)?;
    }
    Ok(all)
}

#[tactic(auto, using(crate::proofs::Shifts::variables))]
fn substitute_variable(
    alloc: Global,
    i: u32,
    depth: u64,
    entries: &[Tree],
) -> Result<Tree, NoMemory>
    requires open { depth ≤ i }
    requires fits { highest (lifts depth (entry entries.now) i) ≤ 2 ^ 32 }
    ensures { IfOk result (λ t. t ≡ lifts depth (entry entries.now) i) }
{
    let depth = depth as u32;
    let at = (i - depth) as usize;
    if at < entries.len() {
        shift_from(alloc, &entries[at], 0, depth)
    } else {
        make_var(alloc, i - entries.len() as u32)
    }
}
