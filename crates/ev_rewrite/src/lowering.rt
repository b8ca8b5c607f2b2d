//! Terms from which binders are taken away.
ghost use Rattle.std.specs.Prelude.{◌≡◌, ◌≤◌, ◌^◌, IfOk};
ghost use Rattle.ev_terms.specs.Term.{var, node, terms};
ghost use Rattle.ev_rewrite.specs.inner.Lowered.{IsLowered, AreLowered};

use ev_terms::{NoMemory, Sym, Tree, Trees, TryCopy, Tys, binds, loose, make_node, make_var};
use std::alloc::Global;

/// The term that a shift past so many binders makes this one, or none where it mentions one of them. Parts that mention none are shared.
pub(crate) fn lower(alloc: Global, tree: &Tree, by: u32) -> Result<Option<Tree>, NoMemory>
    ensures { IfOk result (IsLowered 0 by tree.now) }
{
    if by == 0 {
        return Ok(Some(tree.try_copy(alloc)?));
    }
    lower_from(alloc, tree, 0, by)
}

#[cycle(lower)]
fn lower_from(alloc: Global, tree: &Tree, from: u64, by: u32) -> Result<Option<Tree>, NoMemory>
    ensures { IfOk result (IsLowered from by tree.now) }
{
    if loose(tree) <= from {
        return Ok(Some(tree.try_copy(alloc)?));
    }
    if let Some(i) = tree.var() {
        return lower_variable(alloc, i, from, by);
    }
    match tree.sym() {
        None => Ok(Some(tree.try_copy(alloc)?)),
        Some(sym) => match tree.types() {
            None => unreachable!(),
            Some(types) => lower_node(alloc, sym, types, tree.children(), from, by),
        },
    }
}

#[cycle(lower)]
fn lower_node(
    alloc: Global,
    sym: &Sym,
    types: &Tys,
    children: &[Tree],
    from: u64,
    by: u32,
) -> Result<Option<Tree>, NoMemory>
    requires { from ≤ 2 ^ 32 }
    ensures { IfOk result (IsLowered from by (node sym.now types.now (terms children.now))) }
{
    let under = from + u64::from(binds(sym));
    let Some(children) = lower_all(alloc, children, under, by)? else {
        return Ok(None);
    };
    let sym = sym.try_copy(alloc)?;
    let types = types.try_copy(alloc)?;
    Ok(Some(make_node(alloc, sym, types, children)?))
}

#[cycle(lower)]
fn lower_all(alloc: Global, trees: &[Tree], from: u64, by: u32) -> Result<Option<Trees>, NoMemory>
    ensures { IfOk result (AreLowered from by trees.now) }
{
    let mut all = Trees::new(alloc);
    for tree in trees {
        match lower_from(alloc, tree, from, by)? {
            Some(lowered) => all.push(alloc, lowered)?,
            None => return Ok(None),
        }
    }
    Ok(Some(all))
}

fn lower_variable(alloc: Global, i: u32, from: u64, by: u32) -> Result<Option<Tree>, NoMemory>
    requires { from ≤ i }
    ensures { IfOk result (IsLowered from by (var i)) }
{
    if u64::from(i) - from < u64::from(by) {
        return Ok(None);
    }
    Ok(Some(make_var(alloc, i - by)?))
}
