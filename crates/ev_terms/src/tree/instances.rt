ghost use Rattle.std.specs.Prelude.{◌≡◌, ◌↔◌, map, IsTrue, IfOk};
ghost use Rattle.ev_terms.specs.Substitution.{retype, type_at, instance};

use super::measures::bounds_of;
use super::{App, Node, Tree, Trees, make_node};
use crate::types::{Tys, instantiate_list};
use crate::values::{NoMemory, Same, TryCopy};
use std::alloc::Global;

/// Parameter i becomes the i-th type; parameters past the list stay. Parts with no parameter are shared.
#[cycle(instantiate)]
#[tactic(auto, using(crate::proofs::Shifts::walk))]
pub fn instantiate_types(alloc: Global, tree: &Tree, types: &Tys) -> Result<Tree, NoMemory>
    ensures { IfOk result (λ t. t ≡ instance tree.now types.now) }
{
    if bounds_of(tree).params == 0 {
        return tree.try_copy(alloc);
    }
    match &tree.node {
        Node::Var(_) | Node::Lit(_) => tree.try_copy(alloc),
        Node::Sym(app) => {
            let App::Of(_, sym, list, children) = app.get();
            let sym = sym.try_copy(alloc)?;
            let list = instantiate_list(alloc, list, types)?;
            let children = instantiate_all(alloc, children.as_slice(), types)?;
            make_node(alloc, sym, list, children)
        }
    }
}

#[cycle(instantiate)]
#[tactic(auto, using(crate::proofs::Shifts::walk))]
fn instantiate_all(alloc: Global, trees: &[Tree], types: &Tys) -> Result<Trees, NoMemory>
    ensures { IfOk result (λ ts. ts ≡ map (retype (type_at types.now)) trees.now) }
{
    let mut all = Trees::new(alloc);
    for tree in trees {
        all.push(alloc, instantiate_types(alloc, tree, types)?)?;
    }
    Ok(all)
}

/// Whether two terms are one. Terms that differ in size, depth or bounds differ at the root.
#[cycle(same)]
#[tactic(auto, using(crate::proofs::Shifts::walk))]
pub fn same(a: &Tree, b: &Tree) -> bool
    ensures { IsTrue result ↔ (a.now ≡ b.now) }
{
    match (&a.node, &b.node) {
        (Node::Var(i), Node::Var(j)) => *i == *j,
        (Node::Lit(m), Node::Lit(n)) => *m == *n,
        (Node::Sym(app), Node::Sym(other)) => {
            let App::Of(m, s, types, children) = app.get();
            let App::Of(n, t, others, descendants) = other.get();
            if *m != *n || !s.same(t) || !types.same(others) {
                return false;
            }
            same_all(children.as_slice(), descendants.as_slice())
        }
        _ => false,
    }
}

/// Whether two slices have the same terms.
#[cycle(same)]
#[tactic(auto, using(crate::proofs::Shifts::walk))]
pub fn same_all(trees: &[Tree], others: &[Tree]) -> bool
    ensures { IsTrue result ↔ (trees.now ≡ others.now) }
{
    if trees.len() != others.len() {
        return false;
    }
    for i in 0..trees.len() {
        if !same(&trees[i], &others[i]) {
            return false;
        }
    }
    true
}
