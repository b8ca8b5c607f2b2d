ghost use Rattle.std.specs.Prelude.{◌≡◌, ◌≤◌, ◌+◌, ◌^◌, max};
ghost use Rattle.ev_terms.specs.Term.{node, terms};
ghost use Rattle.ev_terms.specs.inner.View.{Bound, BoundAll};
ghost use Rattle.ev_terms.specs.Measures.{loose, size, sizes, depth, depths, type_size, types_size, type_depth, types_depth, type_params, types_params, capped};

use super::{App, Node, Tree};
use crate::extents::{Bounds, Extent};
use crate::types::{Sym, Ty, Tys, binds};

/// What is kept of the term, in constant time.
pub fn bounds_of(tree: &Tree) -> Bounds
    ensures { Bound result tree.now }
{
    match &tree.node {
        Node::Var(i) => Bounds {
            loose: u64::from(*i) + 1,
            size: 1,
            depth: 1,
            params: 0,
        },
        Node::Lit(_) => Bounds {
            loose: 0,
            size: 1,
            depth: 1,
            params: 0,
        },
        Node::Sym(app) => {
            let App::Of(bounds, _, _, _) = app.get();
            *bounds
        }
    }
}

/// One more than the greatest variable that reaches outside, or 0. In constant time.
pub fn loose(tree: &Tree) -> u64
    ensures is { result ≡ loose tree.now }
    ensures small { result ≤ 2 ^ 32 }
{
    bounds_of(tree).loose
}

/// Size and depth of a term, in constant time.
pub fn extent(tree: &Tree) -> Extent
    ensures { result ≡ record { size = capped (size tree.now); depth = capped (depth tree.now) } }
{
    let bounds = bounds_of(tree);
    Extent {
        size: bounds.size,
        depth: bounds.depth,
    }
}

/// The sum of the sizes and the greatest depth of some terms, linear in their number.
pub fn trees_extent(trees: &[Tree]) -> Extent
    ensures { result ≡ record { size = capped (sizes (terms trees.now)); depth = capped (depths (terms trees.now)) } }
{
    let bounds = bounds_of_all(trees);
    Extent {
        size: bounds.size,
        depth: bounds.depth,
    }
}

pub(super) fn bounds_of_node(sym: &Sym, types: &Tys, children: &[Tree]) -> Bounds
    ensures { Bound result (node sym.now types.now (terms children.now)) }
{
    let own = types_extent(types);
    let all = bounds_of_all(children);
    Bounds {
        loose: all.loose.saturating_sub(u64::from(binds(sym))),
        size: all.size.saturating_add(own.size).saturating_add(1),
        depth: all.depth.max(own.depth).saturating_add(1),
        params: all.params.max(types_params(types)),
    }
}

#[tactic(auto, using(crate::proofs::Children::walk))]
pub(super) fn bounds_of_all(trees: &[Tree]) -> Bounds
    ensures { BoundAll result trees.now }
{
    let mut all = Bounds {
        loose: 0,
        size: 0,
        depth: 0,
        params: 0,
    };
    for tree in trees {
        let one = bounds_of(tree);
        all = Bounds {
            loose: all.loose.max(one.loose),
            size: all.size.saturating_add(one.size),
            depth: all.depth.max(one.depth),
            params: all.params.max(one.params),
        };
    }
    all
}

fn above(extent: Extent) -> Extent
    ensures { result ≡ record { size = capped (1 + extent.size); depth = capped (1 + extent.depth) } }
{
    Extent {
        size: extent.size.saturating_add(1),
        depth: extent.depth.saturating_add(1),
    }
}

fn beside(a: Extent, b: Extent) -> Extent
    ensures { result ≡ record { size = capped (a.size + b.size); depth = max a.depth b.depth } }
{
    Extent {
        size: a.size.saturating_add(b.size),
        depth: a.depth.max(b.depth),
    }
}

/// Size and depth of a type, linear in its size.
#[cycle(type_extent)]
#[tactic(auto, using(crate::proofs::Children::types_walk))]
pub fn type_extent(ty: &Ty) -> Extent
    ensures { result ≡ record { size = capped (type_size ty.now); depth = capped (type_depth ty.now) } }
{
    match ty {
        Ty::Int | Ty::Bool | Ty::Prop | Ty::Param(_) => Extent { size: 1, depth: 1 },
        Ty::Pow(a) => above(type_extent(a.get())),
        Ty::Prod(a, b) => above(beside(type_extent(a.get()), type_extent(b.get()))),
        Ty::Data(_, types) => above(types_extent(types)),
    }
}

/// The sum of the sizes and the greatest depth of some types.
#[cycle(type_extent)]
#[tactic(auto, using(crate::proofs::Children::types_walk))]
pub fn types_extent(types: &Tys) -> Extent
    ensures { result ≡ record { size = capped (types_size types.now); depth = capped (types_depth types.now) } }
{
    let mut all = Extent { size: 0, depth: 0 };
    let mut left = types;
    while let Tys::More(ty, rest) = left {
        all = beside(all, type_extent(ty.get()));
        left = rest.get();
    }
    all
}

/// One more than the greatest type parameter of a type, or 0.
#[cycle(type_params)]
#[tactic(auto, using(crate::proofs::Children::types_walk))]
pub fn type_params(ty: &Ty) -> u64
    ensures { result ≡ type_params ty.now }
{
    match ty {
        Ty::Int | Ty::Bool | Ty::Prop => 0,
        Ty::Param(i) => u64::from(*i) + 1,
        Ty::Pow(a) => type_params(a.get()),
        Ty::Prod(a, b) => type_params(a.get()).max(type_params(b.get())),
        Ty::Data(_, types) => types_params(types),
    }
}

/// The greatest of `type_params` over some types.
#[cycle(type_params)]
#[tactic(auto, using(crate::proofs::Children::types_walk))]
pub fn types_params(types: &Tys) -> u64
    ensures { result ≡ types_params types.now }
{
    let mut all = 0;
    let mut left = types;
    while let Tys::More(ty, rest) = left {
        all = type_params(ty.get()).max(all);
        left = rest.get();
    }
    all
}
