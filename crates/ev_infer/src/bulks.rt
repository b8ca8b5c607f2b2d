//! How large types are, before they are built.
ghost use Rattle.std.specs.Prelude.{◌≡◌, ◌↔◌, ◌<◌, ◌^◌, IsTrue};
ghost use Rattle.ev_infer.specs.Equations.{same_pattern};
ghost use Rattle.ev_infer.specs.inner.Bulks.{bulk, above, beside, type_bulk, types_bulk, pat_bulk, pats_bulk, bulk_at, IsWithin};

use ev_terms::{Extent, Ty, Tys};
use ev_unify::{Pat, Pats};

/// A number of nodes, and that of the longest path. Both stand still at the end of their type, far above the limits that are asked.
#[derive(Clone, Copy, Drop)]
pub struct Bulk {
    pub size: u128,
    pub depth: u128,
}

pub(crate) const NOTHING: Bulk = Bulk { size: 0, depth: 0 };

pub(crate) fn above(inner: Bulk) -> Bulk
    ensures { result ≡ above inner }
{
    Bulk {
        size: inner.size.saturating_add(1),
        depth: inner.depth.saturating_add(1),
    }
}

pub(crate) fn beside(a: Bulk, b: Bulk) -> Bulk
    ensures { result ≡ beside a b }
{
    Bulk {
        size: a.size.saturating_add(b.size),
        depth: a.depth.max(b.depth),
    }
}

pub(crate) fn is_within(bulk: Bulk, limit: &Extent) -> bool
    ensures is { IsTrue result ↔ IsWithin bulk limit.now }
    ensures size { limit.now.size < 2 ^ 64 }
    ensures depth { limit.now.depth < 2 ^ 64 }
{
    let size = u128::from(limit.size);
    let depth = u128::from(limit.depth);
    bulk.size <= size && bulk.depth <= depth
}

/// Linear in the type.
#[cycle(type_bulk)]
#[tactic(auto, using(crate::proofs::BulkSteps::types))]
pub(crate) fn type_bulk(ty: &Ty) -> Bulk
    ensures { result ≡ type_bulk ty.now }
{
    match ty {
        Ty::Int | Ty::Bool | Ty::Prop | Ty::Param(_) => Bulk { size: 1, depth: 1 },
        Ty::Pow(a) => above(type_bulk(a.get())),
        Ty::Prod(a, b) => above(beside(type_bulk(a.get()), type_bulk(b.get()))),
        Ty::Data(_, types) => above(types_bulk(types)),
    }
}

#[cycle(type_bulk)]
#[tactic(auto, using(crate::proofs::BulkSteps::types))]
fn types_bulk(types: &Tys) -> Bulk
    ensures { result ≡ types_bulk types.now }
{
    let mut all = NOTHING;
    let mut left = types;
    while let Tys::More(a, rest) = left {
        all = beside(all, type_bulk(a.get()));
        left = rest.get();
    }
    all
}

/// Of a pattern, from the table of its unknowns. Linear in the pattern.
#[cycle(pat_bulk)]
#[tactic(auto, using(crate::proofs::BulkSteps::patterns))]
pub(crate) fn pat_bulk(pat: &Pat, bulks: &[Bulk]) -> Bulk
    ensures { result ≡ pat_bulk (bulk_at bulks.now) pat.now }
{
    match pat {
        Pat::Int | Pat::Bool | Pat::Param(_) => Bulk { size: 1, depth: 1 },
        Pat::Pow(a) => above(pat_bulk(a.get(), bulks)),
        Pat::Prod(a, b) => above(beside(pat_bulk(a.get(), bulks), pat_bulk(b.get(), bulks))),
        Pat::Data(_, list) => above(pats_bulk(list, bulks)),
        Pat::Unknown(u) => unknown_bulk(bulks, *u),
    }
}

#[cycle(pat_bulk)]
#[tactic(auto, using(crate::proofs::BulkSteps::patterns))]
fn pats_bulk(list: &Pats, bulks: &[Bulk]) -> Bulk
    ensures { result ≡ pats_bulk (bulk_at bulks.now) list.now }
{
    let mut all = NOTHING;
    let mut left = list;
    while let Pats::More(a, rest) = left {
        all = beside(all, pat_bulk(a.get(), bulks));
        left = rest.get();
    }
    all
}

#[tactic(auto, using(crate::proofs::BulkSteps::unknowns))]
pub(crate) fn unknown_bulk(bulks: &[Bulk], unknown: u128) -> Bulk
    ensures { result ≡ bulk_at bulks.now unknown }
{
    if unknown < bulks.len() as u128 {
        bulks[unknown as usize]
    } else {
        NOTHING
    }
}
