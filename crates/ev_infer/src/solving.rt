//! The types of all unknowns by a solution.
ghost use Rattle.std.specs.Prelude.{◌≡◌, ◌≢◌, ◌<◌, ◌+◌, ◌∷◌, ◌++◌, [], ℕ, true, false, length, slice_index, slice_get, Some, IfOk, OnOk, MatchBool};
ghost use Rattle.ev_terms.specs.declared.types.Ty.{Ty};
ghost use Rattle.ev_unify.specs.declared.patterns.Bind.{Bind};
ghost use Rattle.ev_unify.specs.Patterns.{value, values, has_unknown, have_unknown};
ghost use Rattle.ev_unify.specs.declared.patterns.Pat.{Unknown};
ghost use Rattle.ev_infer.specs.inner.Bulks.{pat_bulk, bulk_at, type_at_unknown};
ghost use Rattle.ev_infer.specs.inner.Solving.{IsScan, IsScanAll};
ghost use Rattle.ev_typing.specs.TypeLists.{types as type_row};

use crate::bulks::{Bulk, NOTHING, is_within, pat_bulk};
use ev_terms::{Extent, NoMemory, Shared, TryCopy, Ty, Tys};
use ev_unify::{Bind, Pat, Pats, Solution};
use std::alloc::Global;

/// How far the walk is with an unknown: it is bound to nothing, or by a bind that no walk has come to, or the walk is in it, or its
/// type is known.
#[derive(Clone, Copy, Drop)]
pub(crate) enum Mark {
    Free,
    Bound(usize),
    Open,
    Done,
}

/// An unknown on the walk's way down, and its bind.
#[derive(Clone, Copy, Drop)]
pub(crate) struct Visit {
    pub(crate) unknown: usize,
    pub(crate) bind: usize,
}

/// What a pattern's unknowns are: some is free; this one is bound and no walk has come to it; or walks have come to all.
#[derive(Clone, Copy, Drop)]
pub(crate) enum Scan {
    Free,
    Next(Visit),
    Visited,
}

/// The types of unknowns, and how large they are. Types that are too large are not built.
#[derive(Drop)]
pub(crate) struct Table {
    pub(crate) bulks: Vec<Bulk>,
    pub(crate) types: Vec<Ty>,
}

#[cycle(look)]
#[tactic(auto, using(crate::proofs::SolvingSteps::scanning))]
pub(crate) fn look_at(pat: &Pat, marks: &[Mark]) -> Scan
    ensures { IsScan pat.now marks.now result }
{
    match pat {
        Pat::Int | Pat::Bool | Pat::Param(_) => Scan::Visited,
        Pat::Pow(a) => look_at(a.get(), marks),
        Pat::Prod(a, b) => match look_at(a.get(), marks) {
            Scan::Visited => look_at(b.get(), marks),
            found => found,
        },
        Pat::Data(_, list) => look_at_all(list, marks),
        Pat::Unknown(u) => look_at_unknown(*u, marks),
    }
}

#[cycle(look)]
#[tactic(auto, using(crate::proofs::SolvingSteps::scanning))]
fn look_at_all(list: &Pats, marks: &[Mark]) -> Scan
    ensures { IsScanAll list.now marks.now result }
{
    let mut left = list;
    while let Pats::More(a, rest) = left {
        match look_at(a.get(), marks) {
            Scan::Visited => left = rest.get(),
            found => return found,
        }
    }
    Scan::Visited
}

#[tactic(auto, using(crate::proofs::SolvingSteps::scanning))]
fn look_at_unknown(unknown: u128, marks: &[Mark]) -> Scan
    ensures { IsScan (Unknown unknown) marks.now result }
{
    if unknown >= marks.len() as u128 {
        return Scan::Visited;
    }
    let unknown = unknown as usize;
    match marks[unknown] {
        Mark::Free => Scan::Free,
        Mark::Bound(bind) => Scan::Next(Visit { unknown, bind }),
        Mark::Open | Mark::Done => Scan::Visited,
    }
}

/// The type of a pattern, from the table of its unknowns. What stands in the table is shared.
#[cycle(pat_type)]
#[tactic(auto, using(crate::proofs::SolvingSteps::building))]
pub(crate) fn pat_type(alloc: Global, pat: &Pat, types: &[Ty]) -> Result<Ty, NoMemory>
    ensures { IfOk result (λ a. a ≡ value (type_at_unknown types.now) pat.now) }
{
    match pat {
        Pat::Int => Ok(Ty::Int),
        Pat::Bool => Ok(Ty::Bool),
        Pat::Param(i) => Ok(Ty::Param(*i)),
        Pat::Pow(a) => Ok(Ty::Pow(Shared::new(alloc, pat_type(alloc, a.get(), types)?)?)),
        Pat::Prod(a, b) => {
            let a = Shared::new(alloc, pat_type(alloc, a.get(), types)?)?;
            let b = Shared::new(alloc, pat_type(alloc, b.get(), types)?)?;
            Ok(Ty::Prod(a, b))
        }
        Pat::Data(name, list) => {
            let name = name.try_copy(alloc)?;
            let list = pat_types(alloc, list, types)?;
            Ok(Ty::Data(name, list))
        }
        Pat::Unknown(u) => unknown_type(alloc, *u, types),
    }
}

#[cycle(pat_type)]
#[tactic(auto, using(crate::proofs::SolvingSteps::building))]
fn pat_types(alloc: Global, list: &Pats, types: &[Ty]) -> Result<Tys, NoMemory>
    ensures { IfOk result (λ a. a ≡ values (type_at_unknown types.now) list.now) }
{
    let mut all = Vec::new(alloc);
    let mut left = list;
    while let Pats::More(a, rest) = left {
        all.push(pat_type(alloc, a.get(), types)?)?;
        left = rest.get();
    }
    listed(alloc, all)
}

/// The types as a list, made from its end.
#[tactic(auto, using(crate::proofs::SolvingSteps::lists))]
fn listed(alloc: Global, mut types: Vec<Ty>) -> Result<Tys, NoMemory>
    ensures { IfOk result (λ As. As ≡ type_row types.items) }
{
    let mut list = Tys::Empty;
    while let Some(last) = types.pop() {
        let rest = Shared::new(alloc, list)?;
        list = Tys::More(Shared::new(alloc, last)?, rest);
    }
    Ok(list)
}

#[tactic(auto, using(crate::proofs::SolvingSteps::unknowns))]
pub(crate) fn unknown_type(alloc: Global, unknown: u128, types: &[Ty]) -> Result<Ty, NoMemory>
    ensures { IfOk result (λ a. a ≡ type_at_unknown types.now unknown) }
{
    if unknown < types.len() as u128 {
        let ty = &types[unknown as usize];
        Ok(ty.try_copy(alloc)?)
    } else {
        Ok(Ty::Int)
    }
}
