//! The type arguments of the rows' symbols.
ghost use Rattle.std.specs.Prelude.{◌≡◌, IfOk};
ghost use Rattle.ev_terms.specs.declared.types.Ty.{Param};
ghost use Rattle.ev_terms.specs.declared.types.Tys.{Empty};
ghost use Rattle.ev_terms.specs.Types.{pow, prod, more};
ghost use Rattle.ev_axioms.specs.inner.Building.{types_of};

use crate::steps::Args;
use ev_terms::{NoMemory, Ty, Tys};
use ev_typing::{pair_of, set_of};
use std::alloc::Global;

fn two(alloc: Global, first: Ty, second: Ty) -> Result<Tys, NoMemory>
    ensures { IfOk result (λ As. As ≡ more first (more second Empty)) }
{
    Tys::before(alloc, first, Tys::one(alloc, second)?)
}

fn three(alloc: Global, first: Ty, second: Ty, third: Ty) -> Result<Tys, NoMemory>
    ensures { IfOk result (λ As. As ≡ more first (more second (more third Empty))) }
{
    Tys::before(alloc, first, two(alloc, second, third)?)
}

/// The sets of members of the type.
fn one_set(alloc: Global, ty: Ty) -> Result<Tys, NoMemory>
    ensures { IfOk result (λ As. As ≡ more (pow ty) Empty) }
{
    Tys::one(alloc, set_of(alloc, ty)?)
}

fn one_set_of_sets(alloc: Global, ty: Ty) -> Result<Tys, NoMemory>
    ensures { IfOk result (λ As. As ≡ more (pow (pow ty)) Empty) }
{
    one_set(alloc, set_of(alloc, ty)?)
}

/// The pairs of two types, given by their parameters.
fn one_pair(alloc: Global, first: u32, second: u32) -> Result<Tys, NoMemory>
    ensures { IfOk result (λ As. As ≡ more (prod (Param first) (Param second)) Empty) }
{
    Tys::one(alloc, pair_of(alloc, Ty::Param(first), Ty::Param(second))?)
}

/// The relations between two types, given by their parameters.
fn one_relation(alloc: Global, first: u32, second: u32) -> Result<Tys, NoMemory>
    ensures { IfOk result (λ As. As ≡ more (pow (prod (Param first) (Param second))) Empty) }
{
    one_set(alloc, pair_of(alloc, Ty::Param(first), Ty::Param(second))?)
}

/// A ** B and a parameter.
fn pair_and(alloc: Global, last: u32) -> Result<Tys, NoMemory>
    ensures { IfOk result (λ As. As ≡ more (prod (Param 0) (Param 1)) (more (Param last) Empty)) }
{
    two(
        alloc,
        pair_of(alloc, Ty::Param(0), Ty::Param(1))?,
        Ty::Param(last),
    )
}

/// The pairs of A ** B and a parameter.
fn one_triple(alloc: Global, last: u32) -> Result<Tys, NoMemory>
    ensures { IfOk result (λ As. As ≡ more (prod (prod (Param 0) (Param 1)) (Param last)) Empty) }
{
    let pair = pair_of(alloc, Ty::Param(0), Ty::Param(1))?;
    Tys::one(alloc, pair_of(alloc, pair, Ty::Param(last))?)
}

/// The type arguments that a word stands for.
pub(crate) fn make_types(alloc: Global, args: Args) -> Result<Tys, NoMemory>
    ensures { IfOk result (λ As. As ≡ types_of args) }
{
    match args {
        Args::NoType => Ok(Tys::Empty),
        Args::A => Tys::one(alloc, Ty::Param(0)),
        Args::B => Tys::one(alloc, Ty::Param(1)),
        Args::C => Tys::one(alloc, Ty::Param(2)),
        Args::Int => Tys::one(alloc, Ty::Int),
        Args::Bool => Tys::one(alloc, Ty::Bool),
        Args::SetA => one_set(alloc, Ty::Param(0)),
        Args::SetB => one_set(alloc, Ty::Param(1)),
        Args::SetInt => one_set(alloc, Ty::Int),
        Args::SetSetA => one_set_of_sets(alloc, Ty::Param(0)),
        Args::PairAB => one_pair(alloc, 0, 1),
        Args::PairBA => one_pair(alloc, 1, 0),
        Args::PairAC => one_pair(alloc, 0, 2),
        Args::PairBC => one_pair(alloc, 1, 2),
        Args::PairAA => one_pair(alloc, 0, 0),
        Args::PairABA => one_triple(alloc, 0),
        Args::PairABB => one_triple(alloc, 1),
        Args::RelationAB => one_relation(alloc, 0, 1),
        Args::RelationBC => one_relation(alloc, 1, 2),
        Args::AB => two(alloc, Ty::Param(0), Ty::Param(1)),
        Args::BA => two(alloc, Ty::Param(1), Ty::Param(0)),
        Args::AC => two(alloc, Ty::Param(0), Ty::Param(2)),
        Args::BC => two(alloc, Ty::Param(1), Ty::Param(2)),
        Args::AA => two(alloc, Ty::Param(0), Ty::Param(0)),
        Args::ABC => three(alloc, Ty::Param(0), Ty::Param(1), Ty::Param(2)),
        Args::FirstOf => pair_and(alloc, 0),
        Args::SecondOf => pair_and(alloc, 1),
    }
}
