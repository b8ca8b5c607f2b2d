//! Types of sets, pairs and relations.
ghost use Rattle.std.specs.Prelude.{◌≡◌, IfOk};
ghost use Rattle.ev_terms.specs.Types.{pow, prod};
ghost use Rattle.ev_typing.specs.Table.{relation};

use ev_terms::{NoMemory, Shared, Ty};
use std::alloc::Global;

/// The type of the sets whose members have the type.
#[tactic(auto, using(crate::proofs::Signatures::forms))]
pub fn set_of(alloc: Global, ty: Ty) -> Result<Ty, NoMemory>
    ensures { IfOk result (λ a. a ≡ pow ty) }
{
    Ok(Ty::Pow(Shared::new(alloc, ty)?))
}

/// The type of the pairs of a value of each type.
#[tactic(auto, using(crate::proofs::Signatures::forms))]
pub fn pair_of(alloc: Global, first: Ty, second: Ty) -> Result<Ty, NoMemory>
    ensures { IfOk result (λ a. a ≡ prod first second) }
{
    let first = Shared::new(alloc, first)?;
    let second = Shared::new(alloc, second)?;
    Ok(Ty::Prod(first, second))
}

/// The type of the relations from values of the one type to those of the other, which are sets of pairs.
pub fn relation_of(alloc: Global, from: Ty, to: Ty) -> Result<Ty, NoMemory>
    ensures { IfOk result (λ a. a ≡ relation from to) }
{
    set_of(alloc, pair_of(alloc, from, to)?)
}
