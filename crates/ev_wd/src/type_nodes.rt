//! Types, and lists of type arguments.
ghost use Rattle.std.specs.Prelude.{◌≡◌, IfOk};
ghost use Rattle.ev_terms.specs.Substitution.{type_at};
ghost use Rattle.ev_forms.specs.Base.{at_type};
ghost use Rattle.ev_forms.specs.Forms.{two_types};

use ev_terms::{NoMemory, TryCopy, Ty, Tys};
use std::alloc::Global;

/// The type of the argument, from 0; where there is none, the parameter of that number.
pub(crate) fn type_at(alloc: Global, types: &Tys, i: u32) -> Result<Ty, NoMemory>
    ensures { IfOk result (λ a. a ≡ type_at types.now i) }
{
    match types.get(i as usize) {
        Some(ty) => ty.try_copy(alloc),
        None => Ok(Ty::Param(i)),
    }
}

/// One type argument.
#[tactic(auto, using(crate::proofs::Forming::types))]
pub(crate) fn one_type(alloc: Global, ty: Ty) -> Result<Tys, NoMemory>
    ensures { IfOk result (λ As. As ≡ at_type ty) }
{
    Tys::one(alloc, ty)
}

/// Two type arguments.
#[tactic(auto, using(crate::proofs::Forming::types))]
pub(crate) fn two_types(alloc: Global, first: Ty, second: Ty) -> Result<Tys, NoMemory>
    ensures { IfOk result (λ As. As ≡ two_types first second) }
{
    Tys::before(alloc, first, one_type(alloc, second)?)
}
