//! The connectives and the quantifier by which conditions are put together, each within the limits.
ghost use Rattle.std.specs.Prelude.{◌≡◌, IfOk, Err};
ghost use Rattle.ev_wd.specs.Limits.{IsSmall};
ghost use Rattle.ev_wd.specs.Makers.{make_and, make_imp, make_or, make_all, joined_after};
ghost use Rattle.ev_wd.specs.declared.faults.WdFault.TheVariants.{TooLarge};

use crate::drafts::{Draft, asked};
use crate::faults::WdFault;
use crate::limits::{is_small, kept};
use ev_forms::{Connective, is_truth};
use ev_terms::{Tree, TryCopy, Ty};
use std::alloc::Global;

/// `P & Q`
#[tactic(auto, using(crate::proofs::Making::makers))]
pub(crate) fn make_and(alloc: Global, left: Draft, right: Draft) -> Result<Draft, WdFault>
    ensures found { IfOk result (λ t. (t ≡ make_and left right) × IsSmall t) }
    ensures large { result ≡ Err TooLarge → ¬ IsSmall (make_and left right) }
{
    if left.is_truth() {
        return kept(right);
    }
    if right.is_truth() {
        return kept(left);
    }
    kept(Draft::both(alloc, left, right)?)
}

/// `P & Q`, for a predicate Q that is asked.
#[tactic(auto, using(crate::proofs::Making::joining))]
fn and_part(alloc: Global, so_far: Draft, part: &Tree) -> Result<Draft, WdFault>
    ensures found { IfOk result (λ t. (t ≡ make_and so_far part.now) × IsSmall t) }
    ensures large { result ≡ Err TooLarge → ¬ IsSmall (make_and so_far part.now) }
{
    if !is_small(part) {
        return Err(WdFault::TooLarge);
    }
    let part = Draft::of(alloc, part.try_copy(alloc)?)?;
    make_and(alloc, so_far, part)
}

/// A condition with further parts.
#[tactic(auto, using(crate::proofs::Making::listing))]
pub(crate) fn and_parts(alloc: Global, so_far: Draft, parts: &[Tree]) -> Result<Draft, WdFault>
    ensures found { IfOk result (λ t. (t ≡ joined_after so_far parts.now) × IsSmall t) }
    ensures large { result ≡ Err TooLarge → ¬ IsSmall (joined_after so_far parts.now) }
{
    let mut all = kept(so_far)?;
    for part in parts {
        all = and_part(alloc, all, part)?;
    }
    Ok(all)
}

/// `P => Q`
#[tactic(auto, using(crate::proofs::Making::makers))]
pub(crate) fn make_imp(alloc: Global, left: &Tree, right: Draft) -> Result<Draft, WdFault>
    ensures found { IfOk result (λ t. (t ≡ make_imp left.now right) × IsSmall t) }
    ensures large { result ≡ Err TooLarge → ¬ IsSmall (make_imp left.now right) }
{
    if right.is_truth() || is_truth(left) {
        return kept(right);
    }
    if !is_small(left) {
        return Err(WdFault::TooLarge);
    }
    kept(Draft::guarded(alloc, Connective::Implies, left, right)?)
}

/// `P or Q`
#[tactic(auto, using(crate::proofs::Making::makers))]
pub(crate) fn make_or(alloc: Global, left: &Tree, right: Draft) -> Result<Draft, WdFault>
    ensures found { IfOk result (λ t. (t ≡ make_or left.now right) × IsSmall t) }
    ensures large { result ≡ Err TooLarge → ¬ IsSmall (make_or left.now right) }
{
    if is_truth(left) {
        return kept(Draft::truth(alloc)?);
    }
    if right.is_truth() {
        return kept(right);
    }
    if !is_small(left) {
        return Err(WdFault::TooLarge);
    }
    kept(Draft::guarded(alloc, Connective::Or, left, right)?)
}

/// `!x. P`, or P alone where x does not occur in it.
#[tactic(auto, using(crate::proofs::Making::makers))]
pub(crate) fn make_all(alloc: Global, ty: Ty, body: Draft) -> Result<Draft, WdFault>
    ensures found { IfOk result (λ t. (t ≡ make_all ty body) × IsSmall t) }
    ensures large { result ≡ Err TooLarge → ¬ IsSmall (make_all ty body) }
{
    if body.is_truth() {
        return kept(body);
    }
    let (body, occurs) = asked(alloc, body)?;
    if occurs {
        kept(Draft::bound(alloc, ty, body)?)
    } else {
        kept(Draft::lowered(alloc, body)?)
    }
}
