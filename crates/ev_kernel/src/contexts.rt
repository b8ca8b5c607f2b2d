//! Sequents compared with each other, part by part and without a copy.
ghost use Rattle.std.specs.Prelude.{◌≡◌, ◌↔◌, [], ◌∷◌, ◌++◌, Contains, IsTrue, map};
ghost use Rattle.std.specs.Option.{option_copied};
ghost use Rattle.std.specs.List.{AllByRecursion};
ghost use Rattle.ev_terms.specs.declared.types.Tys.{Empty};
ghost use Rattle.ev_terms.specs.Types.{more, type_list};
ghost use Rattle.ev_terms.specs.Substitution.{shift};
ghost use Rattle.ev_typing.specs.TypeLists.{types};
ghost use Rattle.ev_typing.specs.Sequents.{◌⊢◌, ◌▹◌};
ghost use Rattle.ev_typing.specs.BaseSequents.{widened, under};
ghost use Rattle.ev_kernel.specs.inner.Contexts.{optional};

use crate::instances::{are_shifted, is_shift};
use ev_terms::{Same, Tree, Ty, Tys, same, same_all};
use ev_typing::Sequent;

/// Whether the sequent is the other one with its own goal.
pub(crate) fn stands_beside(sequent: &Sequent, other: &Sequent) -> bool
    ensures { IsTrue result ↔ (sequent.now ≡ (other.now ⊢ sequent.now.goal)) }
{
    sequent.context.same(&other.context) && sequent.hyps.same(&other.hyps)
}

/// Whether the sequent is the other one with this goal.
pub(crate) fn has_goal(sequent: &Sequent, other: &Sequent, goal: &Tree) -> bool
    ensures { IsTrue result ↔ (sequent.now ≡ (other.now ⊢ goal.now)) }
{
    sequent.context.same(&other.context)
        && sequent.hyps.same(&other.hyps)
        && same(&sequent.goal, goal)
}

/// Whether the sequents are one.
pub(crate) fn is_same_sequent(sequent: &Sequent, other: &Sequent) -> bool
    ensures { IsTrue result ↔ (sequent.now ≡ other.now) }
{
    has_goal(sequent, other, &other.goal)
}

/// Whether the hypotheses are the other ones and one more behind them.
#[tactic(auto, using(crate::proofs::Rows::one_more))]
fn has_one_more(hyps: &[Tree], others: &[Tree], hyp: &Tree) -> bool
    ensures { IsTrue result ↔ (hyps.now ≡ others.now ++ hyp.now ∷ []) }
{
    match hyps {
        [first @ .., last] => same_all(first, others) && same(last, hyp),
        [] => false,
    }
}

/// Whether the sequent is the other one with one more hypothesis and this goal.
pub(crate) fn assumes(sequent: &Sequent, other: &Sequent, hyp: &Tree, goal: &Tree) -> bool
    ensures { IsTrue result ↔ (sequent.now ≡ (other.now ▹ hyp.now ⊢ goal.now)) }
{
    sequent.context.same(&other.context)
        && has_one_more(sequent.hyps.as_slice(), other.hyps.as_slice(), hyp)
        && same(&sequent.goal, goal)
}

/// Whether the term is one of the terms.
pub(crate) fn is_among(trees: &[Tree], tree: &Tree) -> bool
    ensures { IsTrue result ↔ Contains trees.now tree.now }
{
    trees.iter().any(|other| same(other, tree))
}

/// Whether each of the terms is one of the others.
#[tactic(auto, using(crate::proofs::Lists::lists))]
pub(crate) fn are_among(trees: &[Tree], others: &[Tree]) -> bool
    ensures { IsTrue result ↔ AllByRecursion (Contains others.now) trees.now }
{
    for tree in trees {
        if !is_among(others, tree) {
            return false;
        }
    }
    true
}

/// Whether the types are the other ones and one more behind them. A loop along both lists.
#[tactic(auto, using(crate::proofs::Lists::one_more_type))]
fn extends(longer: &Tys, shorter: &Tys, last: &Ty) -> bool
    ensures { IsTrue result ↔ (longer.now ≡ types (type_list shorter.now ++ last.now ∷ [])) }
{
    let mut left = longer;
    let mut others = shorter;
    while let Tys::More(b, further) = others {
        let Tys::More(a, rest) = left else {
            return false;
        };
        if !a.get().same(b.get()) {
            return false;
        }
        left = rest.get();
        others = further.get();
    }
    is_only(left, last)
}

/// Whether this type is the only one.
fn is_only(types: &Tys, ty: &Ty) -> bool
    ensures { IsTrue result ↔ (types.now ≡ more ty.now Empty) }
{
    match types {
        Tys::More(a, rest) => a.get().same(ty) && is_empty(rest.get()),
        Tys::Empty => false,
    }
}

fn is_empty(types: &Tys) -> bool
    ensures { IsTrue result ↔ (types.now ≡ Empty) }
{
    match types {
        Tys::Empty => true,
        Tys::More(_, _) => false,
    }
}

/// Whether the sequent stands in the other's context with one more variable of the type inside, under the other's hypotheses.
pub(crate) fn stands_under(sequent: &Sequent, other: &Sequent, ty: &Ty) -> bool
    ensures { IsTrue result ↔ (sequent.now ≡ (under other.now ty.now ⊢ sequent.now.goal)) }
{
    extends(&sequent.context, &other.context, ty)
        && are_shifted(sequent.hyps.as_slice(), other.hyps.as_slice())
}

/// The same where there may be no further variable.
pub(crate) fn stands_inside(sequent: &Sequent, other: &Sequent, ty: Option<&Ty>) -> bool
    ensures { IsTrue result ↔ (sequent.now ≡ (widened other.now (optional (option_copied ty.entry)) ⊢ sequent.now.goal)) }
{
    match ty {
        Some(ty) => stands_under(sequent, other, ty),
        None => stands_beside(sequent, other),
    }
}

/// The same as `stands_under` with one more hypothesis, and with the other's goal.
pub(crate) fn assumes_under(sequent: &Sequent, other: &Sequent, ty: &Ty, hyp: &Tree) -> bool
    ensures { IsTrue result ↔ (sequent.now ≡ (under other.now ty.now ▹ hyp.now)) }
{
    if !extends(&sequent.context, &other.context, ty) {
        return false;
    }
    if !are_shifted_and(sequent.hyps.as_slice(), other.hyps.as_slice(), hyp) {
        return false;
    }
    is_shift(&sequent.goal, &other.goal, 0, 1)
}

/// Whether the hypotheses are the other ones shifted by one, and one more behind them.
#[tactic(auto, using(crate::proofs::Rows::one_more))]
fn are_shifted_and(hyps: &[Tree], others: &[Tree], hyp: &Tree) -> bool
    ensures { IsTrue result ↔ (hyps.now ≡ map (λ P. shift P 0 1) others.now ++ hyp.now ∷ []) }
{
    match hyps {
        [first @ .., last] => are_shifted(first, others) && same(last, hyp),
        [] => false,
    }
}
