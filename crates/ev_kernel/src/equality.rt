//! The rows of equality, of sets and of truth values. Each function says whether its row holds.
ghost use Rattle.std.specs.Prelude.{◌≡◌, ◌≤◌, ◌↔◌, Some, [], ◌∷◌, take, length, IsTrue};
ghost use Rattle.std.specs.Option.{option_copied};
ghost use Rattle.std.specs.List.{AllByRecursion};
ghost use Rattle.ev_terms.specs.declared.types.Ty.{Ty, Bool};
ghost use Rattle.ev_terms.specs.Types.{type_list};
ghost use Rattle.ev_terms.specs.Symbols.{binds};
ghost use Rattle.ev_terms.specs.Term.{Term, types_of};
ghost use Rattle.ev_terms.specs.Substitution.{substitute};
ghost use Rattle.ev_forms.specs.Binders.{equated};
ghost use Rattle.ev_forms.specs.Forms.{equation, eq, mem, such_that, bool_of, bool_true};
ghost use Rattle.ev_typing.specs.Sequents.{◌⊢◌};
ghost use Rattle.ev_typing.specs.BaseSequents.{widened};
ghost use Rattle.ev_kernel.specs.inner.Contexts.{optional};
ghost use Rattle.ev_kernel.specs.Row.{Row, AreEquated, AreCongruent};
ghost use Rattle.ev_kernel.specs.Derivable.{named};
ghost use Rattle.ev_kernel.specs.declared.rules.BaseRule.TheVariants.{Refl, Sym as Symmetry, Trans, Cong, SetMem, BoolMem};

use crate::contexts::{stands_beside, stands_inside};
use crate::numbers::premise_of;
use crate::quantifiers::is_with;
use ev_forms::{
    Binder, Connective, Relation, bool_part, bound_parts, equation_parts, is_true_value,
    joined_parts, node_parts, related_parts,
};
use ev_terms::{Same, Sym, Tree, Ty, Tys, binds, same};
use ev_typing::{Sequent, Sequents};

pub(crate) fn reflexivity(sequent: &Sequent) -> bool
    ensures { IsTrue result ↔ Row [] [] Refl sequent.now }
{
    match equation_parts(&sequent.goal) {
        Some((_, left, right)) => same(left, right),
        None => false,
    }
}

/// Whether the term is an equation at these type arguments, between these two.
fn is_equation(tree: &Tree, types: &Tys, left: &Tree, right: &Tree) -> bool
    ensures { IsTrue result ↔ ((tree.now ≡ equation (equated types.now) left.now right.now) × (types_of tree.now ≡ Some types.now)) }
{
    let Some((found, s, t)) = equation_parts(tree) else {
        return false;
    };
    if !found.same(types) {
        return false;
    }
    if !same(s, left) {
        return false;
    }
    same(t, right)
}

pub(crate) fn symmetry(premise: &Sequent, sequent: &Sequent) -> bool
    ensures { IsTrue result ↔ Row [] (premise.now ∷ []) Symmetry sequent.now }
{
    if !stands_beside(premise, sequent) {
        return false;
    }
    match equation_parts(&premise.goal) {
        Some((types, left, right)) => is_equation(&sequent.goal, types, right, left),
        None => false,
    }
}

pub(crate) fn transitivity(first: &Sequent, second: &Sequent, sequent: &Sequent) -> bool
    ensures { IsTrue result ↔ Row [] (first.now ∷ second.now ∷ []) Trans sequent.now }
{
    if !stands_beside(first, sequent) {
        return false;
    }
    if !stands_beside(second, sequent) {
        return false;
    }
    let Some((types, left, middle)) = equation_parts(&first.goal) else {
        return false;
    };
    let Some((others, other, right)) = equation_parts(&second.goal) else {
        return false;
    };
    if !types.same(others) {
        return false;
    }
    if !same(middle, other) {
        return false;
    }
    is_equation(&sequent.goal, types, left, right)
}

/// The type of the variable that the symbol binds in its children, where it binds one.
fn bound_type<'a>(sym: &Sym, types: &'a Tys) -> Option<&'a Ty>
    ensures { optional (option_copied result) ≡ take (binds sym.now) (type_list types.now) }
{
    if binds(sym) == 0 { None } else { types.get(0) }
}

/// Whether the premise equates the two terms in the context of the symbol's children.
fn equates(
    premise: &Sequent,
    sequent: &Sequent,
    bound: Option<&Ty>,
    left: &Tree,
    right: &Tree,
) -> bool
    ensures { IsTrue result ↔ ((A : Ty) × (premise.now ≡ (widened sequent.now (optional (option_copied bound.entry)) ⊢ equation A left.now right.now))) }
{
    if !stands_inside(premise, sequent, bound) {
        return false;
    }
    match equation_parts(&premise.goal) {
        Some((_, s, t)) => {
            if !same(s, left) {
                return false;
            }
            same(t, right)
        }
        None => false,
    }
}

/// Whether the premises that the numbers name equate the terms, pair by pair.

fn are_equated(
    earlier: &Sequents,
    premises: &[u128],
    sequent: &Sequent,
    bound: Option<&Ty>,
    lefts: &[Tree],
    rights: &[Tree],
) -> bool
    requires { AllByRecursion (λ n. (1 ≤ n) × (n ≤ length earlier.now)) premises.now }
    ensures { IsTrue result ↔ AreEquated (widened sequent.now (optional (option_copied bound.entry))) lefts.now rights.now (named earlier.now premises.now) }
{
    if lefts.len() != premises.len() {
        return false;
    }
    if rights.len() != premises.len() {
        return false;
    }
    for i in 0..premises.len() {
        let premise = premise_of(earlier, premises[i]);
        if !equates(premise, sequent, bound, &lefts[i], &rights[i]) {
            return false;
        }
    }
    true
}

/// Whether the premises equate the children of the two terms, which have one symbol at the same types.

fn are_congruent(
    earlier: &Sequents,
    premises: &[u128],
    sequent: &Sequent,
    left: &Tree,
    right: &Tree,
) -> bool
    requires { AllByRecursion (λ n. (1 ≤ n) × (n ≤ length earlier.now)) premises.now }
    ensures { IsTrue result ↔ AreCongruent sequent.now left.now right.now (named earlier.now premises.now) }
{
    let Some((sym, types, lefts)) = node_parts(left) else {
        return false;
    };
    let Some((other, others, rights)) = node_parts(right) else {
        return false;
    };
    if !sym.same(other) {
        return false;
    }
    if !types.same(others) {
        return false;
    }
    let bound = bound_type(sym, types);
    are_equated(earlier, premises, sequent, bound, lefts, rights)
}

pub(crate) fn congruence(earlier: &Sequents, premises: &[u128], sequent: &Sequent) -> bool
    requires { AllByRecursion (λ n. (1 ≤ n) × (n ≤ length earlier.now)) premises.now }
    ensures { IsTrue result ↔ Row [] (named earlier.now premises.now) Cong sequent.now }
{
    match equation_parts(&sequent.goal) {
        Some((_, left, right)) => are_congruent(earlier, premises, sequent, left, right),
        None => false,
    }
}

/// Whether the term is `{x | Q}` with the other one for x in Q, written out.
fn is_member_form(membership: &Tree, unfolded: &Tree) -> bool
    ensures { IsTrue result ↔ ((A : Ty) × (t Q : Term) × (membership.now ≡ mem A t (such_that A Q)) × (unfolded.now ≡ substitute Q (t ∷ []))) }
{
    let Some((ty, term, set)) = related_parts(membership, Relation::In) else {
        return false;
    };
    match bound_parts(set, Binder::SetOf) {
        Some((other, predicate)) => {
            if !ty.same(other) {
                return false;
            }
            is_with(unfolded, predicate, term)
        }
        None => false,
    }
}

pub(crate) fn set_membership(sequent: &Sequent) -> bool
    ensures { IsTrue result ↔ Row [] [] SetMem sequent.now }
{
    match joined_parts(&sequent.goal, Connective::Iff) {
        Some((left, right)) => is_member_form(left, right),
        None => false,
    }
}

/// Whether the term is `bool(P) = TRUE` for the other one.
fn is_truth_of(tree: &Tree, predicate: &Tree) -> bool
    ensures { IsTrue result ↔ (tree.now ≡ eq Bool (bool_of predicate.now) bool_true) }
{
    let Some((ty, left, right)) = related_parts(tree, Relation::Equal) else {
        return false;
    };
    if !is_bool(ty) {
        return false;
    }
    if !is_true_value(right) {
        return false;
    }
    match bool_part(left) {
        Some(inner) => same(inner, predicate),
        None => false,
    }
}

fn is_bool(ty: &Ty) -> bool
    ensures { IsTrue result ↔ (ty.now ≡ Bool) }
{
    match ty {
        Ty::Bool => true,
        _ => false,
    }
}

pub(crate) fn bool_truth(sequent: &Sequent) -> bool
    ensures { IsTrue result ↔ Row [] [] BoolMem sequent.now }
{
    match joined_parts(&sequent.goal, Connective::Iff) {
        Some((left, right)) => is_truth_of(left, right),
        None => false,
    }
}
