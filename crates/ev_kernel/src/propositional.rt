//! The rows of the structural rules and of the propositional connectives. Each function says whether its row holds.
ghost use Rattle.std.specs.Prelude.{◌≡◌, ◌↔◌, [], ◌∷◌, IsTrue};
ghost use Rattle.ev_terms.specs.Term.{Term};
ghost use Rattle.ev_forms.specs.Forms.{neg};
ghost use Rattle.ev_forms.specs.Connectives.{joined};
ghost use Rattle.ev_typing.specs.Sequents.{◌⊢◌};
ghost use Rattle.ev_kernel.specs.Row.{Row};
ghost use Rattle.ev_kernel.specs.declared.rules.BaseRule.TheVariants.{Hyp, Weak, Cut, TrueI, FalseE, NotI, NotE, AndI, AndE1, AndE2, OrI1, OrI2, OrE, ImpI, ImpE, IffI, IffE1, IffE2, Em};

use crate::contexts::{are_among, assumes, has_goal, is_among, stands_beside};
use ev_forms::{Connective, is_falsity, is_truth, joined_parts, negated_part};
use ev_terms::{Same, Tree, same};
use ev_typing::Sequent;

pub(crate) fn hypothesis(sequent: &Sequent) -> bool
    ensures { IsTrue result ↔ Row [] [] Hyp sequent.now }
{
    is_among(sequent.hyps.as_slice(), &sequent.goal)
}

pub(crate) fn weakening(premise: &Sequent, sequent: &Sequent) -> bool
    ensures { IsTrue result ↔ Row [] (premise.now ∷ []) Weak sequent.now }
{
    premise.context.same(&sequent.context)
        && same(&premise.goal, &sequent.goal)
        && are_among(premise.hyps.as_slice(), sequent.hyps.as_slice())
}

pub(crate) fn cut(first: &Sequent, second: &Sequent, sequent: &Sequent) -> bool
    ensures { IsTrue result ↔ Row [] (first.now ∷ second.now ∷ []) Cut sequent.now }
{
    stands_beside(first, sequent) && assumes(second, sequent, &first.goal, &sequent.goal)
}

pub(crate) fn truth_intro(sequent: &Sequent) -> bool
    ensures { IsTrue result ↔ Row [] [] TrueI sequent.now }
{
    is_truth(&sequent.goal)
}

pub(crate) fn falsity_elim(premise: &Sequent, sequent: &Sequent) -> bool
    ensures { IsTrue result ↔ Row [] (premise.now ∷ []) FalseE sequent.now }
{
    is_falsity(&premise.goal) && stands_beside(premise, sequent)
}

pub(crate) fn not_intro(premise: &Sequent, sequent: &Sequent) -> bool
    ensures { IsTrue result ↔ Row [] (premise.now ∷ []) NotI sequent.now }
{
    match negated_part(&sequent.goal) {
        Some(negated) => is_falsity(&premise.goal)
            && assumes(premise, sequent, negated, &premise.goal),
        None => false,
    }
}

pub(crate) fn not_elim(first: &Sequent, second: &Sequent, sequent: &Sequent) -> bool
    ensures { IsTrue result ↔ Row [] (first.now ∷ second.now ∷ []) NotE sequent.now }
{
    if !is_falsity(&sequent.goal) {
        return false;
    }
    match negated_part(&second.goal) {
        Some(negated) => has_goal(first, sequent, negated) && stands_beside(second, sequent),
        None => false,
    }
}

pub(crate) fn and_intro(first: &Sequent, second: &Sequent, sequent: &Sequent) -> bool
    ensures { IsTrue result ↔ Row [] (first.now ∷ second.now ∷ []) AndI sequent.now }
{
    match joined_parts(&sequent.goal, Connective::And) {
        Some((left, right)) => has_goal(first, sequent, left) && has_goal(second, sequent, right),
        None => false,
    }
}

pub(crate) fn and_elim_left(premise: &Sequent, sequent: &Sequent) -> bool
    ensures { IsTrue result ↔ Row [] (premise.now ∷ []) AndE1 sequent.now }
{
    match joined_parts(&premise.goal, Connective::And) {
        Some((left, _)) => same(left, &sequent.goal) && stands_beside(premise, sequent),
        None => false,
    }
}

pub(crate) fn and_elim_right(premise: &Sequent, sequent: &Sequent) -> bool
    ensures { IsTrue result ↔ Row [] (premise.now ∷ []) AndE2 sequent.now }
{
    match joined_parts(&premise.goal, Connective::And) {
        Some((_, right)) => same(right, &sequent.goal) && stands_beside(premise, sequent),
        None => false,
    }
}

pub(crate) fn or_intro_left(premise: &Sequent, sequent: &Sequent) -> bool
    ensures { IsTrue result ↔ Row [] (premise.now ∷ []) OrI1 sequent.now }
{
    match joined_parts(&sequent.goal, Connective::Or) {
        Some((left, _)) => has_goal(premise, sequent, left),
        None => false,
    }
}

pub(crate) fn or_intro_right(premise: &Sequent, sequent: &Sequent) -> bool
    ensures { IsTrue result ↔ Row [] (premise.now ∷ []) OrI2 sequent.now }
{
    match joined_parts(&sequent.goal, Connective::Or) {
        Some((_, right)) => has_goal(premise, sequent, right),
        None => false,
    }
}

pub(crate) fn or_elim(
    either: &Sequent,
    first: &Sequent,
    second: &Sequent,
    sequent: &Sequent,
) -> bool
    ensures { IsTrue result ↔ Row [] (either.now ∷ first.now ∷ second.now ∷ []) OrE sequent.now }
{
    if !stands_beside(either, sequent) {
        return false;
    }
    match joined_parts(&either.goal, Connective::Or) {
        Some((left, right)) => assumes(first, sequent, left, &sequent.goal)
            && assumes(second, sequent, right, &sequent.goal),
        None => false,
    }
}

pub(crate) fn implies_intro(premise: &Sequent, sequent: &Sequent) -> bool
    ensures { IsTrue result ↔ Row [] (premise.now ∷ []) ImpI sequent.now }
{
    match joined_parts(&sequent.goal, Connective::Implies) {
        Some((left, right)) => assumes(premise, sequent, left, right),
        None => false,
    }
}

/// Whether the one premise joins by the connective what the other proves with the goal behind it.
fn joins_goal(joining: &Sequent, other: &Sequent, connective: Connective, sequent: &Sequent) -> bool
    ensures { IsTrue result ↔ ((P : Term) × (joining.now ≡ (sequent.now ⊢ joined connective P sequent.now.goal)) × (other.now ≡ (sequent.now ⊢ P))) }
{
    if !stands_beside(joining, sequent) {
        return false;
    }
    match joined_parts(&joining.goal, connective) {
        Some((left, right)) => same(right, &sequent.goal) && has_goal(other, sequent, left),
        None => false,
    }
}

pub(crate) fn modus_ponens(first: &Sequent, second: &Sequent, sequent: &Sequent) -> bool
    ensures { IsTrue result ↔ Row [] (first.now ∷ second.now ∷ []) ImpE sequent.now }
{
    joins_goal(first, second, Connective::Implies, sequent)
}

pub(crate) fn iff_intro(first: &Sequent, second: &Sequent, sequent: &Sequent) -> bool
    ensures { IsTrue result ↔ Row [] (first.now ∷ second.now ∷ []) IffI sequent.now }
{
    match joined_parts(&sequent.goal, Connective::Iff) {
        Some((left, right)) => assumes(first, sequent, left, right)
            && assumes(second, sequent, right, left),
        None => false,
    }
}

pub(crate) fn iff_elim_right(first: &Sequent, second: &Sequent, sequent: &Sequent) -> bool
    ensures { IsTrue result ↔ Row [] (first.now ∷ second.now ∷ []) IffE1 sequent.now }
{
    joins_goal(first, second, Connective::Iff, sequent)
}

pub(crate) fn iff_elim_left(first: &Sequent, second: &Sequent, sequent: &Sequent) -> bool
    ensures { IsTrue result ↔ Row [] (first.now ∷ second.now ∷ []) IffE2 sequent.now }
{
    if !stands_beside(first, sequent) {
        return false;
    }
    match joined_parts(&first.goal, Connective::Iff) {
        Some((left, right)) => same(left, &sequent.goal) && has_goal(second, sequent, right),
        None => false,
    }
}

pub(crate) fn excluded_middle(sequent: &Sequent) -> bool
    ensures { IsTrue result ↔ Row [] [] Em sequent.now }
{
    match joined_parts(&sequent.goal, Connective::Or) {
        Some((left, right)) => is_negation_of(right, left),
        None => false,
    }
}

/// Whether the term is the negation of the other one.
fn is_negation_of(tree: &Tree, other: &Tree) -> bool
    ensures { IsTrue result ↔ (tree.now ≡ neg other.now) }
{
    match negated_part(tree) {
        Some(negated) => same(negated, other),
        None => false,
    }
}
