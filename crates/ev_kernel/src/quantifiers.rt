//! The rows of the quantifiers and of instances. Each function says whether its row holds.
ghost use Rattle.std.specs.Prelude.{◌≡◌, ◌↔◌, [], ◌∷◌, map, IsTrue, IfOk};
ghost use Rattle.ev_terms.specs.Types.{type_list};
ghost use Rattle.ev_terms.specs.Term.{terms as terms_of};
ghost use Rattle.ev_terms.specs.Substitution.{substitute, fill, instance, type_inst, type_at};
ghost use Rattle.ev_typing.specs.Typing.{AreProper, AreTyped};
ghost use Rattle.ev_kernel.specs.Row.{Row};
ghost use Rattle.ev_kernel.specs.declared.rules.BaseRule.TheVariants.{Inst, AllI, AllE, ExI, ExE};

use crate::contexts::{assumes_under, stands_beside, stands_under};
use crate::instances::is_filled;
use ev_forms::{Binder, bound_parts};
use ev_terms::{NoMemory, Tree, Trees, Tys, instantiate_types, same};
use ev_typing::{Env, Sequent, are_proper, has_type, have_types_at};
use std::alloc::Global;

/// Whether the term is the predicate with this term for its innermost variable.
pub(crate) fn is_with(tree: &Tree, predicate: &Tree, term: &Tree) -> bool
    ensures { IsTrue result ↔ (tree.now ≡ substitute predicate.now (term.now ∷ [])) }
{
    is_filled(tree, predicate, std::slice::from_ref(term))
}

pub(crate) fn forall_intro(premise: &Sequent, sequent: &Sequent) -> bool
    ensures { IsTrue result ↔ Row [] (premise.now ∷ []) AllI sequent.now }
{
    match bound_parts(&sequent.goal, Binder::ForAll) {
        Some((ty, body)) => {
            if !stands_under(premise, sequent, ty) {
                return false;
            }
            same(&premise.goal, body)
        }
        None => false,
    }
}

pub(crate) fn forall_elim(
    alloc: Global,
    env: &Env,
    term: &Tree,
    premise: &Sequent,
    sequent: &Sequent,
) -> Result<bool, NoMemory>
    ensures { IfOk result (λ yes. IsTrue yes ↔ Row env.now (premise.now ∷ []) (AllE term.now) sequent.now) }
{
    match bound_parts(&premise.goal, Binder::ForAll) {
        Some((ty, body)) => {
            if !stands_beside(premise, sequent) || !is_with(&sequent.goal, body, term) {
                return Ok(false);
            }
            has_type(alloc, env, &sequent.context, term, ty)
        }
        None => Ok(false),
    }
}

pub(crate) fn exists_intro(
    alloc: Global,
    env: &Env,
    term: &Tree,
    premise: &Sequent,
    sequent: &Sequent,
) -> Result<bool, NoMemory>
    ensures { IfOk result (λ yes. IsTrue yes ↔ Row env.now (premise.now ∷ []) (ExI term.now) sequent.now) }
{
    match bound_parts(&sequent.goal, Binder::ForSome) {
        Some((ty, body)) => {
            if !stands_beside(premise, sequent) || !is_with(&premise.goal, body, term) {
                return Ok(false);
            }
            has_type(alloc, env, &sequent.context, term, ty)
        }
        None => Ok(false),
    }
}

pub(crate) fn exists_elim(first: &Sequent, second: &Sequent, sequent: &Sequent) -> bool
    ensures { IsTrue result ↔ Row [] (first.now ∷ second.now ∷ []) ExE sequent.now }
{
    if !stands_beside(first, sequent) {
        return false;
    }
    match bound_parts(&first.goal, Binder::ForSome) {
        Some((ty, body)) => assumes_under(second, sequent, ty, body),
        None => false,
    }
}

/// Whether the term is the pattern with types put for its parameters and then arguments for its variables, that of the outermost
/// first.
fn is_instance(
    alloc: Global,
    tree: &Tree,
    pattern: &Tree,
    types: &Tys,
    terms: &Trees,
) -> Result<bool, NoMemory>
    ensures { IfOk result (λ yes. IsTrue yes ↔ (tree.now ≡ fill (instance pattern.now types.now) terms.now)) }
{
    let instance = instantiate_types(alloc, pattern, types)?;
    Ok(is_filled(tree, &instance, terms.as_slice()))
}

/// The same of each of the terms.
#[tactic(auto, using(crate::proofs::Lists::maps))]
fn are_instances(
    alloc: Global,
    trees: &[Tree],
    patterns: &[Tree],
    types: &Tys,
    terms: &Trees,
) -> Result<bool, NoMemory>
    ensures { IfOk result (λ yes. IsTrue yes ↔ (trees.now ≡ map (λ P. fill (instance P types.now) terms.now) patterns.now)) }
{
    if trees.len() != patterns.len() {
        return Ok(false);
    }
    for i in 0..trees.len() {
        if !is_instance(alloc, &trees[i], &patterns[i], types, terms)? {
            return Ok(false);
        }
    }
    Ok(true)
}

/// Whether the types and the terms may be put, and the terms fit the premise's context.
fn may_be_put(
    alloc: Global,
    env: &Env,
    types: &Tys,
    terms: &Trees,
    premise: &Sequent,
    sequent: &Sequent,
) -> Result<bool, NoMemory>
    ensures { IfOk result (λ yes. IsTrue yes ↔ (AreProper env.now types.now × AreTyped env.now (type_list sequent.now.context) (terms_of terms.now) (map (type_inst (type_at types.now)) (type_list premise.now.context)))) }
{
    if !are_proper(env, types) {
        return Ok(false);
    }
    have_types_at(
        alloc,
        env,
        &sequent.context,
        terms.as_slice(),
        &premise.context,
        types,
    )
}

pub(crate) fn instantiation(
    alloc: Global,
    env: &Env,
    types: &Tys,
    terms: &Trees,
    premise: &Sequent,
    sequent: &Sequent,
) -> Result<bool, NoMemory>
    ensures { IfOk result (λ yes. IsTrue yes ↔ Row env.now (premise.now ∷ []) (Inst types.now terms.now) sequent.now) }
{
    if !is_instance(alloc, &sequent.goal, &premise.goal, types, terms)? {
        return Ok(false);
    }
    let (hyps, patterns) = (sequent.hyps.as_slice(), premise.hyps.as_slice());
    if !are_instances(alloc, hyps, patterns, types, terms)? {
        return Ok(false);
    }
    may_be_put(alloc, env, types, terms, premise, sequent)
}
