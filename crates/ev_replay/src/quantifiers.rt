//! The steps of the rules of the quantifiers, and of induction.
ghost use Rattle.std.specs.Prelude.{◌≡◌, Some, [], ◌∷◌, IfOk};
ghost use Rattle.ev_terms.specs.Substitution.{substitute};
ghost use Rattle.ev_typing.specs.BaseSequents.{under};
ghost use Rattle.ev_typing.specs.Sequents.{◌⊢◌, ◌▹◌};
ghost use Rattle.ev_proof.specs.declared.steps.Step.TheVariants as step;
ghost use Rattle.ev_kernel.specs.Row.{Row};
ghost use Rattle.ev_kernel.specs.declared.rules.BaseRule.TheVariants.{AllI, Ind};
ghost use Rattle.ev_replay.specs.RuleSteps.{GivesByRule};
ghost use Rattle.ev_replay.specs.inner.Finding.{Only};

use crate::reading::{read_formula, read_term};
use crate::scopes::CiteScope;
use crate::sequents::{inside, one, one_goal, raised, two, with_goal};
use ev_data::induction_premises;
use ev_forms::{Binder, bound_parts};
use ev_syntax::Raw;
use ev_terms::{NoMemory, Tree, Trees, TryCopy, Ty, same, substitute, substitute_fits};
use ev_typing::{Env, Sequent, Sequents};
use std::alloc::Global;

/// The predicate with a term for its innermost variable. Where it has no room for the term's variables the answer is want of memory.
fn put(alloc: Global, predicate: &Tree, term: &Tree) -> Result<Tree, NoMemory>
    ensures { IfOk result (λ t. t ≡ substitute predicate.now (term.now ∷ [])) }
{
    let mut terms = Trees::new(alloc);
    terms.push(alloc, term.try_copy(alloc)?)?;
    if !substitute_fits(predicate, &terms) {
        return Err(NoMemory);
    }
    substitute(alloc, predicate, &terms)
}

pub(crate) fn forall_intro(alloc: Global, goal: &Sequent) -> Result<Option<Sequents>, NoMemory>
    ensures { IfOk result (Only (λ gs. Row [] gs AllI goal.now)) }
{
    match bound_parts(&goal.goal, Binder::ForAll) {
        Some((ty, body)) => {
            let opened = inside(alloc, goal, std::slice::from_ref(ty), body)?;
            Ok(Some(one(alloc, opened)?))
        }
        None => Ok(None),
    }
}

/// By a quantified formula at a term.
pub(crate) fn forall_elim(
    alloc: Global,
    scope: &CiteScope,
    goal: &Sequent,
    raw: &Raw,
    raw_term: &Raw,
) -> Result<Option<Sequents>, NoMemory>
    ensures { IfOk result (Only (GivesByRule scope.now.env scope.now.params goal.now (step.AllE raw.now raw_term.now))) }
{
    match read_formula(alloc, scope, goal, raw)? {
        Some(formula) => match bound_parts(&formula, Binder::ForAll) {
            Some((ty, body)) => match read_term(alloc, scope, goal, ty, raw_term)? {
                Some(term) => at_term(alloc, goal, &formula, body, &term),
                None => Ok(None),
            },
            None => Ok(None),
        },
        None => Ok(None),
    }
}

/// The formula as the only subgoal, where its body at the term is the goal.
fn at_term(
    alloc: Global,
    goal: &Sequent,
    formula: &Tree,
    body: &Tree,
    term: &Tree,
) -> Result<Option<Sequents>, NoMemory>
    ensures { IfOk result (Only (λ gs. (goal.now.goal ≡ substitute body.now (term.now ∷ [])) × (gs ≡ (goal.now ⊢ formula.now) ∷ []))) }
{
    let instance = put(alloc, body, term)?;
    if !same(&goal.goal, &instance) {
        return Ok(None);
    }
    Ok(Some(one_goal(alloc, goal, formula)?))
}

/// By a term of which the predicate holds.
pub(crate) fn exists_intro(
    alloc: Global,
    scope: &CiteScope,
    goal: &Sequent,
    raw: &Raw,
) -> Result<Option<Sequents>, NoMemory>
    ensures { IfOk result (Only (GivesByRule scope.now.env scope.now.params goal.now (step.ExI raw.now))) }
{
    match bound_parts(&goal.goal, Binder::ForSome) {
        Some((ty, body)) => match read_term(alloc, scope, goal, ty, raw)? {
            Some(term) => {
                let instance = put(alloc, body, &term)?;
                Ok(Some(one_goal(alloc, goal, &instance)?))
            }
            None => Ok(None),
        },
        None => Ok(None),
    }
}

/// By what a quantified formula says that there is.
pub(crate) fn exists_elim(
    alloc: Global,
    scope: &CiteScope,
    goal: &Sequent,
    raw: &Raw,
) -> Result<Option<Sequents>, NoMemory>
    ensures { IfOk result (Only (GivesByRule scope.now.env scope.now.params goal.now (step.ExE raw.now))) }
{
    match read_formula(alloc, scope, goal, raw)? {
        Some(formula) => match bound_parts(&formula, Binder::ForSome) {
            Some((ty, body)) => {
                let first = with_goal(alloc, goal, &formula)?;
                let second = supposing_under(alloc, goal, ty, body)?;
                Ok(Some(two(alloc, first, second)?))
            }
            None => Ok(None),
        },
        None => Ok(None),
    }
}

/// The goal in the context with one more variable, under one more hypothesis, which stands there.
fn supposing_under(alloc: Global, goal: &Sequent, ty: &Ty, hyp: &Tree) -> Result<Sequent, NoMemory>
    ensures { IfOk result (λ s. s ≡ (under goal.now ty.now ▹ hyp.now)) }
{
    let shifted = raised(alloc, &goal.goal, 1)?;
    let mut opened = inside(alloc, goal, std::slice::from_ref(ty), &shifted)?;
    opened.hyps.push(alloc, hyp.try_copy(alloc)?)?;
    Ok(opened)
}

/// Induction over the datatype of a quantifier.
pub(crate) fn induction(
    alloc: Global,
    env: &Env,
    goal: &Sequent,
) -> Result<Option<Sequents>, NoMemory>
    ensures { IfOk result (Only (λ gs. Row env.now gs Ind goal.now)) }
{
    induction_premises(alloc, env, goal)
}
