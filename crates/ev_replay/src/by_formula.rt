//! The steps of the structural rules and of the propositional connectives by a formula that they name: each gives the premises of its
//! rule.
ghost use Rattle.std.specs.Prelude.{◌≡◌, [], ◌∷◌, IfOk};
ghost use Rattle.ev_proof.specs.declared.steps.Step.TheVariants as step;
ghost use Rattle.ev_replay.specs.RuleSteps.{GivesByRule};
ghost use Rattle.ev_replay.specs.inner.Finding.{Only};

use crate::reading::read_formula;
use crate::scopes::CiteScope;
use crate::sequents::{one_goal, supposing, two, two_goals, with_goal};
use ev_forms::{Connective, is_falsity, joined_parts, make_joined, make_negation};
use ev_syntax::Raw;
use ev_terms::{NoMemory, TryCopy};
use ev_typing::{Sequent, Sequents};
use std::alloc::Global;

pub(crate) fn cut(
    alloc: Global,
    scope: &CiteScope,
    goal: &Sequent,
    raw: &Raw,
) -> Result<Option<Sequents>, NoMemory>
    ensures { IfOk result (Only (GivesByRule scope.now.env scope.now.params goal.now (step.Cut raw.now))) }
{
    match read_formula(alloc, scope, goal, raw)? {
        Some(formula) => {
            let first = with_goal(alloc, goal, &formula)?;
            let second = supposing(alloc, goal, &formula)?;
            Ok(Some(two(alloc, first, second)?))
        }
        None => Ok(None),
    }
}

/// By a predicate and its negation.
pub(crate) fn note(
    alloc: Global,
    scope: &CiteScope,
    goal: &Sequent,
    raw: &Raw,
) -> Result<Option<Sequents>, NoMemory>
    ensures { IfOk result (Only (GivesByRule scope.now.env scope.now.params goal.now (step.Note raw.now))) }
{
    if !is_falsity(&goal.goal) {
        return Ok(None);
    }
    match read_formula(alloc, scope, goal, raw)? {
        Some(formula) => {
            let negation = make_negation(alloc, formula.try_copy(alloc)?)?;
            Ok(Some(two_goals(alloc, goal, &formula, &negation)?))
        }
        None => Ok(None),
    }
}

pub(crate) fn and_elim_left(
    alloc: Global,
    scope: &CiteScope,
    goal: &Sequent,
    raw: &Raw,
) -> Result<Option<Sequents>, NoMemory>
    ensures { IfOk result (Only (GivesByRule scope.now.env scope.now.params goal.now (step.AndE1 raw.now))) }
{
    match read_formula(alloc, scope, goal, raw)? {
        Some(formula) => {
            let left = goal.goal.try_copy(alloc)?;
            let both = make_joined(alloc, Connective::And, left, formula)?;
            Ok(Some(one_goal(alloc, goal, &both)?))
        }
        None => Ok(None),
    }
}

pub(crate) fn and_elim_right(
    alloc: Global,
    scope: &CiteScope,
    goal: &Sequent,
    raw: &Raw,
) -> Result<Option<Sequents>, NoMemory>
    ensures { IfOk result (Only (GivesByRule scope.now.env scope.now.params goal.now (step.AndE2 raw.now))) }
{
    match read_formula(alloc, scope, goal, raw)? {
        Some(formula) => {
            let right = goal.goal.try_copy(alloc)?;
            let both = make_joined(alloc, Connective::And, formula, right)?;
            Ok(Some(one_goal(alloc, goal, &both)?))
        }
        None => Ok(None),
    }
}

pub(crate) fn or_elim(
    alloc: Global,
    scope: &CiteScope,
    goal: &Sequent,
    raw: &Raw,
) -> Result<Option<Sequents>, NoMemory>
    ensures { IfOk result (Only (GivesByRule scope.now.env scope.now.params goal.now (step.OrE raw.now))) }
{
    match read_formula(alloc, scope, goal, raw)? {
        Some(formula) => match joined_parts(&formula, Connective::Or) {
            Some((left, right)) => {
                let either = with_goal(alloc, goal, &formula)?;
                let first = supposing(alloc, goal, left)?;
                let second = supposing(alloc, goal, right)?;
                Ok(Some(three(alloc, either, first, second)?))
            }
            None => Ok(None),
        },
        None => Ok(None),
    }
}

fn three(
    alloc: Global,
    first: Sequent,
    second: Sequent,
    third: Sequent,
) -> Result<Sequents, NoMemory>
    ensures { IfOk result (λ gs. gs ≡ first ∷ second ∷ third ∷ []) }
{
    let mut goals = two(alloc, first, second)?;
    goals.push(alloc, third)?;
    Ok(goals)
}

/// Modus ponens.
pub(crate) fn implies_elim(
    alloc: Global,
    scope: &CiteScope,
    goal: &Sequent,
    raw: &Raw,
) -> Result<Option<Sequents>, NoMemory>
    ensures { IfOk result (Only (GivesByRule scope.now.env scope.now.params goal.now (step.ImpE raw.now))) }
{
    match read_formula(alloc, scope, goal, raw)? {
        Some(formula) => {
            let (left, right) = (formula.try_copy(alloc)?, goal.goal.try_copy(alloc)?);
            let implication = make_joined(alloc, Connective::Implies, left, right)?;
            Ok(Some(two_goals(alloc, goal, &implication, &formula)?))
        }
        None => Ok(None),
    }
}

/// By an equivalence whose right side is the goal.
pub(crate) fn iff_elim_right(
    alloc: Global,
    scope: &CiteScope,
    goal: &Sequent,
    raw: &Raw,
) -> Result<Option<Sequents>, NoMemory>
    ensures { IfOk result (Only (GivesByRule scope.now.env scope.now.params goal.now (step.IffE1 raw.now))) }
{
    match read_formula(alloc, scope, goal, raw)? {
        Some(formula) => {
            let (left, right) = (formula.try_copy(alloc)?, goal.goal.try_copy(alloc)?);
            let equivalence = make_joined(alloc, Connective::Iff, left, right)?;
            Ok(Some(two_goals(alloc, goal, &equivalence, &formula)?))
        }
        None => Ok(None),
    }
}

/// By an equivalence whose left side is the goal.
pub(crate) fn iff_elim_left(
    alloc: Global,
    scope: &CiteScope,
    goal: &Sequent,
    raw: &Raw,
) -> Result<Option<Sequents>, NoMemory>
    ensures { IfOk result (Only (GivesByRule scope.now.env scope.now.params goal.now (step.IffE2 raw.now))) }
{
    match read_formula(alloc, scope, goal, raw)? {
        Some(formula) => {
            let (left, right) = (goal.goal.try_copy(alloc)?, formula.try_copy(alloc)?);
            let equivalence = make_joined(alloc, Connective::Iff, left, right)?;
            Ok(Some(two_goals(alloc, goal, &equivalence, &formula)?))
        }
        None => Ok(None),
    }
}
