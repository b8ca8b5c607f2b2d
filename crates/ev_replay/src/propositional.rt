//! The steps of the structural rules and of the propositional connectives that need no formula: each gives the premises of its rule.
ghost use Rattle.std.specs.Prelude.{◌≡◌, Some, [], IfOk, List};
ghost use Rattle.std.specs.Option.{option_copied};
ghost use Rattle.std.specs.List.{AllZip};
ghost use Rattle.ev_typing.specs.declared.typing.Sequent.{Sequent};
ghost use Rattle.ev_kernel.specs.Row.{Row};
ghost use Rattle.ev_kernel.specs.declared.rules.BaseRule.TheVariants.{FalseE, NotI, AndI, OrI1, OrI2, ImpI, IffI};
ghost use Rattle.ev_kernel.specs.Derivable.{numbered};
ghost use Rattle.ev_proof.specs.declared.steps.Step.TheVariants as step;
ghost use Rattle.ev_replay.specs.RuleSteps.{GivesByRule};
ghost use Rattle.ev_replay.specs.inner.Finding.{Only};

use crate::sequents::{assuming, one, one_goal, two, two_goals};
use ev_forms::{Connective, joined_parts, make_falsity, negated_part};
use ev_kernel::{BaseRule, concludes};
use ev_terms::{NoMemory, Nums, Tree, Trees, TryCopy};
use ev_typing::{Env, Sequent, Sequents};
use std::alloc::Global;

/// No subgoals, where the goal is a conclusion of the rule, which has no premises.
pub(crate) fn closing(
    alloc: Global,
    env: &Env,
    goal: &Sequent,
    rule: BaseRule,
) -> Result<Option<Sequents>, NoMemory>
    requires { (gs : List Sequent) → Row env.now gs rule goal.now → gs ≡ [] }
    ensures { IfOk result (Only (λ gs. Row env.now gs rule goal.now)) }
{
    if concludes(alloc, env, &rule, goal)? {
        Ok(Some(Sequents::new(alloc)))
    } else {
        Ok(None)
    }
}

/// `false` in place of the goal.
pub(crate) fn falsity_elim(alloc: Global, goal: &Sequent) -> Result<Option<Sequents>, NoMemory>
    ensures { IfOk result (Only (λ gs. Row [] gs FalseE goal.now)) }
{
    let falsity = make_falsity(alloc)?;
    Ok(Some(one_goal(alloc, goal, &falsity)?))
}

pub(crate) fn not_intro(alloc: Global, goal: &Sequent) -> Result<Option<Sequents>, NoMemory>
    ensures { IfOk result (Only (λ gs. Row [] gs NotI goal.now)) }
{
    match negated_part(&goal.goal) {
        Some(negated) => {
            let falsity = make_falsity(alloc)?;
            let assumed = assuming(alloc, goal, negated, &falsity)?;
            Ok(Some(one(alloc, assumed)?))
        }
        None => Ok(None),
    }
}

pub(crate) fn and_intro(alloc: Global, goal: &Sequent) -> Result<Option<Sequents>, NoMemory>
    ensures { IfOk result (Only (λ gs. Row [] gs AndI goal.now)) }
{
    match joined_parts(&goal.goal, Connective::And) {
        Some((left, right)) => Ok(Some(two_goals(alloc, goal, left, right)?)),
        None => Ok(None),
    }
}

pub(crate) fn or_intro_left(alloc: Global, goal: &Sequent) -> Result<Option<Sequents>, NoMemory>
    ensures { IfOk result (Only (λ gs. Row [] gs OrI1 goal.now)) }
{
    match joined_parts(&goal.goal, Connective::Or) {
        Some((left, _)) => Ok(Some(one_goal(alloc, goal, left)?)),
        None => Ok(None),
    }
}

pub(crate) fn or_intro_right(alloc: Global, goal: &Sequent) -> Result<Option<Sequents>, NoMemory>
    ensures { IfOk result (Only (λ gs. Row [] gs OrI2 goal.now)) }
{
    match joined_parts(&goal.goal, Connective::Or) {
        Some((_, right)) => Ok(Some(one_goal(alloc, goal, right)?)),
        None => Ok(None),
    }
}

pub(crate) fn implies_intro(alloc: Global, goal: &Sequent) -> Result<Option<Sequents>, NoMemory>
    ensures { IfOk result (Only (λ gs. Row [] gs ImpI goal.now)) }
{
    match joined_parts(&goal.goal, Connective::Implies) {
        Some((left, right)) => {
            let assumed = assuming(alloc, goal, left, right)?;
            Ok(Some(one(alloc, assumed)?))
        }
        None => Ok(None),
    }
}

pub(crate) fn iff_intro(alloc: Global, goal: &Sequent) -> Result<Option<Sequents>, NoMemory>
    ensures { IfOk result (Only (λ gs. Row [] gs IffI goal.now)) }
{
    match joined_parts(&goal.goal, Connective::Iff) {
        Some((left, right)) => {
            let first = assuming(alloc, goal, left, right)?;
            let second = assuming(alloc, goal, right, left)?;
            Ok(Some(two(alloc, first, second)?))
        }
        None => Ok(None),
    }
}

/// The hypothesis with a number from 1.
fn hypothesis_at(hyps: &[Tree], number: u128) -> Option<&Tree>
    ensures { option_copied result ≡ numbered hyps.now number }
{
    if number == 0 {
        return None;
    }
    match usize::try_from(number - 1) {
        Ok(i) => hyps.get(i),
        Err(_) => None,
    }
}

/// The hypotheses with these numbers, or none where there is no such hypothesis.
fn chosen(alloc: Global, hyps: &[Tree], numbers: &[u128]) -> Result<Option<Trees>, NoMemory>
    ensures { IfOk result (Only (λ H. AllZip (λ n P. numbered hyps.now n ≡ Some P) numbers.now H)) }
{
    let mut all = Trees::new(alloc);
    for number in numbers {
        match hypothesis_at(hyps, *number) {
            Some(hyp) => all.push(alloc, hyp.try_copy(alloc)?)?,
            None => return Ok(None),
        }
    }
    Ok(Some(all))
}

/// The goal under other hypotheses.
fn under_hypotheses(alloc: Global, goal: &Sequent, hyps: Trees) -> Result<Sequent, NoMemory>
    ensures { IfOk result (λ s. s ≡ record { context = goal.now.context; hyps = hyps; goal = goal.now.goal }) }
{
    Ok(Sequent {
        context: goal.context.try_copy(alloc)?,
        hyps,
        goal: goal.goal.try_copy(alloc)?,
    })
}

/// The goal under these hypotheses alone, by their numbers from 1.
pub(crate) fn weakening(
    alloc: Global,
    goal: &Sequent,
    numbers: &Nums,
) -> Result<Option<Sequents>, NoMemory>
    ensures { IfOk result (Only (GivesByRule [] [] goal.now (step.Weak numbers.now))) }
{
    match chosen(alloc, goal.hyps.as_slice(), numbers.as_slice())? {
        Some(hyps) => {
            let weaker = under_hypotheses(alloc, goal, hyps)?;
            Ok(Some(one(alloc, weaker)?))
        }
        None => Ok(None),
    }
}
