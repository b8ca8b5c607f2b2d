ghost use Rattle.std.specs.Prelude.{◌≡◌, ◌≢◌, ◌+◌, ◌<◌, ◌≤◌, ◌^◌, ◌++◌, [], ◌∷◌, ◌↔◌, List, Some, IfNone, IfOk, IfSome, IsTrue, OnOk, reverse};
ghost use Rattle.std.specs.List.{AllByRecursion};
ghost use Rattle.ev_typing.specs.declared.typing.Sequent.{Sequent};
ghost use Rattle.ev_typing.specs.Sequents.{◌⊢◌, ◌▹◌, IsWithin};
ghost use Rattle.ev_kernel.specs.Row.{Row};
ghost use Rattle.theory.specs.Formulas.{size_limit};
ghost use Rattle.theory.specs.Steps.{ReadsUp, Advances, Applies, Replays, depth_limit, outcome_with};

use crate::steps::{Applied, Outcome, Step};
use ev_forms::{Connective, joined_parts};
use ev_kernel::{BaseRule, concludes};
use ev_outside::Steps as Counter;
use ev_terms::limits::{DEPTH_LIMIT, SIZE_LIMIT};
use ev_terms::{NoMemory, Tree, TryCopy};
use ev_typing::{Env, Sequent, Sequents, sequent_extent};
use std::alloc::Global;
use std::sync::ledger::Ledger;

/// The sequent with another goal.
fn with_goal(alloc: Global, sequent: &Sequent, goal: &Tree) -> Result<Sequent, NoMemory>
    ensures { IfOk result (λ s. s ≡ (sequent.now ⊢ goal.now)) }
{
    Ok(Sequent {
        context: sequent.context.try_copy(alloc)?,
        hyps: sequent.hyps.try_copy(alloc)?,
        goal: goal.try_copy(alloc)?,
    })
}

/// The sequent with one more hypothesis and another goal.
fn assuming(alloc: Global, sequent: &Sequent, hyp: &Tree, goal: &Tree) -> Result<Sequent, NoMemory>
    ensures { IfOk result (λ s. s ≡ (sequent.now ▹ hyp.now ⊢ goal.now)) }
{
    let mut assumed = with_goal(alloc, sequent, goal)?;
    assumed.hyps.push(alloc, hyp.try_copy(alloc)?)?;
    Ok(assumed)
}

/// Whether the goal follows by the rule from no premises.
fn closes(alloc: Global, env: &Env, goal: &Sequent, rule: BaseRule) -> Result<bool, NoMemory>
    ensures { IfOk result (λ yes. IsTrue yes ↔ Row env.now [] rule goal.now) }
{
    concludes(alloc, env, &rule, goal)
}

/// No subgoals, where the goal follows by the rule from no premises.
fn closing(
    alloc: Global,
    env: &Env,
    goal: &Sequent,
    rule: BaseRule,
) -> Result<Option<Sequents>, NoMemory>
    ensures found { IfOk result (λ o. IfSome o (λ gs. (gs ≡ []) × Row env.now [] rule goal.now)) }
    ensures none { IfOk result (λ o. IfNone o (Row env.now [] rule goal.now → ⊥)) }
{
    if closes(alloc, env, goal, rule)? {
        Ok(Some(Sequents::new(alloc)))
    } else {
        Ok(None)
    }
}

/// The sequent as the only subgoal.
fn single(alloc: Global, sequent: Sequent) -> Result<Option<Sequents>, NoMemory>
    ensures { IfOk result (λ o. o ≡ Some (sequent ∷ [])) }
{
    let mut goals = Sequents::new(alloc);
    goals.push(alloc, sequent)?;
    Ok(Some(goals))
}

/// The subgoals from which the goal follows by the step's rule.
fn subgoals_of(
    alloc: Global,
    env: &Env,
    goal: &Sequent,
    step: Step,
) -> Result<Option<Sequents>, NoMemory>
    ensures found { IfOk result (λ o. IfSome o (λ gs. ReadsUp env.now goal.now step gs)) }
    ensures none { IfOk result (λ o. IfNone o ((gs : List Sequent) → ¬ ReadsUp env.now goal.now step gs)) }
{
    match step {
        Step::Hyp => closing(alloc, env, goal, BaseRule::Hyp),
        Step::TrueI => closing(alloc, env, goal, BaseRule::TrueI),
        Step::AndI => match joined_parts(&goal.goal, Connective::And) {
            Some((left, right)) => {
                let mut goals = Sequents::new(alloc);
                goals.push(alloc, with_goal(alloc, goal, left)?)?;
                goals.push(alloc, with_goal(alloc, goal, right)?)?;
                Ok(Some(goals))
            }
            None => Ok(None),
        },
        Step::OrI1 => match joined_parts(&goal.goal, Connective::Or) {
            Some((left, _)) => single(alloc, with_goal(alloc, goal, left)?),
            None => Ok(None),
        },
        Step::OrI2 => match joined_parts(&goal.goal, Connective::Or) {
            Some((_, right)) => single(alloc, with_goal(alloc, goal, right)?),
            None => Ok(None),
        },
        Step::ImpI => match joined_parts(&goal.goal, Connective::Implies) {
            Some((left, right)) => single(alloc, assuming(alloc, goal, left, right)?),
            None => Ok(None),
        },
        Step::Open => Ok(None),
    }
}

fn is_small(sequent: &Sequent) -> bool
    ensures { IsTrue result ↔ IsWithin size_limit depth_limit sequent.now }
{
    let extent = sequent_extent(sequent);
    extent.size <= SIZE_LIMIT && extent.depth <= DEPTH_LIMIT
}

fn are_small(sequents: &[Sequent]) -> bool
    ensures { IsTrue result ↔ AllByRecursion (IsWithin size_limit depth_limit) sequents.now }
{
    for sequent in sequents {
        if !is_small(sequent) {
            return false;
        }
    }
    true
}

/// What a step other than `open` does to the goal.
fn apply_rule(alloc: Global, env: &Env, goal: &Sequent, step: Step) -> Result<Applied, NoMemory>
    requires { step ≢ Step.Open }
    ensures { IfOk result (λ a. Applies env.now goal.now step a) }
{
    match subgoals_of(alloc, env, goal, step)? {
        Some(goals) => {
            if are_small(goals.as_slice()) {
                Ok(Applied::Goals(goals))
            } else {
                Ok(Applied::Refused)
            }
        }
        None => Ok(Applied::Refused),
    }
}

/// What the step does to the goal.
fn apply(alloc: Global, env: &Env, goal: &Sequent, step: Step) -> Result<Applied, NoMemory>
    ensures { IfOk result (λ a. Applies env.now goal.now step a) }
{
    match step {
        Step::Open => Ok(Applied::Left),
        _ => apply_rule(alloc, env, goal, step),
    }
}

/// Puts goals on the stack, the first one on top.
fn push_goals(stack: &mut Vec<Sequent>, goals: Sequents) -> Result<(), NoMemory>
    ensures { OnOk result (reverse stack.new.items ≡ goals ++ reverse stack.old.items) }
{
    let mut goals = goals.into_vec();
    'goals: while let Some(goal) = goals.pop() {
        stack.push(goal)?;
    }
    Ok(())
}

/// The outcome where so many goals are left.
fn outcome_with(left: u128) -> Outcome
    ensures { result ≡ outcome_with left }
{
    if left == 0 {
        Outcome::Complete
    } else {
        Outcome::Partial(left)
    }
}

/// Applies a step to the first goal, where the stack has the goals behind it: how many goals are then left aside, or `None` where the
/// step gives none.
fn advance(
    alloc: Global,
    env: &Env,
    stack: &mut Vec<Sequent>,
    left: u64,
    first: &Sequent,
    step: Step,
) -> Result<Option<u64>, NoMemory>
    requires { left < 2 ^ 63 }
    ensures some { IfOk result (λ o. IfSome o (λ now. (now ≤ left + 1) × Advances env.now left (reverse stack.old.items) first.now step now (reverse stack.new.items))) }
    ensures none { IfOk result (λ o. IfNone o (Applies env.now first.now step Applied.Refused)) }
{
    match apply(alloc, env, first, step)? {
        Applied::Goals(goals) => {
            push_goals(stack, goals)?;
            Ok(Some(left))
        }
        Applied::Left => Ok(Some(left + 1)),
        Applied::Refused => Ok(None),
    }
}

/// Replays the steps on the goal. The counter ticks once for each step that is tried on a goal.
pub fn replay<L: Ledger>(
    alloc: Global,
    env: &Env,
    goal: Sequent,
    steps: &[Step],
    counter: &mut Counter<L>,
) -> Result<Outcome, NoMemory>
    ensures { IfOk result (λ o. Replays env.now goal steps.now o) }
{
    let mut stack = Vec::new(alloc);
    stack.push(goal)?;
    let mut left: u64 = 0;
    for i in 0..steps.len() {
        let Some(first) = stack.pop() else {
            return Ok(Outcome::Broken(i as u64 + 1));
        };
        counter.tick();
        let Some(now) = advance(alloc, env, &mut stack, left, &first, steps[i])? else {
            return Ok(Outcome::Broken(i as u64 + 1));
        };
        left = now;
    }
    Ok(outcome_with(u128::from(left) + stack.len() as u128))
}
