//! The replay of proofs.
ghost use Rattle.std.specs.Prelude.{◌≡◌, ◌+◌, ◌++◌, ◌≤◌, ◌<◌, ◌^◌, List, IfOk, IfSome, IfNone, OnOk, reverse};
ghost use Rattle.ev_terms.specs.Term.{Term};
ghost use Rattle.ev_replay.specs.declared.steps.Applied.TheVariants as applied;
ghost use Rattle.ev_replay.specs.Steps.{Applies};
ghost use Rattle.ev_replay.specs.Replay.{Trace, Replays, outcome_with};
ghost use Rattle.ev_replay.specs.inner.Replaying.{Advances};

use crate::applying::apply;
use crate::scopes::CiteScope;
use crate::steps::{Applied, Outcome};
use ev_outside::Steps;
use ev_proof::{Step, StepLines};
use ev_terms::{NoMemory, TryCopy};
use ev_typing::{Sequent, Sequents};
use std::alloc::Global;
use std::sync::ledger::Ledger;

/// Puts goals on the stack, the first one on top.
fn push_goals(stack: &mut Vec<Sequent>, goals: Sequents) -> Result<(), NoMemory>
    ensures { OnOk result (reverse stack.new.items ≡ goals ++ reverse stack.old.items) }
{
    let mut goals = goals.into_vec();
    'goals: while let Some(goal) = goals.pop() {
        stack.push(goal)?;
    }
    Ok(())
}

/// The outcome where so many goals are left.
fn outcome_with(left: u128) -> Outcome
    ensures { result ≡ outcome_with left }
{
    if left == 0 {
        Outcome::Complete
    } else {
        Outcome::Partial(left)
    }
}

/// Applies a step to the first goal, where the stack has the goals behind it: how many goals are then left aside, or `None` where the
/// step does not fit.
fn advance<L: Ledger>(
    alloc: Global,
    scope: &CiteScope,
    stack: &mut Vec<Sequent>,
    left: u64,
    first: &Sequent,
    step: &Step,
    steps: &mut Steps<L>,
) -> Result<Option<u64>, NoMemory>
    requires { left < 2 ^ 63 }
    ensures some { IfOk result (λ o. IfSome o (λ now. (now ≤ left + 1) × Advances scope.now left (reverse stack.old.items) first.now step.now now (reverse stack.new.items))) }
    ensures none { IfOk result (λ o. IfNone o ((used : List Term) × Applies scope.now first.now step.now applied.Refused used)) }
    ensures counted { steps.new ≡ steps.old + 1 }
{
    match apply(alloc, scope, first, step, steps)? {
        Applied::Goals(goals) => {
            push_goals(stack, goals)?;
            Ok(Some(left))
        }
        Applied::Left => Ok(Some(left + 1)),
        Applied::Refused => Ok(None),
    }
}

/// How the replay of these lines on a sequent ends.
fn replay_lines<L: Ledger>(
    alloc: Global,
    scope: &CiteScope,
    sequent: &Sequent,
    lines: &[Option<Step>],
    steps: &mut Steps<L>,
) -> Result<Outcome, NoMemory>
    ensures { IfOk result (λ o. (t : Trace) × Replays scope.now sequent.now lines.now t o × (steps.new ≡ steps.old + t.applied)) }
{
    let mut stack = Vec::new(alloc);
    stack.push(sequent.try_copy(alloc)?)?;
    let mut left: u64 = 0;
    for i in 0..lines.len() {
        let Some(step) = &lines[i] else {
            return Ok(Outcome::Broken(i as u64 + 1));
        };
        let Some(first) = stack.pop() else {
            return Ok(Outcome::Broken(i as u64 + 1));
        };
        let Some(now) = advance(alloc, scope, &mut stack, left, &first, step, steps)? else {
            return Ok(Outcome::Broken(i as u64 + 1));
        };
        left = now;
    }
    Ok(outcome_with(u128::from(left) + stack.len() as u128))
}

/// How the replay of a proof on a sequent ends. It ticks once for each step that is applied, which is each that finds a goal.
pub fn replay<L: Ledger>(
    alloc: Global,
    scope: &CiteScope,
    sequent: &Sequent,
    lines: &StepLines,
    steps: &mut Steps<L>,
) -> Result<Outcome, NoMemory>
    ensures { IfOk result (λ o. (t : Trace) × Replays scope.now sequent.now lines.now t o × (steps.new ≡ steps.old + t.applied)) }
{
    replay_lines(alloc, scope, sequent, lines.as_slice(), steps)
}
