//! What a step does to a goal.
ghost use Rattle.std.specs.Prelude.{◌≡◌, ◌≢◌, ◌+◌, ◌↔◌, List, IfOk, IsTrue};
ghost use Rattle.std.specs.List.{AllByRecursion};
ghost use Rattle.ev_terms.specs.Term.{Term};
ghost use Rattle.ev_typing.specs.Typing.{IsSequent};
ghost use Rattle.ev_typing.specs.Sequents.{IsWithin};
ghost use Rattle.ev_proof.specs.declared.steps.Step.TheVariants.{Open};
ghost use Rattle.ev_replay.specs.Steps.{Applies};
ghost use Rattle.ev_replay.specs.inner.Applying.{Found};

use crate::by_formula::{
    and_elim_left, and_elim_right, cut, iff_elim_left, iff_elim_right, implies_elim, note, or_elim,
};
use crate::equality::{congruence, symmetry, transitivity};
use crate::propositional::{
    and_intro, closing, falsity_elim, iff_intro, implies_intro, not_intro, or_intro_left,
    or_intro_right, weakening,
};
use crate::quantifiers::{exists_elim, exists_intro, forall_elim, forall_intro, induction};
use crate::scopes::CiteScope;
use crate::steps::Applied;
use ev_kernel::BaseRule;
use ev_outside::Steps;
use ev_proof::Step;
use ev_terms::NoMemory;
use ev_terms::limits::{DEPTH_LIMIT, SIZE_LIMIT};
use ev_typing::{Env, Sequent, Sequents, is_sequent, sequent_extent};
use std::alloc::Global;
use std::sync::ledger::Ledger;

/// The subgoals that a step other than `open` gives, before it is looked at whether they are well typed and within the limits. Steps
/// that cite something or stand at a place are answered by want of memory.
fn subgoals(
    alloc: Global,
    scope: &CiteScope,
    goal: &Sequent,
    step: &Step,
) -> Result<Option<Sequents>, NoMemory>
    ensures { IfOk result (Found scope.now goal.now step.now) }
{
    let env = scope.env();
    match step {
        Step::Hyp => closing(alloc, env, goal, BaseRule::Hyp),
        Step::TrueI => closing(alloc, env, goal, BaseRule::TrueI),
        Step::Em => closing(alloc, env, goal, BaseRule::Em),
        Step::Refl => closing(alloc, env, goal, BaseRule::Refl),
        Step::SetMem => closing(alloc, env, goal, BaseRule::SetMem),
        Step::BoolMem => closing(alloc, env, goal, BaseRule::BoolMem),
        Step::Calc => closing(alloc, env, goal, BaseRule::Calc),
        Step::Weak(numbers) => weakening(alloc, goal, numbers),
        Step::Cut(raw) => cut(alloc, scope, goal, raw),
        Step::FalseE => falsity_elim(alloc, goal),
        Step::NotI => not_intro(alloc, goal),
        Step::AndI => and_intro(alloc, goal),
        Step::OrI1 => or_intro_left(alloc, goal),
        Step::OrI2 => or_intro_right(alloc, goal),
        Step::ImpI => implies_intro(alloc, goal),
        Step::IffI => iff_intro(alloc, goal),
        Step::AllI => forall_intro(alloc, goal),
        Step::Sym => symmetry(alloc, goal),
        Step::Cong => congruence(alloc, env, goal),
        Step::Note(raw) => note(alloc, scope, goal, raw),
        Step::AndE1(raw) => and_elim_left(alloc, scope, goal, raw),
        Step::AndE2(raw) => and_elim_right(alloc, scope, goal, raw),
        Step::OrE(raw) => or_elim(alloc, scope, goal, raw),
        Step::ImpE(raw) => implies_elim(alloc, scope, goal, raw),
        Step::IffE1(raw) => iff_elim_right(alloc, scope, goal, raw),
        Step::IffE2(raw) => iff_elim_left(alloc, scope, goal, raw),
        Step::AllE(raw, term) => forall_elim(alloc, scope, goal, raw, term),
        Step::ExI(raw) => exists_intro(alloc, scope, goal, raw),
        Step::ExE(raw) => exists_elim(alloc, scope, goal, raw),
        Step::Trans(raw) => transitivity(alloc, scope, goal, raw),
        Step::Induct => induction(alloc, env, goal),
        _ => Err(NoMemory),
    }
}

/// Whether the sequent is well typed and within the limits of goals.
fn is_goal(alloc: Global, env: &Env, sequent: &Sequent) -> Result<bool, NoMemory>
    ensures { IfOk result (λ yes. IsTrue yes ↔ (IsSequent env.now sequent.now × IsWithin 65536 512 sequent.now)) }
{
    let extent = sequent_extent(sequent);
    if extent.size > SIZE_LIMIT || extent.depth > DEPTH_LIMIT {
        return Ok(false);
    }
    is_sequent(alloc, env, sequent)
}

fn are_goals(alloc: Global, env: &Env, sequents: &[Sequent]) -> Result<bool, NoMemory>
    ensures { IfOk result (λ yes. IsTrue yes ↔ (AllByRecursion (IsSequent env.now) sequents.now × AllByRecursion (IsWithin 65536 512) sequents.now)) }
{
    for sequent in sequents {
        if !is_goal(alloc, env, sequent)? {
            return Ok(false);
        }
    }
    Ok(true)
}

/// What a step other than `open` does to the goal.
fn apply_rule(
    alloc: Global,
    scope: &CiteScope,
    goal: &Sequent,
    step: &Step,
) -> Result<Applied, NoMemory>
    requires { step.now ≢ Open }
    ensures { IfOk result (λ a. (used : List Term) × Applies scope.now goal.now step.now a used) }
{
    match subgoals(alloc, scope, goal, step)? {
        Some(goals) => {
            if are_goals(alloc, scope.env(), goals.as_slice())? {
                Ok(Applied::Goals(goals))
            } else {
                Ok(Applied::Refused)
            }
        }
        None => Ok(Applied::Refused),
    }
}

/// What the step does to the goal: the subgoals that it gives, in order; that it leaves the goal; or that it does not fit. It ticks once.
/// Subgoals are looked at whole; beside that, the work of a step is linear in what it reads and in the nodes that it makes.
pub fn apply<L: Ledger>(
    alloc: Global,
    scope: &CiteScope,
    goal: &Sequent,
    step: &Step,
    steps: &mut Steps<L>,
) -> Result<Applied, NoMemory>
    ensures applied { IfOk result (λ a. (used : List Term) × Applies scope.now goal.now step.now a used) }
    ensures counted { steps.new ≡ steps.old + 1 }
{
    steps.tick();
    match step {
        Step::Open => Ok(Applied::Left),
        _ => apply_rule(alloc, scope, goal, step),
    }
}
