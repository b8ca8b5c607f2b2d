//! The rows of axioms, of datatypes and of recursive operators. Each function says whether its row holds.
ghost use Rattle.std.specs.Prelude.{◌≡◌, ◌↔◌, ◌≤◌, [], length, IsTrue, IfOk};
ghost use Rattle.std.specs.List.{AllByRecursion};
ghost use Rattle.ev_kernel.specs.Row.{Row};
ghost use Rattle.ev_kernel.specs.Derivable.{named};
ghost use Rattle.ev_kernel.specs.declared.rules.BaseRule.TheVariants.{Axiom, Des, Dis, Ind, Rec};

use crate::contexts::is_same_sequent;
use crate::numbers::premise_of;
use ev_axioms::is_axiom;
use ev_data::{
    destructor_equation, distinctness, equation, has_destructor_equation, has_distinctness,
    has_equation, induction_premises,
};
use ev_terms::{Name, NoMemory, same};
use ev_typing::{Env, Sequent, Sequents};
use std::alloc::Global;

pub(crate) fn axiom_row(alloc: Global, k: u32, sequent: &Sequent) -> Result<bool, NoMemory>
    ensures { IfOk result (λ yes. IsTrue yes ↔ Row [] [] (Axiom k) sequent.now) }
{
    is_axiom(alloc, k, &sequent.goal)
}

pub(crate) fn destructor(
    alloc: Global,
    env: &Env,
    con: &Name,
    place: u32,
    sequent: &Sequent,
) -> Result<bool, NoMemory>
    ensures { IfOk result (λ yes. IsTrue yes ↔ Row env.now [] (Des con.now place) sequent.now) }
{
    if !has_destructor_equation(env, con, place) {
        return Ok(false);
    }
    let formula = destructor_equation(alloc, env, con, place)?;
    Ok(same(&formula, &sequent.goal))
}

pub(crate) fn distinct_constructors(
    alloc: Global,
    env: &Env,
    left: &Name,
    right: &Name,
    sequent: &Sequent,
) -> Result<bool, NoMemory>
    ensures { IfOk result (λ yes. IsTrue yes ↔ Row env.now [] (Dis left.now right.now) sequent.now) }
{
    if !has_distinctness(env, left, right) {
        return Ok(false);
    }
    let formula = distinctness(alloc, env, left, right)?;
    Ok(same(&formula, &sequent.goal))
}

pub(crate) fn recursion(
    alloc: Global,
    env: &Env,
    op: &Name,
    con: &Name,
    sequent: &Sequent,
) -> Result<bool, NoMemory>
    ensures { IfOk result (λ yes. IsTrue yes ↔ Row env.now [] (Rec op.now con.now) sequent.now) }
{
    if !has_equation(env, op, con) {
        return Ok(false);
    }
    let formula = equation(alloc, env, op, con)?;
    Ok(same(&formula, &sequent.goal))
}

/// Whether the sequents that the numbers name are these.
fn are_named(earlier: &Sequents, premises: &[u128], expected: &[Sequent]) -> bool
    requires { AllByRecursion (λ n. (1 ≤ n) × (n ≤ length earlier.now)) premises.now }
    ensures { IsTrue result ↔ (named earlier.now premises.now ≡ expected.now) }
{
    if expected.len() != premises.len() {
        return false;
    }
    for i in 0..premises.len() {
        let premise = premise_of(earlier, premises[i]);
        if !is_same_sequent(premise, &expected[i]) {
            return false;
        }
    }
    true
}

pub(crate) fn induction(
    alloc: Global,
    env: &Env,
    earlier: &Sequents,
    premises: &[u128],
    sequent: &Sequent,
) -> Result<bool, NoMemory>
    requires { AllByRecursion (λ n. (1 ≤ n) × (n ≤ length earlier.now)) premises.now }
    ensures { IfOk result (λ yes. IsTrue yes ↔ Row env.now (named earlier.now premises.now) Ind sequent.now) }
{
    match induction_premises(alloc, env, sequent)? {
        Some(expected) => Ok(are_named(earlier, premises, expected.as_slice())),
        None => Ok(false),
    }
}
