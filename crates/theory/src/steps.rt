ghost use Rattle.std.specs.Prelude.{◌≡◌, List, IfNone, IfOk, IfSome};
ghost use Rattle.theory.specs.inner.Pieces.{texts};
ghost use Rattle.theory.specs.Steps.{step_of, AreSteps};
ghost use Rattle.theory.specs.declared.steps.Step.{Step};

use crate::words::{full_lines, same_text, trimmed};
use ev_terms::{ListOf, NoMemory};
use ev_typing::Sequents;
use std::alloc::Global;

/// A proof step: a base rule that is read upwards, or `open`, which leaves the goal aside.
#[derive(Debug, Clone, Copy, PartialEq, Eq)]
pub enum Step {
    Hyp,
    TrueI,
    AndI,
    OrI1,
    OrI2,
    ImpI,
    Open,
}

pub type Steps = ListOf<Step>;

/// What a step does to a goal.
#[derive(Drop)]
pub enum Applied {
    Goals(Sequents),
    Left,
    Refused,
}

/// How a replay ends: all goals are proved; so many are left; the step with this number, from 1, gives none or finds no goal.
#[derive(Debug, Clone, Copy, PartialEq, Eq)]
pub enum Outcome {
    Complete,
    Partial(u128),
    Broken(u64),
}

/// The step that a word is.
pub fn step_of(word: &[u8]) -> Option<Step>
    ensures { result ≡ step_of word.now }
{
    if same_text(word, "hyp") {
        Some(Step::Hyp)
    } else if same_text(word, "truei") {
        Some(Step::TrueI)
    } else if same_text(word, "andi") {
        Some(Step::AndI)
    } else if same_text(word, "ori1") {
        Some(Step::OrI1)
    } else if same_text(word, "ori2") {
        Some(Step::OrI2)
    } else if same_text(word, "impi") {
        Some(Step::ImpI)
    } else if same_text(word, "open") {
        Some(Step::Open)
    } else {
        None
    }
}

/// The steps of a proof's lines, or `None` where a line is no step.
pub fn steps_of(alloc: Global, lines: &[&[u8]]) -> Result<Option<Steps>, NoMemory>
    ensures found { IfOk result (λ o. IfSome o (λ steps. AreSteps (texts lines.now) steps)) }
    ensures none { IfOk result (λ o. IfNone o ((steps : List Step) → ¬ AreSteps (texts lines.now) steps)) }
{
    let full = full_lines(alloc, lines)?;
    let mut steps = Steps::new(alloc);
    for line in full.as_slice() {
        match step_of(trimmed(line)) {
            Some(step) => steps.push(alloc, step)?,
            None => return Ok(None),
        }
    }
    Ok(Some(steps))
}
