ghost use Rattle.std.specs.Prelude.{◌≡◌, ◌↔◌, ◌++◌, [], ◌∷◌, ℕ, List, None, Some, IfOk, IfSome, OnOk, bytes_eq, cond, decimal};
ghost use Rattle.std.specs.Option.{option_copied, option_and_then};
ghost use Rattle.std.specs.Prelude.{slice_get};
ghost use Rattle.std.specs.List.{AllZip};
ghost use Rattle.indexmap.specs.IndexMap.{get};
ghost use Rattle.theory.specs.Reports.{closed, is_for, kept_steps, IsStatus, HasStatus, status_text, theory_line, theorem_line, theorem_lines, IsJustified, IsTheoryReport, IsReportOf};
ghost use Rattle.theory.specs.inner.Reports.{IsIndexOf};

use crate::replay::replay;
use crate::script::{Script, StoredProof, StoredProofs, Theory};
use crate::steps::{Outcome, Steps};
use crate::theorems::{Theorem, Theorems};
use ev_outside::Steps as Counter;
use ev_terms::{ListOf, Name, NoMemory, Same, Tree, Trees, TryCopy, Tys};
use ev_typing::{Env, Sequent};
use indexmap::IndexMap;
use std::alloc::Global;
use std::sync::ledger::Ledger;

/// The status of a theorem: without a proof; broken at a step; with goals left; proved.
#[derive(Debug, Clone, Copy, PartialEq, Eq)]
pub enum Status {
    NoProof,
    Broken(u64),
    Partial(u128),
    Proved,
}

pub type Statuses = ListOf<Status>;

/// The places of the proofs of a theory's theorems, by label.
type ProofIndex = IndexMap<Name, usize>;

/// Notes the place of a proof, where it is for the theory.
fn note_place(
    alloc: Global,
    index: &mut ProofIndex,
    theory: &Name,
    proof: &StoredProof,
    at: usize,
) -> Result<(), NoMemory>
    ensures { OnOk result ((label : List ℕ) → get bytes_eq index.new label ≡ cond (is_for theory.now label proof.now) (Some at) (get bytes_eq index.old label)) }
{
    if proof.theory != *theory {
        return Ok(());
    }
    index.insert(proof.label.try_copy(alloc)?, at)?;
    Ok(())
}

/// Where the last proof for each label stands, among the proofs for the theory.
fn index_of(alloc: Global, theory: &Name, proofs: &StoredProofs) -> Result<ProofIndex, NoMemory>
    ensures { IfOk result (λ index. IsIndexOf theory.now proofs.now proofs.now (get bytes_eq index)) }
{
    let mut index = IndexMap::new(alloc);
    let all = proofs.as_slice();
    for at in 0..all.len() {
        note_place(alloc, &mut index, theory, &all[at], at)?;
    }
    Ok(index)
}

/// The steps that are stored for a label.
fn steps_for<'a>(index: &ProofIndex, proofs: &'a StoredProofs, label: &Name) -> Option<&'a Steps>
    ensures { option_copied result ≡ kept_steps (option_and_then (slice_get proofs.now) (get bytes_eq index.now label.now)) }
{
    let at = index.get(label)?;
    let proof = proofs.get(*at)?;
    if proof.steps.is_empty() {
        return None;
    }
    Some(&proof.steps)
}

/// A formula as a goal without context and hypotheses.
fn closed(alloc: Global, formula: &Tree) -> Result<Sequent, NoMemory>
    ensures { IfOk result (λ s. s ≡ closed formula.now) }
{
    Ok(Sequent {
        context: Tys::new(alloc),
        hyps: Trees::new(alloc),
        goal: formula.try_copy(alloc)?,
    })
}

/// The status of a formula with the steps that are stored for it.
fn status_with<L: Ledger>(
    alloc: Global,
    env: &Env,
    stored: Option<&Steps>,
    formula: &Tree,
    counter: &mut Counter<L>,
) -> Result<Status, NoMemory>
    requires { env.now ≡ [] }
    ensures { IfOk result (λ st. IsStatus (option_copied stored.entry) formula.now st) }
{
    let Some(steps) = stored else {
        return Ok(Status::NoProof);
    };
    let goal = closed(alloc, formula)?;
    match replay(alloc, env, goal, steps.as_slice(), counter)? {
        Outcome::Complete => Ok(Status::Proved),
        Outcome::Partial(left) => Ok(Status::Partial(left)),
        Outcome::Broken(step) => Ok(Status::Broken(step)),
    }
}

/// The status of each theorem, in order.
pub fn statuses<L: Ledger>(
    alloc: Global,
    theory: &Theory,
    proofs: &StoredProofs,
    counter: &mut Counter<L>,
) -> Result<Statuses, NoMemory>
    ensures { IfOk result (λ sts. AllZip (HasStatus proofs.now theory.now.name) theory.now.theorems sts) }
{
    let env = Env::new(alloc);
    let index = index_of(alloc, &theory.name, proofs)?;
    let theorems = theory.theorems.as_slice();
    let mut statuses = Statuses::new(alloc);
    for at in 0..theorems.len() {
        let theorem = &theorems[at];
        let steps = steps_for(&index, proofs, &theorem.label);
        let status = status_with(alloc, &env, steps, &theorem.goal, counter)?;
        statuses.push(alloc, status)?;
    }
    Ok(statuses)
}
