//! The labels that a proof cites.
ghost use Rattle.std.specs.Prelude.{◌≡◌, IfOk, OnOk};
ghost use Rattle.std.specs.Option.{option_copied};
ghost use Rattle.ev_replay.specs.Replay.{cites, step_ref, with_ref, with_line};
ghost use Rattle.ev_replay.specs.inner.Labels.{refs_of};

use ev_proof::{Ref, Refs, Step, StepLines};
use ev_terms::{Name, NoMemory, TryCopy};
use indexmap::IndexSet;
use std::alloc::Global;

/// The label that a step cites.
fn step_ref(step: &Step) -> Option<&Ref>
    ensures { option_copied result ≡ step_ref step.now }
{
    match step {
        Step::Theorem(label, _) => Some(label),
        Step::Assume(label, _) => Some(label),
        Step::Infer(label, _) => Some(label),
        Step::Rewrite(label, _, _, _) => Some(label),
        Step::Cases(label, _, _) => Some(label),
        _ => None,
    }
}

/// Puts a label behind the others, unless it is there.
#[tactic(auto, using(crate::proofs::LabelLaws::label_added))]
fn add_label(
    labels: &mut IndexSet<(Name, Name)>,
    alloc: Global,
    label: &Ref,
) -> Result<(), NoMemory>
    ensures { OnOk result (refs_of labels.new.keys ≡ with_ref (refs_of labels.old.keys) label.now) }
{
    let key = (label.theory.try_copy(alloc)?, label.label.try_copy(alloc)?);
    let _added = labels.insert_full(key)?;
    Ok(())
}

/// Puts the label that a line cites behind the others, where it cites one.
fn add_line(
    labels: &mut IndexSet<(Name, Name)>,
    alloc: Global,
    line: &Option<Step>,
) -> Result<(), NoMemory>
    ensures { OnOk result (refs_of labels.new.keys ≡ with_line (refs_of labels.old.keys) line.now) }
{
    match line {
        Some(step) => match step_ref(step) {
            Some(label) => add_label(labels, alloc, label),
            None => Ok(()),
        },
        None => Ok(()),
    }
}

fn cited_labels(alloc: Global, lines: &[Option<Step>]) -> Result<IndexSet<(Name, Name)>, NoMemory>
    ensures { IfOk result (λ labels. refs_of labels.keys ≡ cites lines.now) }
{
    let mut labels = IndexSet::new(alloc);
    for line in lines {
        add_line(&mut labels, alloc, line)?;
    }
    Ok(labels)
}

/// The labels that a proof cites, each once, in order of first citation. Linear in the lines.
pub fn cites(alloc: Global, lines: &StepLines) -> Result<Refs, NoMemory>
    ensures { IfOk result (λ refs. refs ≡ cites lines.now) }
{
    let labels = cited_labels(alloc, lines.as_slice())?;
    let mut refs = Refs::new(alloc);
    for key in labels.iter() {
        let theory = key.0.try_copy(alloc)?;
        let label = key.1.try_copy(alloc)?;
        refs.push(alloc, Ref { theory, label })?;
    }
    Ok(refs)
}
