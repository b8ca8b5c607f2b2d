//! The axioms by their numbers.
ghost use Rattle.std.specs.Prelude.{◌≡◌, ◌↔◌, ◌<◌, ◌⊎◌, Err, Some, None, IsTrue, IfOk};
ghost use Rattle.std.specs.Option.{option_copied};
ghost use Rattle.ev_axioms.specs.Axioms.{axiom_row};
ghost use Rattle.ev_axioms.specs.AxiomLaws.{AxiomsAreClosed, AxiomsAreBase};
ghost use Rattle.ev_axioms.specs.declared.faults.AxiomFault.TheVariants as fault;

use crate::building::build;
use crate::faults::AxiomFault;
use crate::rows::steps_of;
use crate::undoing::is_built;
use ev_terms::{NoMemory, Tree, Trees};
use std::alloc::Global;
use std::marker::Model;

/// How many axioms there are.
pub const AXIOM_COUNT: usize = 72;

/// The closed formula of a row of the axiom table, by its number from 1. It is built anew: who needs many rows keeps
/// `Axioms`, and who has a term asks `is_axiom`.
pub fn axiom(alloc: Global, k: u32) -> Result<Tree, AxiomFault>
    ensures no_such { (result ≡ Err fault.NoSuch) ↔ ((k ≡ 0) ⊎ (72 < k)) }
    ensures none { (result ≡ Err fault.NoSuch) ↔ (axiom_row k ≡ None) }
    ensures found { IfOk result (λ t. axiom_row k ≡ Some t) }
{
    if k == 0 {
        return Err(AxiomFault::NoSuch);
    }
    let Some(steps) = steps_of((k - 1) as usize) else {
        return Err(AxiomFault::NoSuch);
    };
    match build(alloc, steps) {
        Ok(Some(tree)) => Ok(tree),
        Ok(None) => unreachable!(),
        Err(NoMemory) => Err(AxiomFault::NoMemory),
    }
}

/// Whether the term is the row of the axiom table with this number, from 1. The row is not built: memory is taken for handles on parts
/// of the term, and for types.
pub fn is_axiom(alloc: Global, k: u32, tree: &Tree) -> Result<bool, NoMemory>
    ensures { IfOk result (λ yes. IsTrue yes ↔ (axiom_row k ≡ Some tree.now)) }
{
    if k == 0 {
        return Ok(false);
    }
    match steps_of((k - 1) as usize) {
        Some(steps) => is_built(alloc, tree, steps),
        None => Ok(false),
    }
}

/// The first N axioms, built once. A copy of a row is one more handle on it.
#[derive(Drop)]
pub struct Axioms<const N: usize> {
    rows: Trees,
}

impl<const N: usize> Model for Axioms<N> {
    ghost use Rattle.std.specs.Prelude.{List};
    ghost use Rattle.std.specs.Coded.{coded_list};
    ghost use Rattle.ev_terms.specs.Term.{Term};
    ghost use Rattle.ev_axioms.specs.inner.Checks.{AreAxioms};

    ghost Value = { List Term };

    ghost use Rattle.ev_terms.specs.contracts.tree.Tree as tree;

    ghost coded = { coded_list tree.the_row.coded };

    ghost view = { λ a. a.rows };

    ghost invariant = { λ a. AreAxioms N a.rows };
}

impl Axioms<AXIOM_COUNT> {
    /// All axioms.
    #[tactic(auto, using(crate::proofs::Kept::keeping))]
    pub fn new(alloc: Global) -> Result<Axioms<AXIOM_COUNT>, NoMemory> {
        let mut rows = Trees::new(alloc);
        for k in 1..AXIOM_COUNT as u32 + 1 {
            match axiom(alloc, k) {
                Ok(tree) => rows.push(alloc, tree)?,
                Err(AxiomFault::NoMemory) => return Err(NoMemory),
                Err(AxiomFault::NoSuch) => unreachable!(),
            }
        }
        Ok(Axioms { rows })
    }

    /// A row, by its number from 1.
    pub fn row(&self, k: u32) -> Option<&Tree>
        ensures { option_copied result ≡ axiom_row k }
    {
        if k == 0 {
            return None;
        }
        self.rows.get((k - 1) as usize)
    }
}

/// Each axiom is a predicate without variables, of base symbols alone; so it is one without direct operators over every environment.
pub fn axioms_are_closed()
    ensures closed { AxiomsAreClosed }
    ensures base { AxiomsAreBase }
{}
