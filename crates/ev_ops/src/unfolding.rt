//! Unfolding: direct operators are replaced by their bodies. Source: Butler and Maamria, Practical Theory Extension in Event-B.
ghost use Rattle.std.specs.Prelude.{◌≡◌, IfOk};
ghost use Rattle.ev_ops.specs.Unfold.{unfolded, unfolded_extent, unfolded_sequent};
ghost use Rattle.ev_ops.specs.UnfoldLaws.{IsTyped};

use crate::kept_bodies::Bodies;
use crate::kept_weights::OperatorWeights;
use ev_terms::{Extent, NoMemory, Tree, TryCopy};
use ev_typing::{Env, Sequent};
use std::alloc::Global;

/// The term without direct operators. It makes the bodies of the environment first: where many terms are unfolded, make `Bodies` once
/// and ask them. A variable that 32 bits do not hold has no room, and is answered as want of memory.
pub fn unfold(alloc: Global, env: &Env, tree: &Tree) -> Result<Tree, NoMemory>
    ensures { IfOk result (λ t. t ≡ unfolded env.now tree.now) }
{
    Bodies::of(alloc, env)?.unfold(alloc, tree)
}

/// Size and depth of the unfolded term, which is not built: linear in the bodies of the environment and in the term as they are written.
/// Both numbers stand still at the end of their type. Where many terms are asked, make `OperatorWeights` once and ask them.
pub fn unfolded_extent(alloc: Global, env: &Env, tree: &Tree) -> Result<Extent, NoMemory>
    ensures { IfOk result (λ e. IsTyped env.now tree.now → e ≡ unfolded_extent env.now tree.now) }
{
    let weights = OperatorWeights::of(alloc, env)?;
    Ok(weights.extent(alloc, tree))
}

/// The sequent with its hypotheses and its goal unfolded.
pub fn unfold_sequent(alloc: Global, env: &Env, sequent: &Sequent) -> Result<Sequent, NoMemory>
    ensures { IfOk result (λ s. s ≡ unfolded_sequent env.now sequent.now) }
{
    let bodies = Bodies::of(alloc, env)?;
    let context = sequent.context.try_copy(alloc)?;
    let hyps = bodies.unfold_all(alloc, sequent.hyps.as_slice())?;
    let goal = bodies.unfold(alloc, &sequent.goal)?;
    Ok(Sequent {
        context,
        hyps,
        goal,
    })
}
