//! Sequents made from a goal, which share its terms.
ghost use Rattle.std.specs.Prelude.{◌≡◌, ◌++◌, [], ◌∷◌, map, IfOk, OnOk};
ghost use Rattle.ev_terms.specs.Types.{type_list};
ghost use Rattle.ev_terms.specs.Substitution.{shift};
ghost use Rattle.ev_typing.specs.TypeLists.{types};
ghost use Rattle.ev_typing.specs.Sequents.{◌⊢◌, ◌▹◌};
ghost use Rattle.ev_typing.specs.BaseSequents.{widened};

use ev_terms::{NoMemory, Tree, Trees, TryCopy, Ty, Tys, shift, shift_fits};
use ev_typing::{Sequent, Sequents};
use std::alloc::Global;

/// The sequent with another goal.
pub(crate) fn with_goal(alloc: Global, sequent: &Sequent, goal: &Tree) -> Result<Sequent, NoMemory>
    ensures { IfOk result (λ s. s ≡ (sequent.now ⊢ goal.now)) }
{
    Ok(Sequent {
        context: sequent.context.try_copy(alloc)?,
        hyps: sequent.hyps.try_copy(alloc)?,
        goal: goal.try_copy(alloc)?,
    })
}

/// The sequent with one more hypothesis and another goal.
pub(crate) fn assuming(
    alloc: Global,
    sequent: &Sequent,
    hyp: &Tree,
    goal: &Tree,
) -> Result<Sequent, NoMemory>
    ensures { IfOk result (λ s. s ≡ (sequent.now ▹ hyp.now ⊢ goal.now)) }
{
    let mut assumed = with_goal(alloc, sequent, goal)?;
    assumed.hyps.push(alloc, hyp.try_copy(alloc)?)?;
    Ok(assumed)
}

/// The sequent with one more hypothesis.
pub(crate) fn supposing(alloc: Global, sequent: &Sequent, hyp: &Tree) -> Result<Sequent, NoMemory>
    ensures { IfOk result (λ s. s ≡ (sequent.now ▹ hyp.now)) }
{
    assuming(alloc, sequent, hyp, &sequent.goal)
}

/// The term with its variables raised. Where it has no room for them the answer is want of memory.
pub(crate) fn raised(alloc: Global, tree: &Tree, by: u32) -> Result<Tree, NoMemory>
    ensures { IfOk result (λ t. t ≡ shift tree.now 0 by) }
{
    if !shift_fits(tree, 0, by) {
        return Err(NoMemory);
    }
    shift(alloc, tree, 0, by)
}

fn all_raised(alloc: Global, trees: &[Tree], by: u32) -> Result<Trees, NoMemory>
    ensures { IfOk result (λ ts. ts ≡ map (λ t. shift t 0 by) trees.now) }
{
    let mut all = Trees::new(alloc);
    for tree in trees {
        all.push(alloc, raised(alloc, tree, by)?)?;
    }
    Ok(all)
}

/// The context with further types behind.
fn longer(alloc: Global, context: &Tys, more: &[Ty]) -> Result<Tys, NoMemory>
    ensures { IfOk result (λ As. As ≡ types (type_list context.now ++ more.now)) }
{
    let mut all = context.to_vec(alloc)?;
    for ty in more {
        all.push(ty.try_copy(alloc)?)?;
    }
    let list = Tys::from_vec(alloc, all)?;
    Ok(list)
}

/// The sequent in the context with more variables inside, with another goal, which stands there.
pub(crate) fn inside(
    alloc: Global,
    sequent: &Sequent,
    more: &[Ty],
    goal: &Tree,
) -> Result<Sequent, NoMemory>
    ensures { IfOk result (λ s. s ≡ (widened sequent.now more.now ⊢ goal.now)) }
{
    let Ok(count) = u32::try_from(more.len()) else {
        return Err(NoMemory);
    };
    Ok(Sequent {
        context: longer(alloc, &sequent.context, more)?,
        hyps: all_raised(alloc, sequent.hyps.as_slice(), count)?,
        goal: goal.try_copy(alloc)?,
    })
}

/// The sequent as the only subgoal.
pub(crate) fn one(alloc: Global, only: Sequent) -> Result<Sequents, NoMemory>
    ensures { IfOk result (λ gs. gs ≡ only ∷ []) }
{
    let mut goals = Sequents::new(alloc);
    goals.push(alloc, only)?;
    Ok(goals)
}

/// Two subgoals.
pub(crate) fn two(alloc: Global, first: Sequent, second: Sequent) -> Result<Sequents, NoMemory>
    ensures { IfOk result (λ gs. gs ≡ first ∷ second ∷ []) }
{
    let mut goals = one(alloc, first)?;
    goals.push(alloc, second)?;
    Ok(goals)
}

/// The sequent with another goal, as the only subgoal.
pub(crate) fn one_goal(alloc: Global, sequent: &Sequent, goal: &Tree) -> Result<Sequents, NoMemory>
    ensures { IfOk result (λ gs. gs ≡ (sequent.now ⊢ goal.now) ∷ []) }
{
    one(alloc, with_goal(alloc, sequent, goal)?)
}

/// The sequent with each of two other goals.
pub(crate) fn two_goals(
    alloc: Global,
    sequent: &Sequent,
    first: &Tree,
    second: &Tree,
) -> Result<Sequents, NoMemory>
    ensures { IfOk result (λ gs. gs ≡ (sequent.now ⊢ first.now) ∷ (sequent.now ⊢ second.now) ∷ []) }
{
    let left = with_goal(alloc, sequent, first)?;
    two(alloc, left, with_goal(alloc, sequent, second)?)
}
