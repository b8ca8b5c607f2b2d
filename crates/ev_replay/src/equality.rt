//! The steps of the rules of equality.
ghost use Rattle.std.specs.Prelude.{◌≡◌, [], IfOk, IfSome, IfNone};
ghost use Rattle.std.specs.List.{AllByRecursion};
ghost use Rattle.ev_forms.specs.Forms.{equation};
ghost use Rattle.ev_forms.specs.Binders.{equated};
ghost use Rattle.ev_proof.specs.declared.steps.Step.TheVariants as step;
ghost use Rattle.ev_terms.specs.declared.types.Ty.{Ty};
ghost use Rattle.ev_terms.specs.Types.{type_list};
ghost use Rattle.ev_typing.specs.Typing.{Typed, IsSequent};
ghost use Rattle.ev_typing.specs.Sequents.{◌⊢◌};
ghost use Rattle.ev_kernel.specs.Row.{Row, AreEquated, AreCongruent, at_children};
ghost use Rattle.ev_kernel.specs.declared.rules.BaseRule.TheVariants.{Sym as Symmetry, Cong};
ghost use Rattle.ev_replay.specs.RuleSteps.{GivesByRule};
ghost use Rattle.ev_replay.specs.inner.Finding.{Only, OnlyAmong};

use crate::reading::read_term;
use crate::scopes::CiteScope;
use crate::sequents::{inside, one_goal, two_goals, with_goal};
use ev_forms::{Connective, Relation, equation_parts, make_joined, make_related, node_parts};
use ev_syntax::Raw;
use ev_terms::{NoMemory, Same, Sym, Tree, TryCopy, Ty, Tys, binds};
use ev_typing::{Env, Sequent, Sequents, type_of};
use std::alloc::Global;

/// What an equation is at, by its type arguments.
#[tactic(auto, using(crate::proofs::Equations::equations))]
fn equated(alloc: Global, types: &Tys) -> Result<Ty, NoMemory>
    ensures { IfOk result (λ A. A ≡ equated types.now) }
{
    match types {
        Tys::Empty => Ok(Ty::Prop),
        Tys::More(ty, _) => Ok(ty.get().try_copy(alloc)?),
    }
}

/// `s <=> t` between predicates, `s = t` between expressions of the type.
#[tactic(auto, using(crate::proofs::Equations::equations))]
pub(crate) fn make_equation(
    alloc: Global,
    ty: &Ty,
    left: &Tree,
    right: &Tree,
) -> Result<Tree, NoMemory>
    ensures { IfOk result (λ t. t ≡ equation ty.now left.now right.now) }
{
    let left = left.try_copy(alloc)?;
    let right = right.try_copy(alloc)?;
    match ty {
        Ty::Prop => make_joined(alloc, Connective::Iff, left, right),
        _ => make_related(alloc, Relation::Equal, ty.try_copy(alloc)?, left, right),
    }
}

/// The equation with its sides exchanged.
pub(crate) fn symmetry(alloc: Global, goal: &Sequent) -> Result<Option<Sequents>, NoMemory>
    ensures { IfOk result (Only (λ gs. Row [] gs Symmetry goal.now)) }
{
    match equation_parts(&goal.goal) {
        Some((types, left, right)) => {
            let ty = equated(alloc, types)?;
            let exchanged = make_equation(alloc, &ty, right, left)?;
            Ok(Some(one_goal(alloc, goal, &exchanged)?))
        }
        None => Ok(None),
    }
}

/// By a term between the two sides.
pub(crate) fn transitivity(
    alloc: Global,
    scope: &CiteScope,
    goal: &Sequent,
    raw: &Raw,
) -> Result<Option<Sequents>, NoMemory>
    ensures { IfOk result (Only (GivesByRule scope.now.env scope.now.params goal.now (step.Trans raw.now))) }
{
    match equation_parts(&goal.goal) {
        Some((types, left, right)) => {
            let ty = equated(alloc, types)?;
            match read_term(alloc, scope, goal, &ty, raw)? {
                Some(middle) => {
                    let first = make_equation(alloc, &ty, left, &middle)?;
                    let second = make_equation(alloc, &ty, &middle, right)?;
                    Ok(Some(two_goals(alloc, goal, &first, &second)?))
                }
                None => Ok(None),
            }
        }
        None => Ok(None),
    }
}

/// The sequent with an equation between two terms, at the type that the left one has, where it has one.
fn equated_children(
    alloc: Global,
    env: &Env,
    sequent: &Sequent,
    left: &Tree,
    right: &Tree,
) -> Result<Option<Sequent>, NoMemory>
    ensures found { IfOk result (λ o. IfSome o (λ g. (A : Ty) × Typed env.now (type_list sequent.now.context) left.now A × (g ≡ (sequent.now ⊢ equation A left.now right.now)))) }
    ensures none { IfOk result (λ o. IfNone o ((A : Ty) → ¬ Typed env.now (type_list sequent.now.context) left.now A)) }
{
    match type_of(alloc, env, &sequent.context, left)? {
        Some(ty) => {
            let equal = make_equation(alloc, &ty, left, right)?;
            Ok(Some(with_goal(alloc, sequent, &equal)?))
        }
        None => Ok(None),
    }
}

/// The equations for each pair of children; none where a left one has no type, or where there are more on one side.
fn equations(
    alloc: Global,
    env: &Env,
    sequent: &Sequent,
    lefts: &[Tree],
    rights: &[Tree],
) -> Result<Option<Sequents>, NoMemory>
    ensures { IfOk result (OnlyAmong (AllByRecursion (IsSequent env.now)) (AreEquated sequent.now lefts.now rights.now)) }
{
    if lefts.len() != rights.len() {
        return Ok(None);
    }
    let mut goals = Sequents::new(alloc);
    for i in 0..lefts.len() {
        match equated_children(alloc, env, sequent, &lefts[i], &rights[i])? {
            Some(goal) => goals.push(alloc, goal)?,
            None => return Ok(None),
        }
    }
    Ok(Some(goals))
}

/// The goal in the context of a symbol's children.
fn at_children(alloc: Global, goal: &Sequent, sym: &Sym, types: &Tys) -> Result<Sequent, NoMemory>
    ensures { IfOk result (λ s. s ≡ (at_children goal.now sym.now types.now ⊢ goal.now.goal)) }
{
    let all = types.to_vec(alloc)?;
    let count = (binds(sym) as usize).min(all.len());
    inside(alloc, goal, &all.as_slice()[..count], &goal.goal)
}

/// The equations between the children of two terms at one symbol and the same types.
fn congruent(
    alloc: Global,
    env: &Env,
    goal: &Sequent,
    left: &Tree,
    right: &Tree,
) -> Result<Option<Sequents>, NoMemory>
    ensures { IfOk result (OnlyAmong (AllByRecursion (IsSequent env.now)) (AreCongruent goal.now left.now right.now)) }
{
    let (Some((sym, types, lefts)), Some((other, others, rights))) = (
        node_parts(left),
        node_parts(right),
    ) else {
        return Ok(None);
    };
    if !sym.same(other) || !types.same(others) {
        return Ok(None);
    }
    let inner = at_children(alloc, goal, sym, types)?;
    equations(alloc, env, &inner, lefts, rights)
}

/// By the equations between the children of the two sides.
pub(crate) fn congruence(
    alloc: Global,
    env: &Env,
    goal: &Sequent,
) -> Result<Option<Sequents>, NoMemory>
    ensures { IfOk result (OnlyAmong (AllByRecursion (IsSequent env.now)) (λ gs. Row env.now gs Cong goal.now)) }
{
    match equation_parts(&goal.goal) {
        Some((_, left, right)) => congruent(alloc, env, goal, left, right),
        None => Ok(None),
    }
}
