//! Quantified formulas whose variable is idle: a new variable of its type stands for it, and no term is put in.
ghost use Rattle.std.specs.Prelude.{◌≡◌, ◌≤◌, ◌^◌, ◌++◌, ◌∷◌, [], Some, length, IfOk};
ghost use Rattle.ev_terms.specs.Types.{type_list};
ghost use Rattle.ev_terms.specs.Term.{var, terms};
ghost use Rattle.ev_terms.specs.Measures.{highest, all_highest};
ghost use Rattle.ev_terms.specs.Substitution.{shift, shifts};
ghost use Rattle.ev_forms.specs.Forms.{truth, forall, exists, vars_above};
ghost use Rattle.ev_forms.specs.Binders.{bound};
ghost use Rattle.ev_typing.specs.declared.typing.Sequent.{Sequent};
ghost use Rattle.ev_typing.specs.Sequents.{◌⊢◌, ◌▹◌};
ghost use Rattle.ev_typing.specs.Typing.{IsProper};
ghost use Rattle.ev_typing.specs.BaseSequents.{IsBaseSequent, under};
ghost use Rattle.ev_kernel.specs.Derivable.{IsDerivation};
ghost use Rattle.ev_congruence.specs.Growing.{concluded, Extends};
ghost use Rattle.ev_congruence.specs.Limits.{Keep};
ghost use Rattle.ev_congruence.specs.Witnesses.{some_element, element_at, inhabiting, idly};
ghost use Rattle.ev_congruence.specs.Settings.{IsBaseContext, HasShiftRoom};

use crate::adding::{from_none, from_one, from_two};
use crate::forming::{shifted_by_one, with_goal};
use crate::known::Derivation;
use crate::moves::{instantiated, lengthened, weakened};
use ev_forms::{Binder, make_bound, make_truth};
use ev_kernel::BaseRule;
use ev_terms::{NoMemory, Tree, Trees, TryCopy, Ty, Tys, make_var, shift};
use ev_typing::{Env, Sequent};
use std::alloc::Global;

/// Each type has an element: axiom 1.
fn witness_axiom(alloc: Global, env: &Env, lines: &mut Derivation) -> Result<u128, NoMemory>
    requires derivation { IsDerivation env.now lines.old }
    ensures concludes { IfOk result (λ n. concluded lines.new n ≡ Some some_element) }
    ensures extends { Extends env.now lines.old lines.new }
    ensures limits { Keep lines.old lines.new (some_element ∷ []) [] [] }
{
    let truth = make_truth(alloc)?;
    let goal = make_bound(alloc, Binder::ForSome, Ty::Param(0), truth)?;
    let sequent = Sequent {
        context: Tys::Empty,
        hyps: Trees::new(alloc),
        goal,
    };
    from_none(alloc, env, lines, sequent, BaseRule::Axiom(1))
}

/// That the type has an element, without hypotheses.
fn element_of(alloc: Global, at: &Sequent, ty: &Ty) -> Result<Sequent, NoMemory>
    ensures { IfOk result (λ S. S ≡ element_at at.now ty.now) }
{
    let truth = make_truth(alloc)?;
    let goal = make_bound(alloc, Binder::ForSome, ty.try_copy(alloc)?, truth)?;
    Ok(Sequent {
        context: at.context.try_copy(alloc)?,
        hyps: Trees::new(alloc),
        goal,
    })
}

/// The axiom at the type, in the context of the sequent.
fn element_without_hypotheses(
    alloc: Global,
    env: &Env,
    lines: &mut Derivation,
    at: &Sequent,
    ty: &Ty,
) -> Result<u128, NoMemory>
    requires derivation { IsDerivation env.now lines.old }
    requires base { IsBaseContext env.now at.now }
    requires proper { IsProper env.now ty.now }
    ensures concludes { IfOk result (λ n. concluded lines.new n ≡ Some (element_at at.now ty.now)) }
    ensures extends { Extends env.now lines.old lines.new }
    ensures limits { Keep lines.old lines.new (some_element ∷ element_at at.now ty.now ∷ []) [] (ty.now ∷ []) }
{
    let terms = Trees::new(alloc);
    let types = Tys::one(alloc, ty.try_copy(alloc)?)?;
    let axiom = witness_axiom(alloc, env, lines)?;
    instantiated(alloc, env, lines, &at.context, &types, &terms, axiom)
}

/// That the type has an element, in the context and under the hypotheses of the sequent.
pub fn inhabited(
    alloc: Global,
    env: &Env,
    lines: &mut Derivation,
    at: &Sequent,
    ty: &Ty,
) -> Result<u128, NoMemory>
    requires derivation { IsDerivation env.now lines.old }
    requires base { IsBaseContext env.now at.now }
    requires proper { IsProper env.now ty.now }
    ensures concludes { IfOk result (λ n. concluded lines.new n ≡ Some (at.now ⊢ exists ty.now truth)) }
    ensures extends { Extends env.now lines.old lines.new }
    ensures limits { Keep lines.old lines.new (inhabiting at.now ty.now) [] (ty.now ∷ []) }
{
    let sequent = element_of(alloc, at, ty)?;
    let line = element_without_hypotheses(alloc, env, lines, at, ty)?;
    weakened(alloc, env, lines, &sequent, &at.hyps, line)
}

/// The goal of a sequent from a line that concludes it for a new variable of the type.
pub fn witnessed(
    alloc: Global,
    env: &Env,
    lines: &mut Derivation,
    at: &Sequent,
    ty: &Ty,
    premise: u128,
) -> Result<u128, NoMemory>
    requires derivation { IsDerivation env.now lines.old }
    requires base { IsBaseSequent env.now at.now }
    requires proper { IsProper env.now ty.now }
    requires premise { concluded lines.old premise ≡ Some (under at.now ty.now ▹ truth) }
    ensures concludes { IfOk result (λ n. concluded lines.new n ≡ Some at.now) }
    ensures extends { Extends env.now lines.old lines.new }
    ensures limits { Keep lines.old lines.new (at.now ∷ inhabiting at.now ty.now) [] (ty.now ∷ []) }
{
    let sequent = at.try_copy(alloc)?;
    let element = inhabited(alloc, env, lines, at, ty)?;
    from_two(alloc, env, lines, sequent, BaseRule::ExE, element, premise)
}

/// The sequent in a context with one more variable of the type.
fn with_variable(alloc: Global, at: &Sequent, ty: &Ty) -> Result<Sequent, NoMemory>
    requires hyps { all_highest (shifts (terms at.now.hyps) 0 1) ≤ 2 ^ 32 }
    requires goal { highest (shift at.now.goal 0 1) ≤ 2 ^ 32 }
    ensures { IfOk result (λ S. S ≡ under at.now ty.now) }
{
    let mut context = at.context.try_copy(alloc)?;
    context.push(alloc, ty.try_copy(alloc)?)?;
    let hyps = shifted_by_one(alloc, at.hyps.as_slice())?;
    let goal = shift(alloc, &at.goal, 0, 1)?;
    Ok(Sequent {
        context,
        hyps,
        goal,
    })
}

/// The terms and `true` behind them.
fn with_truth(alloc: Global, hyps: &Trees) -> Result<Trees, NoMemory>
    ensures { IfOk result (λ all. all ≡ hyps.now ++ truth ∷ []) }
{
    let mut all = hyps.try_copy(alloc)?;
    all.push(alloc, make_truth(alloc)?)?;
    Ok(all)
}

/// The sequent for a new variable of the type.
fn for_witness(alloc: Global, at: &Sequent, ty: &Ty) -> Result<Sequent, NoMemory>
    requires hyps { all_highest (shifts (terms at.now.hyps) 0 1) ≤ 2 ^ 32 }
    requires goal { highest (shift at.now.goal 0 1) ≤ 2 ^ 32 }
    ensures { IfOk result (λ S. S ≡ (under at.now ty.now ▹ truth)) }
{
    let Sequent {
        context,
        hyps,
        goal,
    } = with_variable(alloc, at, ty)?;
    let hyps = with_truth(alloc, &hyps)?;
    Ok(Sequent {
        context,
        hyps,
        goal,
    })
}

/// A line of a sequent, for a new variable of the type.
fn brought_to_witness(
    alloc: Global,
    env: &Env,
    lines: &mut Derivation,
    at: &Sequent,
    ty: &Ty,
    premise: u128,
) -> Result<u128, NoMemory>
    requires derivation { IsDerivation env.now lines.old }
    requires premise { concluded lines.old premise ≡ Some at.now }
    requires proper { IsProper env.now ty.now }
    requires room { HasShiftRoom at.now }
    ensures concludes { IfOk result (λ n. concluded lines.new n ≡ Some (under at.now ty.now ▹ truth)) }
    ensures extends { Extends env.now lines.old lines.new }
    ensures limits { Keep lines.old lines.new (under at.now ty.now ∷ (under at.now ty.now ▹ truth) ∷ []) (vars_above (length (type_list at.now.context)) 1) [] }
{
    let inner = with_variable(alloc, at, ty)?;
    let hyps = with_truth(alloc, &inner.hyps)?;
    let outer = at.context.len() as u32;
    let long = inner.try_copy(alloc)?;
    let line = lengthened(alloc, env, lines, outer, 1, long, premise)?;
    weakened(alloc, env, lines, &inner, &hyps, line)
}

/// The goal of the sequent, quantified over a new variable that does not occur in it.
fn idly_bound(alloc: Global, binder: Binder, at: &Sequent, ty: &Ty) -> Result<Sequent, NoMemory>
    requires { highest (shift at.now.goal 0 1) ≤ 2 ^ 32 }
    ensures { IfOk result (λ S. S ≡ (at.now ⊢ bound binder ty.now (shift at.now.goal 0 1))) }
{
    let body = shift(alloc, &at.goal, 0, 1)?;
    let goal = make_bound(alloc, binder, ty.try_copy(alloc)?, body)?;
    with_goal(alloc, at, goal)
}

/// From a universal formula whose variable is idle the formula below, which is the goal of the sequent. No term is put in.
pub fn idle_for_all(
    alloc: Global,
    env: &Env,
    lines: &mut Derivation,
    at: &Sequent,
    ty: &Ty,
    premise: u128,
) -> Result<u128, NoMemory>
    requires derivation { IsDerivation env.now lines.old }
    requires base { IsBaseSequent env.now at.now }
    requires premise { concluded lines.old premise ≡ Some (at.now ⊢ forall ty.now (shift at.now.goal 0 1)) }
    requires room { HasShiftRoom (at.now ⊢ forall ty.now (shift at.now.goal 0 1)) }
    ensures concludes { IfOk result (λ n. concluded lines.new n ≡ Some at.now) }
    ensures extends { Extends env.now lines.old lines.new }
    ensures limits { Keep lines.old lines.new (idly (at.now ⊢ forall ty.now (shift at.now.goal 0 1)) at.now ty.now) (var 0 ∷ vars_above (length (type_list at.now.context)) 1) (ty.now ∷ []) }
{
    let quantified = idly_bound(alloc, Binder::ForAll, at, ty)?;
    let sequent = for_witness(alloc, at, ty)?;
    let rule = BaseRule::AllE(make_var(alloc, 0)?);
    let inner = brought_to_witness(alloc, env, lines, &quantified, ty, premise)?;
    let line = from_one(alloc, env, lines, sequent, rule, inner)?;
    witnessed(alloc, env, lines, at, ty, line)
}

/// From the goal of the sequent an existential formula whose variable is idle. No term is put in.
pub fn idle_for_some(
    alloc: Global,
    env: &Env,
    lines: &mut Derivation,
    at: &Sequent,
    ty: &Ty,
    premise: u128,
) -> Result<u128, NoMemory>
    requires derivation { IsDerivation env.now lines.old }
    requires premise { concluded lines.old premise ≡ Some at.now }
    requires proper { IsProper env.now ty.now }
    requires room { HasShiftRoom (at.now ⊢ exists ty.now (shift at.now.goal 0 1)) }
    ensures concludes { IfOk result (λ n. concluded lines.new n ≡ Some (at.now ⊢ exists ty.now (shift at.now.goal 0 1))) }
    ensures extends { Extends env.now lines.old lines.new }
    ensures limits { Keep lines.old lines.new (idly at.now (at.now ⊢ exists ty.now (shift at.now.goal 0 1)) ty.now) (var 0 ∷ vars_above (length (type_list at.now.context)) 1) (ty.now ∷ []) }
{
    let quantified = idly_bound(alloc, Binder::ForSome, at, ty)?;
    let sequent = for_witness(alloc, &quantified, ty)?;
    let rule = BaseRule::ExI(make_var(alloc, 0)?);
    let inner = brought_to_witness(alloc, env, lines, at, ty, premise)?;
    let line = from_one(alloc, env, lines, sequent, rule, inner)?;
    witnessed(alloc, env, lines, &quantified, ty, line)
}
