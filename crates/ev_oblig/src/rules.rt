//! The obligations of rewrite rules and inference rules.
ghost use Rattle.std.specs.Prelude.{◌≡◌, ◌≢◌, ◌+◌, ◌++◌, Err, IfOk, IfSome, IfNone, OnOk, map, flat_map};
ghost use Rattle.std.specs.List.{enumerate_from};
ghost use Rattle.ev_terms.specs.Types.{type_list};
ghost use Rattle.ev_terms.specs.declared.types.Ty.{Ty};
ghost use Rattle.ev_typing.specs.Env.{Env};
ghost use Rattle.ev_typing.specs.Typing.{Typed, type_in};
ghost use Rattle.ev_rules.specs.declared.elements.Branch.{Branch};
ghost use Rattle.ev_wd.specs.Limits.{IsSmall};
ghost use Rattle.ev_wd.specs.Makers.{make_and};
ghost use Rattle.ev_wd.specs.WellDefined.{wd};
ghost use Rattle.ev_oblig.specs.Obligations.{condition_or_truth, under_condition, conj_all, disj_all, branch_formula, branch_guard, branch_wd, branch_obligations, complete_formula, complete_obligation, rewrite_obligations, inference_formula, givens_formula, inference_wd, inference_obligations, AreSmall};
ghost use Rattle.ev_oblig.specs.inner.Sides.{AreSides};
ghost use Rattle.ev_oblig.specs.declared.faults.ObligFault.TheVariants.{TooLarge};

use crate::faults::ObligFault;
use crate::lists::number_after;
use crate::makers::{
    condition_of, condition_or_truth, joined_after, make_alls, make_and, make_equation, make_imp,
};
use crate::making::{push, push_wd};
use crate::named::NamedList;
use ev_data::make_for_all;
use ev_forms::{Connective, is_truth, make_falsity, make_joined, make_truth};
use ev_rules::{Branch, InferenceRule, RewriteRule};
use ev_terms::{NoMemory, ObKind, Tree, Trees, TryCopy, Ty};
use ev_typing::{Env, type_of};
use std::alloc::Global;

/// A rewrite rule with the type of its left side, and the condition of the left side where it is not too large.
#[derive(Drop)]
pub(crate) struct Sides<'a> {
    pub(crate) rule: &'a RewriteRule,
    pub(crate) types: Vec<Ty>,
    pub(crate) ty: Ty,
    pub(crate) left: Option<Tree>,
}

/// Of a rewrite rule.
pub(crate) fn rewrite(alloc: Global, env: &Env, rule: &RewriteRule) -> Result<NamedList, ObligFault>
    requires { (A : Ty) × Typed env.now (type_list rule.now.vars) rule.now.left A }
    ensures found { IfOk result (λ l. l ≡ rewrite_obligations env.now rule.now) }
    ensures large { result ≡ Err TooLarge → ¬ AreSmall (rewrite_obligations env.now rule.now) }
{
    let sides = Sides {
        rule,
        types: rule.vars.to_vec(alloc)?,
        ty: left_type(alloc, env, rule)?,
        left: left_condition(alloc, env, &rule.left)?,
    };
    let mut all = branches(alloc, env, &sides)?;
    add_complete(&mut all, alloc, &sides)?;
    Ok(all)
}

/// The type of the left side.
fn left_type(alloc: Global, env: &Env, rule: &RewriteRule) -> Result<Ty, NoMemory>
    requires { (A : Ty) × Typed env.now (type_list rule.now.vars) rule.now.left A }
    ensures { IfOk result (λ A. A ≡ type_in env.now (type_list rule.now.vars) rule.now.left) }
{
    match type_of(alloc, env, &rule.vars, &rule.left)? {
        Some(ty) => Ok(ty),
        None => unreachable!(),
    }
}

/// The condition of the left side, or `None` where it is too large.
fn left_condition(alloc: Global, env: &Env, left: &Tree) -> Result<Option<Tree>, NoMemory>
    ensures found { IfOk result (λ o. IfSome o (λ t. t ≡ wd env.now left.now)) }
    ensures none { IfOk result (λ o. IfNone o (¬ IsSmall (wd env.now left.now))) }
{
    match condition_of(alloc, env, left) {
        Ok(condition) => Ok(Some(condition)),
        Err(ObligFault::TooLarge) => Ok(None),
        Err(ObligFault::NoMemory) => Err(NoMemory),
    }
}

/// Those of all branches.
#[tactic(auto, using(crate::proofs::Listing::numbered))]
fn branches(alloc: Global, env: &Env, sides: &Sides<'_>) -> Result<NamedList, ObligFault>
    requires { AreSides env.now sides.now }
    ensures found { IfOk result (λ l. l ≡ flat_map (branch_obligations env.now sides.now.rule.now) (enumerate_from 1 sides.now.rule.now.branches)) }
    ensures large { result ≡ Err TooLarge → ¬ AreSmall (flat_map (branch_obligations env.now sides.now.rule.now) (enumerate_from 1 sides.now.rule.now.branches)) }
{
    let branches = sides.rule.branches.as_slice();
    let mut all = NamedList::new(alloc);
    for i in 0..branches.len() {
        add_branch(&mut all, alloc, env, sides, i, &branches[i])?;
    }
    Ok(all)
}

/// Appends those of the branch with the number i, from 0.
fn add_branch(
    all: &mut NamedList,
    alloc: Global,
    env: &Env,
    sides: &Sides<'_>,
    i: usize,
    branch: &Branch,
) -> Result<(), ObligFault>
    requires { AreSides env.now sides.now }
    ensures ok { OnOk result (all.new ≡ all.old ++ branch_obligations env.now sides.now.rule.now (i + 1, branch.now)) }
    ensures large { result ≡ Err TooLarge → ¬ AreSmall (branch_obligations env.now sides.now.rule.now (i + 1, branch.now)) }
{
    let asked = branch_condition(alloc, env, sides, branch)?;
    let number = number_after(i)?;
    let formula = branch_formula(alloc, sides, branch)?;
    let sound = make_for_all(alloc, sides.types.as_slice(), formula)?;
    push(all, alloc, ObKind::SoundOf(number), sound)?;
    push_wd(all, alloc, ObKind::WdOf(number), asked)?;
    Ok(())
}

/// `C => L ~~ R`
fn branch_formula(alloc: Global, sides: &Sides<'_>, branch: &Branch) -> Result<Tree, NoMemory>
    ensures { IfOk result (λ t. (env : Env) → AreSides env sides.now → t ≡ branch_formula env sides.now.rule.now branch.now) }
{
    let left = sides.rule.left.try_copy(alloc)?;
    let right = branch.right.try_copy(alloc)?;
    let equal = make_equation(alloc, &sides.ty, left, right)?;
    under_condition(alloc, &branch.condition, equal)
}

fn under_condition(alloc: Global, condition: &Option<Tree>, formula: Tree) -> Result<Tree, NoMemory>
    ensures { IfOk result (λ t. t ≡ under_condition condition.now formula) }
{
    match condition {
        Some(condition) => {
            let condition = condition.try_copy(alloc)?;
            make_joined(alloc, Connective::Implies, condition, formula)
        }
        None => Ok(formula),
    }
}

/// That the right side is well defined where the left side and the condition are, and the condition holds.
fn branch_condition(
    alloc: Global,
    env: &Env,
    sides: &Sides<'_>,
    branch: &Branch,
) -> Result<Tree, ObligFault>
    requires { AreSides env.now sides.now }
    ensures found { IfOk result (λ t. t ≡ branch_wd env.now sides.now.rule.now branch.now) }
    ensures large { result ≡ Err TooLarge → ¬ IsSmall (branch_wd env.now sides.now.rule.now branch.now) }
{
    let right = condition_of(alloc, env, &branch.right)?;
    if is_truth(&right) {
        return Ok(right);
    }
    let guard = guard_of(alloc, env, sides, &branch.condition)?;
    let guarded = make_imp(alloc, guard, right)?;
    Ok(make_alls(alloc, sides.types.as_slice(), guarded)?)
}

/// That the left side and the condition are well defined, and that the condition holds.
fn guard_of(
    alloc: Global,
    env: &Env,
    sides: &Sides<'_>,
    condition: &Option<Tree>,
) -> Result<Tree, ObligFault>
    requires { AreSides env.now sides.now }
    ensures found { IfOk result (λ t. t ≡ branch_guard env.now sides.now.rule.now condition.now) }
    ensures large { result ≡ Err TooLarge → ¬ IsSmall (branch_guard env.now sides.now.rule.now condition.now) }
{
    let Some(left) = &sides.left else {
        return Err(ObligFault::TooLarge);
    };
    let condition = condition_or_truth(alloc, condition)?;
    let asked = condition_of(alloc, env, &condition)?;
    let both = make_and(alloc, left.try_copy(alloc)?, asked)?;
    Ok(make_and(alloc, both, condition)?)
}

/// Appends that the conditions cover all cases, where the rule says so.
fn add_complete(all: &mut NamedList, alloc: Global, sides: &Sides<'_>) -> Result<(), NoMemory>
    requires { sides.now.types.items ≡ type_list sides.now.rule.now.vars }
    ensures { OnOk result (all.new ≡ all.old ++ complete_obligation sides.now.rule.now) }
{
    if !sides.rule.complete {
        return Ok(());
    }
    let conditions = conditions_of(alloc, sides.rule.branches.as_slice())?;
    let formula = disjunction(alloc, conditions.as_slice())?;
    let goal = make_for_all(alloc, sides.types.as_slice(), formula)?;
    push(all, alloc, ObKind::Complete, goal)
}

fn conditions_of(alloc: Global, branches: &[Branch]) -> Result<Trees, NoMemory>
    ensures { IfOk result (λ ts. ts ≡ map (λ (b : Branch). condition_or_truth b.condition) branches.now) }
{
    let mut all = Trees::new(alloc);
    for branch in branches {
        all.push(alloc, condition_or_truth(alloc, &branch.condition)?)?;
    }
    Ok(all)
}

/// Some of the predicates holds.
fn disjunction(alloc: Global, trees: &[Tree]) -> Result<Tree, NoMemory>
    ensures { IfOk result (λ t. t ≡ disj_all trees.now) }
{
    match trees {
        [] => make_falsity(alloc),
        [first, rest @ ..] => joined_after(alloc, Connective::Or, first.try_copy(alloc)?, rest),
    }
}

/// Each of the predicates holds.
fn conjunction(alloc: Global, trees: &[Tree]) -> Result<Tree, NoMemory>
    ensures { IfOk result (λ t. t ≡ givens_formula trees.now) }
{
    match trees {
        [] => make_truth(alloc),
        [first, rest @ ..] => joined_after(alloc, Connective::And, first.try_copy(alloc)?, rest),
    }
}

/// Of an inference rule.
pub(crate) fn inference(
    alloc: Global,
    env: &Env,
    rule: &InferenceRule,
) -> Result<NamedList, ObligFault>
    ensures found { IfOk result (λ l. l ≡ inference_obligations env.now rule.now) }
    ensures large { result ≡ Err TooLarge → ¬ AreSmall (inference_obligations env.now rule.now) }
{
    let types = rule.vars.to_vec(alloc)?;
    let givens = conjunction(alloc, rule.givens.as_slice())?;
    let asked = inference_condition(alloc, env, rule, &givens, types.as_slice())?;
    let formula = inference_formula(alloc, rule, givens)?;
    let sound = make_for_all(alloc, types.as_slice(), formula)?;
    let mut all = NamedList::new(alloc);
    push(&mut all, alloc, ObKind::Sound, sound)?;
    push_wd(&mut all, alloc, ObKind::Wd, asked)?;
    Ok(all)
}

/// `G1 & .. & Gk => Q`, or `Q`
fn inference_formula(alloc: Global, rule: &InferenceRule, givens: Tree) -> Result<Tree, NoMemory>
    requires { givens ≡ givens_formula rule.now.givens }
    ensures { IfOk result (λ t. t ≡ inference_formula rule.now.givens rule.now.conclusion) }
{
    let conclusion = rule.conclusion.try_copy(alloc)?;
    if rule.givens.is_empty() {
        return Ok(conclusion);
    }
    make_joined(alloc, Connective::Implies, givens, conclusion)
}

/// That the givens are well defined where the conclusion is.
fn inference_condition(
    alloc: Global,
    env: &Env,
    rule: &InferenceRule,
    givens: &Tree,
    types: &[Ty],
) -> Result<Tree, ObligFault>
    requires givens { givens.now ≡ givens_formula rule.now.givens }
    requires types { types.now ≡ type_list rule.now.vars }
    ensures found { IfOk result (λ t. t ≡ inference_wd env.now rule.now) }
    ensures large { result ≡ Err TooLarge → ¬ IsSmall (inference_wd env.now rule.now) }
{
    let inner = condition_of(alloc, env, givens)?;
    if is_truth(&inner) {
        return Ok(inner);
    }
    let guard = condition_of(alloc, env, &rule.conclusion)?;
    let guarded = make_imp(alloc, guard, inner)?;
    Ok(make_alls(alloc, types, guarded)?)
}
