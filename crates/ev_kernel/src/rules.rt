ghost use Rattle.std.specs.Prelude.{◌≢◌, ◌↔◌, ◌≤◌, ℕ, List, [], ◌∷◌, IsTrue, IfOk, length};
ghost use Rattle.std.specs.List.{AllByRecursion};
ghost use Rattle.ev_terms.specs.declared.types.Tys.{Tys};
ghost use Rattle.ev_terms.specs.Term.{Term};
ghost use Rattle.ev_typing.specs.BaseSequents.{IsBaseSequent};
ghost use Rattle.ev_typing.specs.Env.{Env, Name};
ghost use Rattle.ev_kernel.specs.declared.rules.BaseRule.TheVariants.{Cong, Ind, Inst, AllE, ExI, Axiom, Des, Dis, Rec};
ghost use Rattle.ev_kernel.specs.Row.{Row};
ghost use Rattle.ev_kernel.specs.Derivable.{Follows, named};

use crate::calculations::calculation;
use crate::declarations::{axiom_row, destructor, distinct_constructors, induction, recursion};
use crate::equality::{
    bool_truth, congruence, reflexivity, set_membership, symmetry, transitivity,
};
use crate::numbers::premise_of;
use crate::propositional::{
    and_elim_left, and_elim_right, and_intro, cut, excluded_middle, falsity_elim, hypothesis,
    iff_elim_left, iff_elim_right, iff_intro, implies_intro, modus_ponens, not_elim, not_intro,
    or_elim, or_intro_left, or_intro_right, truth_intro, weakening,
};
use crate::quantifiers::{exists_elim, exists_intro, forall_elim, forall_intro, instantiation};
use ev_terms::{ListOf, Name, NoMemory, Nums, Tree, Trees, TryCopy, Tys};
use ev_typing::{Env, Sequent, Sequents, is_base_sequent};
use std::alloc::Global;

/// The rules of the base logic, a classical sequent calculus with equality, one for each row of their table in `docs/logic.md`. The
/// names that end in I introduce the symbol in the conclusion, and those that end in E use it in a premise.
#[derive(Drop)]
pub enum BaseRule {
    /// The goal is a hypothesis.
    Hyp,
    /// Fewer hypotheses, or the same in another order.
    Weak,
    /// By a further hypothesis, which is proved.
    Cut,
    /// Types put for the type parameters, and a term for each variable of the premise's context, that of the outermost first.
    Inst(Tys, Trees),
    /// `true`
    TrueI,
    /// From `false` anything.
    FalseE,
    /// What leads to `false` is not so.
    NotI,
    /// P and `not P` give `false`.
    NotE,
    /// Both sides give `P & Q`.
    AndI,
    /// The left side of `P & Q`.
    AndE1,
    /// The right side of `P & Q`.
    AndE2,
    /// The left side gives `P or Q`.
    OrI1,
    /// The right side gives `P or Q`.
    OrI2,
    /// By cases on `P or Q`.
    OrE,
    /// The right side of `P => Q` under the left one.
    ImpI,
    /// Modus ponens.
    ImpE,
    /// Each side of `P <=> Q` under the other one.
    IffI,
    /// The right side from `P <=> Q` and the left one.
    IffE1,
    /// The left side from `P <=> Q` and the right one.
    IffE2,
    /// `!x. P` from P for a new variable.
    AllI,
    /// `!x. P` at this term.
    AllE(Tree),
    /// `#x. P` by this term.
    ExI(Tree),
    /// From `#x. P` by P for a new variable.
    ExE,
    /// `P or not P`
    Em,
    /// An equation with the same sides.
    Refl,
    /// The sides of an equation exchanged.
    Sym,
    /// Two equations with one side in common.
    Trans,
    /// One symbol at the same types, on children that are equal one by one.
    Cong,
    /// What is in a set `{x | Q}`.
    SetMem,
    /// When `bool(P)` is `TRUE`.
    BoolMem,
    /// A fact on literals.
    Calc,
    /// An axiom, by its number from 1.
    Axiom(u32),
    /// What the destructor at a place, from 1, makes of its constructor.
    Des(Name, u32),
    /// That two constructors of one datatype make no equal values.
    Dis(Name, Name),
    /// `!x. P` over a datatype, by P for each constructor.
    Ind,
    /// What a recursive operator is at a constructor.
    Rec(Name, Name),
}

/// A line of a derivation: a sequent, and the rule by which it follows from the earlier lines that the numbers name, from 1.
#[derive(Drop)]
pub struct Line {
    pub sequent: Sequent,
    pub rule: BaseRule,
    pub premises: Nums,
}

pub type Lines = ListOf<Line>;

impl TryCopy for BaseRule {
    fn try_copy(&self, alloc: Global) -> Result<BaseRule, NoMemory> {
        match self {
            BaseRule::Hyp => Ok(BaseRule::Hyp),
            BaseRule::Weak => Ok(BaseRule::Weak),
            BaseRule::Cut => Ok(BaseRule::Cut),
            BaseRule::Inst(types, terms) => {
                let types = types.try_copy(alloc)?;
                Ok(BaseRule::Inst(types, terms.try_copy(alloc)?))
            }
            BaseRule::TrueI => Ok(BaseRule::TrueI),
            BaseRule::FalseE => Ok(BaseRule::FalseE),
            BaseRule::NotI => Ok(BaseRule::NotI),
            BaseRule::NotE => Ok(BaseRule::NotE),
            BaseRule::AndI => Ok(BaseRule::AndI),
            BaseRule::AndE1 => Ok(BaseRule::AndE1),
            BaseRule::AndE2 => Ok(BaseRule::AndE2),
            BaseRule::OrI1 => Ok(BaseRule::OrI1),
            BaseRule::OrI2 => Ok(BaseRule::OrI2),
            BaseRule::OrE => Ok(BaseRule::OrE),
            BaseRule::ImpI => Ok(BaseRule::ImpI),
            BaseRule::ImpE => Ok(BaseRule::ImpE),
            BaseRule::IffI => Ok(BaseRule::IffI),
            BaseRule::IffE1 => Ok(BaseRule::IffE1),
            BaseRule::IffE2 => Ok(BaseRule::IffE2),
            BaseRule::AllI => Ok(BaseRule::AllI),
            BaseRule::AllE(term) => Ok(BaseRule::AllE(term.try_copy(alloc)?)),
            BaseRule::ExI(term) => Ok(BaseRule::ExI(term.try_copy(alloc)?)),
            BaseRule::ExE => Ok(BaseRule::ExE),
            BaseRule::Em => Ok(BaseRule::Em),
            BaseRule::Refl => Ok(BaseRule::Refl),
            BaseRule::Sym => Ok(BaseRule::Sym),
            BaseRule::Trans => Ok(BaseRule::Trans),
            BaseRule::Cong => Ok(BaseRule::Cong),
            BaseRule::SetMem => Ok(BaseRule::SetMem),
            BaseRule::BoolMem => Ok(BaseRule::BoolMem),
            BaseRule::Calc => Ok(BaseRule::Calc),
            BaseRule::Axiom(k) => Ok(BaseRule::Axiom(*k)),
            BaseRule::Des(con, place) => Ok(BaseRule::Des(con.try_copy(alloc)?, *place)),
            BaseRule::Dis(left, right) => {
                let left = left.try_copy(alloc)?;
                Ok(BaseRule::Dis(left, right.try_copy(alloc)?))
            }
            BaseRule::Ind => Ok(BaseRule::Ind),
            BaseRule::Rec(op, con) => {
                let op = op.try_copy(alloc)?;
                Ok(BaseRule::Rec(op, con.try_copy(alloc)?))
            }
        }
    }
}

impl TryCopy for Line {
    fn try_copy(&self, alloc: Global) -> Result<Line, NoMemory> {
        Ok(Line {
            sequent: self.sequent.try_copy(alloc)?,
            rule: self.rule.try_copy(alloc)?,
            premises: self.premises.try_copy(alloc)?,
        })
    }
}

/// The rules without premises, but for congruence and induction.
fn follows_from_none(
    alloc: Global,
    env: &Env,
    rule: &BaseRule,
    conclusion: &Sequent,
) -> Result<bool, NoMemory>
    requires congruence { rule.now ≢ Cong }
    requires induction { rule.now ≢ Ind }
    ensures { IfOk result (λ yes. IsTrue yes ↔ Row env.now [] rule.now conclusion.now) }
{
    match rule {
        BaseRule::Axiom(k) => axiom_row(alloc, *k, conclusion),
        BaseRule::Des(con, place) => destructor(alloc, env, con, *place, conclusion),
        BaseRule::Dis(left, right) => distinct_constructors(alloc, env, left, right, conclusion),
        BaseRule::Rec(op, con) => recursion(alloc, env, op, con, conclusion),
        _ => Ok(concludes_plainly(rule, conclusion)),
    }
}

/// The rules without premises and without fields.
fn concludes_plainly(rule: &BaseRule, conclusion: &Sequent) -> bool
    requires congruence { rule.now ≢ Cong }
    requires induction { rule.now ≢ Ind }
    requires axiom { (k : ℕ) → rule.now ≢ Axiom k }
    requires destructor { (con : Name) (place : ℕ) → rule.now ≢ Des con place }
    requires distinctness { (left right : Name) → rule.now ≢ Dis left right }
    requires recursion { (op con : Name) → rule.now ≢ Rec op con }
    ensures { (env : Env) → IsTrue result ↔ Row env [] rule.now conclusion.now }
{
    match rule {
        BaseRule::Hyp => hypothesis(conclusion),
        BaseRule::TrueI => truth_intro(conclusion),
        BaseRule::Em => excluded_middle(conclusion),
        BaseRule::Refl => reflexivity(conclusion),
        BaseRule::SetMem => set_membership(conclusion),
        BaseRule::BoolMem => bool_truth(conclusion),
        BaseRule::Calc => calculation(conclusion),
        _ => false,
    }
}

/// The rules with one premise, but for congruence and induction.
fn follows_from_one(
    alloc: Global,
    env: &Env,
    premise: &Sequent,
    rule: &BaseRule,
    conclusion: &Sequent,
) -> Result<bool, NoMemory>
    requires congruence { rule.now ≢ Cong }
    requires induction { rule.now ≢ Ind }
    ensures { IfOk result (λ yes. IsTrue yes ↔ Row env.now (premise.now ∷ []) rule.now conclusion.now) }
{
    match rule {
        BaseRule::Inst(types, terms) => instantiation(
            alloc, env, types, terms, premise, conclusion,
        ),
        BaseRule::AllE(term) => forall_elim(alloc, env, term, premise, conclusion),
        BaseRule::ExI(term) => exists_intro(alloc, env, term, premise, conclusion),
        _ => Ok(follows_plainly(premise, rule, conclusion)),
    }
}

/// The rules with one premise and without fields.
fn follows_plainly(premise: &Sequent, rule: &BaseRule, conclusion: &Sequent) -> bool
    requires congruence { rule.now ≢ Cong }
    requires induction { rule.now ≢ Ind }
    requires instance { (As : Tys) (ts : List Term) → rule.now ≢ Inst As ts }
    requires all { (t : Term) → rule.now ≢ AllE t }
    requires witness { (t : Term) → rule.now ≢ ExI t }
    ensures { (env : Env) → IsTrue result ↔ Row env (premise.now ∷ []) rule.now conclusion.now }
{
    match rule {
        BaseRule::Weak => weakening(premise, conclusion),
        BaseRule::FalseE => falsity_elim(premise, conclusion),
        BaseRule::NotI => not_intro(premise, conclusion),
        BaseRule::AndE1 => and_elim_left(premise, conclusion),
        BaseRule::AndE2 => and_elim_right(premise, conclusion),
        BaseRule::OrI1 => or_intro_left(premise, conclusion),
        BaseRule::OrI2 => or_intro_right(premise, conclusion),
        BaseRule::ImpI => implies_intro(premise, conclusion),
        BaseRule::AllI => forall_intro(premise, conclusion),
        BaseRule::Sym => symmetry(premise, conclusion),
        _ => false,
    }
}

/// The rules with two premises, but for congruence and induction.
fn follows_from_two(
    first: &Sequent,
    second: &Sequent,
    rule: &BaseRule,
    conclusion: &Sequent,
) -> bool
    requires congruence { rule.now ≢ Cong }
    requires induction { rule.now ≢ Ind }
    ensures { (env : Env) → IsTrue result ↔ Row env (first.now ∷ second.now ∷ []) rule.now conclusion.now }
{
    match rule {
        BaseRule::Cut => cut(first, second, conclusion),
        BaseRule::NotE => not_elim(first, second, conclusion),
        BaseRule::AndI => and_intro(first, second, conclusion),
        BaseRule::ImpE => modus_ponens(first, second, conclusion),
        BaseRule::IffI => iff_intro(first, second, conclusion),
        BaseRule::IffE1 => iff_elim_right(first, second, conclusion),
        BaseRule::IffE2 => iff_elim_left(first, second, conclusion),
        BaseRule::ExE => exists_elim(first, second, conclusion),
        BaseRule::Trans => transitivity(first, second, conclusion),
        _ => false,
    }
}

/// The rule with three premises, but for congruence and induction.
fn follows_from_three(
    first: &Sequent,
    second: &Sequent,
    third: &Sequent,
    rule: &BaseRule,
    conclusion: &Sequent,
) -> bool
    requires congruence { rule.now ≢ Cong }
    requires induction { rule.now ≢ Ind }
    ensures { (env : Env) → IsTrue result ↔ Row env (first.now ∷ second.now ∷ third.now ∷ []) rule.now conclusion.now }
{
    match rule {
        BaseRule::OrE => or_elim(first, second, third, conclusion),
        _ => false,
    }
}

/// The rules with a fixed number of premises.
fn follows_from(
    alloc: Global,
    env: &Env,
    earlier: &Sequents,
    premises: &[u128],
    rule: &BaseRule,
    conclusion: &Sequent,
) -> Result<bool, NoMemory>
    requires numbers { AllByRecursion (λ n. (1 ≤ n) × (n ≤ length earlier.now)) premises.now }
    requires congruence { rule.now ≢ Cong }
    requires induction { rule.now ≢ Ind }
    ensures { IfOk result (λ yes. IsTrue yes ↔ Row env.now (named earlier.now premises.now) rule.now conclusion.now) }
{
    match premises {
        [] => follows_from_none(alloc, env, rule, conclusion),
        [only] => {
            let premise = premise_of(earlier, *only);
            follows_from_one(alloc, env, premise, rule, conclusion)
        }
        [first, second] => {
            let first = premise_of(earlier, *first);
            let second = premise_of(earlier, *second);
            Ok(follows_from_two(first, second, rule, conclusion))
        }
        [first, second, third] => {
            let first = premise_of(earlier, *first);
            let second = premise_of(earlier, *second);
            let third = premise_of(earlier, *third);
            Ok(follows_from_three(first, second, third, rule, conclusion))
        }
        [_, _, _, _, ..] => Ok(false),
    }
}

/// Whether the conclusion and the premises are those of the rule's row.
fn is_row(
    alloc: Global,
    env: &Env,
    earlier: &Sequents,
    premises: &[u128],
    rule: &BaseRule,
    conclusion: &Sequent,
) -> Result<bool, NoMemory>
    requires { AllByRecursion (λ n. (1 ≤ n) × (n ≤ length earlier.now)) premises.now }
    ensures { IfOk result (λ yes. IsTrue yes ↔ Row env.now (named earlier.now premises.now) rule.now conclusion.now) }
{
    match rule {
        BaseRule::Cong => Ok(congruence(earlier, premises, conclusion)),
        BaseRule::Ind => induction(alloc, env, earlier, premises, conclusion),
        _ => follows_from(alloc, env, earlier, premises, rule, conclusion),
    }
}

/// Whether the sequent is a conclusion of the rule without premises. Types are not looked at: a sequent that is known to be well typed
/// and without direct operators then follows by the rule.
pub fn concludes(
    alloc: Global,
    env: &Env,
    rule: &BaseRule,
    conclusion: &Sequent,
) -> Result<bool, NoMemory>
    ensures { IfOk result (λ yes. IsTrue yes ↔ Row env.now [] rule.now conclusion.now) }
{
    is_row(alloc, env, &Sequents::new(alloc), &[], rule, conclusion)
}

/// Whether the sequents that the numbers name are well typed and without direct operators.
#[tactic(auto, using(crate::proofs::Rows::named_base))]
fn are_base(
    alloc: Global,
    env: &Env,
    earlier: &Sequents,
    premises: &[u128],
) -> Result<bool, NoMemory>
    requires { AllByRecursion (λ n. (1 ≤ n) × (n ≤ length earlier.now)) premises.now }
    ensures { IfOk result (λ yes. IsTrue yes ↔ AllByRecursion (IsBaseSequent env.now) (named earlier.now premises.now)) }
{
    for number in premises {
        let premise = premise_of(earlier, *number);
        if !is_base_sequent(alloc, env, premise)? {
            return Ok(false);
        }
    }
    Ok(true)
}

/// Whether the conclusion follows by the rule from the sequents that the premises name, numbered from 1: all of them are well typed
/// over the environment and without direct operators, and they are the conclusion and the premises of the rule's row. The work is
/// linear in these sequents, in what the rule puts into them and, for `Weak`, in the product of the two lists of hypotheses. Sequents
/// are compared as they stand; memory is taken for the types of the context and of symbols, and for the type instances of `Inst`.
pub fn infers(
    alloc: Global,
    env: &Env,
    earlier: &Sequents,
    premises: &Nums,
    rule: &BaseRule,
    conclusion: &Sequent,
) -> Result<bool, NoMemory>
    requires { AllByRecursion (λ n. (1 ≤ n) × (n ≤ length earlier.now)) premises.now }
    ensures { IfOk result (λ yes. IsTrue yes ↔ Follows env.now (named earlier.now premises.now) rule.now conclusion.now) }
{
    let premises = premises.as_slice();
    if !is_row(alloc, env, earlier, premises, rule, conclusion)? {
        return Ok(false);
    }
    if !is_base_sequent(alloc, env, conclusion)? {
        return Ok(false);
    }
    are_base(alloc, env, earlier, premises)
}
