//! Lines by rules that are derived from the base rules, or are these with their sequents made.
ghost use Rattle.std.specs.Prelude.{◌≡◌, ◌≤◌, ◌+◌, ◌^◌, ◌++◌, Some, None, [], ◌∷◌, List, Contains, length, map, IfOk};
ghost use Rattle.std.specs.List.{AllByRecursion};
ghost use Rattle.ev_terms.specs.declared.types.Ty.{Ty};
ghost use Rattle.ev_terms.specs.Types.{type_list};
ghost use Rattle.ev_terms.specs.Term.{Term, terms as all_of};
ghost use Rattle.ev_terms.specs.Substitution.{fill, instance};
ghost use Rattle.ev_typing.specs.declared.typing.Sequent.{Sequent};
ghost use Rattle.ev_typing.specs.Sequents.{◌⊢◌};
ghost use Rattle.ev_typing.specs.Typing.{IsPredicate, AreProper, Typed};
ghost use Rattle.ev_typing.specs.TypeLists.{types};
ghost use Rattle.ev_typing.specs.Occurs.{IsPlain, ArePlain};
ghost use Rattle.ev_typing.specs.BaseSequents.{IsBaseSequent, widened};
ghost use Rattle.ev_forms.specs.Forms.{equation, imp, vars_above};
ghost use Rattle.ev_kernel.specs.Derivable.{IsDerivation};
ghost use Rattle.ev_congruence.specs.Growing.{concluded, Extends};
ghost use Rattle.ev_congruence.specs.Limits.{Keep};
ghost use Rattle.ev_congruence.specs.Settings.{IsBaseContext};
ghost use Rattle.ev_congruence.specs.Equating.{IsInstantiable};

use crate::adding::{from_none, from_one, from_two};
use crate::forming::{equated_beside, filled, sequent_of, variables_above, with_goal};
use crate::known::Derivation;
use ev_kernel::BaseRule;
use ev_terms::{NoMemory, Tree, Trees, TryCopy, Ty, Tys};
use ev_typing::{Env, Sequent};
use std::alloc::Global;

/// Two terms that an equation may stand between, and their type.
#[derive(Drop)]
pub struct Equation {
    pub ty: Ty,
    pub left: Tree,
    pub right: Tree,
}

/// An equation of a term with itself.
pub fn reflexivity(
    alloc: Global,
    env: &Env,
    lines: &mut Derivation,
    at: &Sequent,
    ty: &Ty,
    term: &Tree,
) -> Result<u128, NoMemory>
    requires derivation { IsDerivation env.now lines.old }
    requires base { IsBaseContext env.now at.now }
    requires typed { Typed env.now (type_list at.now.context) term.now ty.now }
    requires plain { IsPlain env.now term.now }
    ensures concludes { IfOk result (λ n. concluded lines.new n ≡ Some (at.now ⊢ equation ty.now term.now term.now)) }
    ensures extends { Extends env.now lines.old lines.new }
    ensures limits { Keep lines.old lines.new ((at.now ⊢ equation ty.now term.now term.now) ∷ []) [] [] }
{
    let _opened = env.count();
    let sequent = equated_beside(alloc, at, ty, term, term)?;
    from_none(alloc, env, lines, sequent, BaseRule::Refl)
}

/// The sides of an equation exchanged.
pub fn symmetry(
    alloc: Global,
    env: &Env,
    lines: &mut Derivation,
    at: &Sequent,
    sides: &Equation,
    premise: u128,
) -> Result<u128, NoMemory>
    requires derivation { IsDerivation env.now lines.old }
    requires premise { concluded lines.old premise ≡ Some (at.now ⊢ equation sides.now.ty sides.now.left sides.now.right) }
    ensures concludes { IfOk result (λ n. concluded lines.new n ≡ Some (at.now ⊢ equation sides.now.ty sides.now.right sides.now.left)) }
    ensures extends { Extends env.now lines.old lines.new }
    ensures limits { Keep lines.old lines.new ((at.now ⊢ equation sides.now.ty sides.now.right sides.now.left) ∷ []) [] [] }
{
    let sequent = equated_beside(alloc, at, &sides.ty, &sides.right, &sides.left)?;
    from_one(alloc, env, lines, sequent, BaseRule::Sym, premise)
}

/// From two equations with a middle term in common the equation of the outer ones.
pub fn transitivity(
    alloc: Global,
    env: &Env,
    lines: &mut Derivation,
    at: &Sequent,
    sides: &Equation,
    first: u128,
    second: u128,
) -> Result<u128, NoMemory>
    requires derivation { IsDerivation env.now lines.old }
    requires premises { (m : Term) × (concluded lines.old first ≡ Some (at.now ⊢ equation sides.now.ty sides.now.left m)) × (concluded lines.old second ≡ Some (at.now ⊢ equation sides.now.ty m sides.now.right)) }
    ensures concludes { IfOk result (λ n. concluded lines.new n ≡ Some (at.now ⊢ equation sides.now.ty sides.now.left sides.now.right)) }
    ensures extends { Extends env.now lines.old lines.new }
    ensures limits { Keep lines.old lines.new ((at.now ⊢ equation sides.now.ty sides.now.left sides.now.right) ∷ []) [] [] }
{
    let sequent = equated_beside(alloc, at, &sides.ty, &sides.left, &sides.right)?;
    from_two(alloc, env, lines, sequent, BaseRule::Trans, first, second)
}

/// Modus ponens.
pub fn modus_ponens(
    alloc: Global,
    env: &Env,
    lines: &mut Derivation,
    at: &Sequent,
    goal: &Tree,
    implication: u128,
    premise: u128,
) -> Result<u128, NoMemory>
    requires derivation { IsDerivation env.now lines.old }
    requires premises { (P : Term) × (concluded lines.old implication ≡ Some (at.now ⊢ imp P goal.now)) × (concluded lines.old premise ≡ Some (at.now ⊢ P)) }
    ensures concludes { IfOk result (λ n. concluded lines.new n ≡ Some (at.now ⊢ goal.now)) }
    ensures extends { Extends env.now lines.old lines.new }
    ensures limits { Keep lines.old lines.new ((at.now ⊢ goal.now) ∷ []) [] [] }
{
    let sequent = with_goal(alloc, at, goal.try_copy(alloc)?)?;
    let rule = BaseRule::ImpE;
    from_two(alloc, env, lines, sequent, rule, implication, premise)
}

/// The goal of a line under more hypotheses, or the same in another order.
pub fn weakened(
    alloc: Global,
    env: &Env,
    lines: &mut Derivation,
    at: &Sequent,
    hyps: &Trees,
    premise: u128,
) -> Result<u128, NoMemory>
    requires derivation { IsDerivation env.now lines.old }
    requires premise { concluded lines.old premise ≡ Some at.now }
    requires more { AllByRecursion (Contains hyps.now) at.now.hyps }
    requires predicates { AllByRecursion (IsPredicate env.now (type_list at.now.context)) hyps.now }
    requires plain { AllByRecursion (IsPlain env.now) hyps.now }
    ensures concludes { IfOk result (λ n. concluded lines.new n ≡ Some (record { context = at.now.context; hyps = hyps.now; goal = at.now.goal })) }
    ensures extends { Extends env.now lines.old lines.new }
    ensures limits { Keep lines.old lines.new ((record { context = at.now.context; hyps = hyps.now; goal = at.now.goal }) ∷ []) [] [] }
{
    let sequent = Sequent {
        context: at.context.try_copy(alloc)?,
        hyps: hyps.try_copy(alloc)?,
        goal: at.goal.try_copy(alloc)?,
    };
    from_one(alloc, env, lines, sequent, BaseRule::Weak, premise)
}

/// A line in a context that has more variables, `count` in all of them `outer` before: the sequent is the line's, widened.
pub fn lengthened(
    alloc: Global,
    env: &Env,
    lines: &mut Derivation,
    outer: u32,
    count: u32,
    sequent: Sequent,
    premise: u128,
) -> Result<u128, NoMemory>
    requires derivation { IsDerivation env.now lines.old }
    requires room { outer + count ≤ 2 ^ 32 }
    requires base { IsBaseContext env.now sequent }
    requires widened { (S : Sequent) × (Bs : List Ty) × (concluded lines.old premise ≡ Some S) × (length (type_list S.context) ≡ outer) × (length Bs ≡ count) × (sequent ≡ widened S Bs) }
    ensures concludes { IfOk result (λ n. concluded lines.new n ≡ Some sequent) }
    ensures extends { Extends env.now lines.old lines.new }
    ensures limits { Keep lines.old lines.new (sequent ∷ []) (vars_above outer count) [] }
{
    let terms = variables_above(alloc, outer, count)?;
    from_one(
        alloc,
        env,
        lines,
        sequent,
        BaseRule::Inst(Tys::Empty, terms),
        premise,
    )
}

/// A line without hypotheses with types put for its type parameters and a term for each variable of its context, that of the outermost
/// first.
pub fn instantiated(
    alloc: Global,
    env: &Env,
    lines: &mut Derivation,
    context: &Tys,
    types: &Tys,
    terms: &Trees,
    premise: u128,
) -> Result<u128, NoMemory>
    requires derivation { IsDerivation env.now lines.old }
    requires proper { AreProper env.now types.now }
    requires context { AreProper env.now context.now }
    requires plain { ArePlain env.now (all_of terms.now) }
    requires premise { (S : Sequent) × IsInstantiable env.now lines.old S context.now types.now terms.now premise }
    ensures concludes { IfOk result (λ n. (S : Sequent) → concluded lines.old premise ≡ Some S → concluded lines.new n ≡ Some (record { context = context.now; hyps = []; goal = fill (instance S.goal types.now) terms.now })) }
    ensures extends { Extends env.now lines.old lines.new }
    ensures limits { (S : Sequent) → concluded lines.old premise ≡ Some S → Keep lines.old lines.new ((record { context = context.now; hyps = []; goal = fill (instance S.goal types.now) terms.now }) ∷ []) terms.now (type_list types.now) }
{
    let _opened = env.count();
    let found = sequent_of(lines, premise);
    let goal = filled(alloc, &found.goal, types, terms)?;
    let sequent = Sequent {
        context: context.try_copy(alloc)?,
        hyps: Trees::new(alloc),
        goal,
    };
    let rule = BaseRule::Inst(types.try_copy(alloc)?, terms.try_copy(alloc)?);
    from_one(alloc, env, lines, sequent, rule, premise)
}
