//! The obligations of elements.
ghost use Rattle.std.specs.Prelude.{◌≡◌, ◌↔◌, ◌++◌, [], ◌∷◌, IsTrue, Err, IfOk, OnOk};
ghost use Rattle.ev_terms.specs.declared.obligation.ObKind.TheVariants.{Wd};
ghost use Rattle.ev_typing.specs.WellFormed.{inductive_data};
ghost use Rattle.ev_oblig.specs.Obligations.{obligations, named, wd_named, direct_wd, theorem_obligations, case_obligations, AreSmall, HasTypedLeft};
ghost use Rattle.ev_oblig.specs.declared.faults.ObligFault.TheVariants.{TooLarge};

use crate::cases::{Operator, cases};
use crate::faults::ObligFault;
use crate::makers::{condition_of, condition_or_truth, is_small, make_alls, make_imp};
use crate::named::{Named, NamedList};
use crate::rules::{inference, rewrite};
use ev_data::inductive_argument;
use ev_forms::is_truth;
use ev_rules::Element;
use ev_terms::{NoMemory, ObKind, Tree, Trees, TryCopy};
use ev_typing::{Env, Signature};
use std::alloc::Global;

/// The obligations of an element in their order, over an environment in which the element itself stands. `TooLarge` comes exactly where
/// one is larger than a formula may be. Source: Butler and Maamria, Practical Theory Extension in Event-B, in outline.
pub fn obligations(alloc: Global, env: &Env, element: &Element) -> Result<NamedList, ObligFault>
    requires typed { HasTypedLeft env.now element.now }
    ensures found { IfOk result (λ l. (l ≡ obligations env.now element.now) × AreSmall l) }
    ensures large { result ≡ Err TooLarge → ¬ AreSmall (obligations env.now element.now) }
{
    let all = listed(alloc, env, element)?;
    if are_small(all.as_slice()) {
        Ok(all)
    } else {
        Err(ObligFault::TooLarge)
    }
}

/// Whether each goal is within the limits.
#[tactic(auto, using(crate::proofs::Listing::walk))]
fn are_small(all: &[Named]) -> bool
    ensures { IsTrue result ↔ AreSmall all.now }
{
    for one in all {
        if !is_small(&one.goal) {
            return false;
        }
    }
    true
}

/// The obligations, of any size; `TooLarge` where a condition in one of them is too large.
fn listed(alloc: Global, env: &Env, element: &Element) -> Result<NamedList, ObligFault>
    requires typed { HasTypedLeft env.now element.now }
    ensures found { IfOk result (λ l. l ≡ obligations env.now element.now) }
    ensures large { result ≡ Err TooLarge → ¬ AreSmall (obligations env.now element.now) }
{
    match element {
        Element::Import(_)
        | Element::Params(_)
        | Element::Data(_)
        | Element::Constant(_, _)
        | Element::Axiom(_, _) => Ok(NamedList::new(alloc)),
        Element::Direct(signature, condition, body) => {
            direct(alloc, env, signature, condition, body)
        }
        Element::Recursive(signature, condition, place, bodies) => {
            recursive(alloc, env, signature, condition, *place, bodies)
        }
        Element::Theorem(_, formula) => theorem(alloc, env, formula),
        Element::Rewrite(rule) => rewrite(alloc, env, rule),
        Element::Inference(rule) => inference(alloc, env, rule),
    }
}

/// Appends an obligation.
pub(crate) fn push(
    all: &mut NamedList,
    alloc: Global,
    kind: ObKind,
    goal: Tree,
) -> Result<(), NoMemory>
    ensures { OnOk result (all.new ≡ all.old ++ named kind goal ∷ []) }
{
    all.push(alloc, Named { kind, goal })
}

/// Appends an obligation of well-definedness, where it is not `true`.
#[tactic(auto, using(crate::proofs::Listing::conditions))]
pub(crate) fn push_wd(
    all: &mut NamedList,
    alloc: Global,
    kind: ObKind,
    goal: Tree,
) -> Result<(), NoMemory>
    ensures { OnOk result (all.new ≡ all.old ++ wd_named kind goal) }
{
    if is_truth(&goal) {
        return Ok(());
    }
    push(all, alloc, kind, goal)
}

/// Of a direct operator.
fn direct(
    alloc: Global,
    env: &Env,
    signature: &Signature,
    condition: &Option<Tree>,
    body: &Tree,
) -> Result<NamedList, ObligFault>
    ensures found { IfOk result (λ l. l ≡ wd_named Wd (direct_wd env.now signature.now condition.now body.now)) }
    ensures large { result ≡ Err TooLarge → ¬ AreSmall (wd_named Wd (direct_wd env.now signature.now condition.now body.now)) }
{
    let inner = condition_of(alloc, env, body)?;
    let guard = condition_or_truth(alloc, condition)?;
    let guarded = make_imp(alloc, guard, inner)?;
    let types = signature.args.to_vec(alloc)?;
    let goal = make_alls(alloc, types.as_slice(), guarded)?;
    let mut all = NamedList::new(alloc);
    push_wd(&mut all, alloc, ObKind::Wd, goal)?;
    Ok(all)
}

/// Of a recursive operator.
fn recursive(
    alloc: Global,
    env: &Env,
    signature: &Signature,
    condition: &Option<Tree>,
    place: u32,
    bodies: &Trees,
) -> Result<NamedList, ObligFault>
    ensures found { IfOk result (λ l. l ≡ case_obligations env.now signature.now condition.now place bodies.now (inductive_data env.now signature.now place)) }
    ensures large { result ≡ Err TooLarge → ¬ AreSmall (case_obligations env.now signature.now condition.now place bodies.now (inductive_data env.now signature.now place)) }
{
    match inductive_argument(env, signature, place) {
        Some((decl, types)) => {
            let operator = Operator {
                signature,
                condition,
                place,
                types,
            };
            cases(
                alloc,
                env,
                &operator,
                decl.cons.as_slice(),
                bodies.as_slice(),
            )
        }
        None => Ok(NamedList::new(alloc)),
    }
}

/// Of a theorem.
fn theorem(alloc: Global, env: &Env, formula: &Tree) -> Result<NamedList, ObligFault>
    ensures found { IfOk result (λ l. l ≡ theorem_obligations env.now formula.now) }
    ensures large { result ≡ Err TooLarge → ¬ AreSmall (theorem_obligations env.now formula.now) }
{
    let condition = condition_of(alloc, env, formula)?;
    let mut all = NamedList::new(alloc);
    push(&mut all, alloc, ObKind::Thm, formula.try_copy(alloc)?)?;
    push_wd(&mut all, alloc, ObKind::Wd, condition)?;
    Ok(all)
}
