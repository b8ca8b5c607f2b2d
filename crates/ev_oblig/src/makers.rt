//! How obligations are put together.
ghost use Rattle.std.specs.Prelude.{◌≡◌, ◌≤◌, ◌↔◌, IsTrue, IfOk, fold, false, Err};
ghost use Rattle.ev_forms.specs.Connectives.{joined};
ghost use Rattle.ev_forms.specs.Forms.{equation};
ghost use Rattle.ev_typing.specs.Occurs.{has_var};
ghost use Rattle.ev_wd.specs.Limits.{IsSmall, greatest_size, greatest_depth};
ghost use Rattle.ev_wd.specs.Makers.{make_and, make_imp, make_all, lowered};
ghost use Rattle.ev_wd.specs.WellDefined.{wd};
ghost use Rattle.ev_oblig.specs.Obligations.{condition_or_truth, make_alls};
ghost use Rattle.ev_oblig.specs.declared.faults.ObligFault.TheVariants.{TooLarge};

use crate::faults::ObligFault;
use crate::occurs::has_var;
use ev_forms::{
    Binder, Connective, Relation, is_truth, make_bound, make_joined, make_related, make_truth,
};
use ev_terms::limits::{DEPTH_LIMIT, SIZE_LIMIT};
use ev_terms::{Extent, NoMemory, Tree, Trees, TryCopy, Ty, extent, substitute, substitute_fits};
use ev_typing::Env;
use ev_wd::{WdFault, well_defined};
use std::alloc::Global;

/// The condition of a term.
pub(crate) fn condition_of(alloc: Global, env: &Env, tree: &Tree) -> Result<Tree, ObligFault>
    ensures found { IfOk result (λ t. t ≡ wd env.now tree.now) }
    ensures large { result ≡ Err TooLarge → ¬ IsSmall (wd env.now tree.now) }
{
    match well_defined(alloc, env, tree) {
        Ok(condition) => Ok(condition),
        Err(WdFault::TooLarge) => Err(ObligFault::TooLarge),
        Err(WdFault::NoMemory) => Err(ObligFault::NoMemory),
    }
}

fn is_within(extent: Extent) -> bool
    ensures { IsTrue result ↔ ((extent.size ≤ greatest_size) × (extent.depth ≤ greatest_depth)) }
{
    extent.size <= SIZE_LIMIT && extent.depth <= DEPTH_LIMIT
}

/// Whether a formula is within the limits, in constant time.
#[tactic(auto, using(ev_wd::proofs::Small::limits))]
pub(crate) fn is_small(tree: &Tree) -> bool
    ensures { IsTrue result ↔ IsSmall tree.now }
{
    is_within(extent(tree))
}

/// `P & Q`, without `true`.
#[tactic(auto, using(ev_wd::proofs::Making::makers))]
pub(crate) fn make_and(alloc: Global, left: Tree, right: Tree) -> Result<Tree, NoMemory>
    ensures { IfOk result (λ t. t ≡ make_and left right) }
{
    if is_truth(&left) {
        return Ok(right);
    }
    if is_truth(&right) {
        return Ok(left);
    }
    make_joined(alloc, Connective::And, left, right)
}

/// `P => Q`, without `true`.
#[tactic(auto, using(ev_wd::proofs::Making::makers))]
pub(crate) fn make_imp(alloc: Global, left: Tree, right: Tree) -> Result<Tree, NoMemory>
    ensures { IfOk result (λ t. t ≡ make_imp left right) }
{
    if is_truth(&right) || is_truth(&left) {
        return Ok(right);
    }
    make_joined(alloc, Connective::Implies, left, right)
}

/// The term without a variable that does not occur in it.
fn lowered(alloc: Global, body: &Tree) -> Result<Tree, NoMemory>
    requires { has_var 0 body.now ≡ false }
    ensures { IfOk result (λ t. t ≡ lowered body.now) }
{
    let mut terms = Trees::new(alloc);
    terms.push(alloc, make_truth(alloc)?)?;
    if !substitute_fits(body, &terms) {
        return Err(NoMemory);
    }
    substitute(alloc, body, &terms)
}

/// `!x. P`, or P alone where x does not occur in it.
#[tactic(auto, using(ev_wd::proofs::Making::makers))]
fn make_all(alloc: Global, ty: &Ty, body: Tree) -> Result<Tree, NoMemory>
    ensures { IfOk result (λ t. t ≡ make_all ty.now body) }
{
    if has_var(&body, 0) {
        make_bound(alloc, Binder::ForAll, ty.try_copy(alloc)?, body)
    } else {
        lowered(alloc, &body)
    }
}

/// `!xs. P` without the variables that do not occur in P. A variable that does not occur costs a walk over P, where P has others.
#[tactic(auto, using(crate::proofs::Quantifying::quantified))]
pub(crate) fn make_alls(alloc: Global, types: &[Ty], body: Tree) -> Result<Tree, NoMemory>
    ensures { IfOk result (λ t. t ≡ make_alls types.now body) }
{
    let mut tree = body;
    let mut left = types.len();
    while left > 0 {
        left -= 1;
        tree = make_all(alloc, &types[left], tree)?;
    }
    Ok(tree)
}

/// An absent condition is `true`.
pub(crate) fn condition_or_truth(alloc: Global, condition: &Option<Tree>) -> Result<Tree, NoMemory>
    ensures { IfOk result (λ t. t ≡ condition_or_truth condition.now) }
{
    match condition {
        Some(condition) => condition.try_copy(alloc),
        None => make_truth(alloc),
    }
}

/// The predicates joined from the left, behind a first one.
#[tactic(auto, using(crate::proofs::Quantifying::folded))]
pub(crate) fn joined_after(
    alloc: Global,
    connective: Connective,
    first: Tree,
    rest: &[Tree],
) -> Result<Tree, NoMemory>
    ensures { IfOk result (λ t. t ≡ fold (joined connective) first rest.now) }
{
    let mut all = first;
    for tree in rest {
        all = make_joined(alloc, connective, all, tree.try_copy(alloc)?)?;
    }
    Ok(all)
}

/// `P <=> Q` between predicates, `s = t` between expressions of the type.
#[tactic(auto, using(ev_data::proofs::Lists::equations))]
pub(crate) fn make_equation(
    alloc: Global,
    ty: &Ty,
    left: Tree,
    right: Tree,
) -> Result<Tree, NoMemory>
    ensures { IfOk result (λ t. t ≡ equation ty.now left right) }
{
    match ty {
        Ty::Prop => make_joined(alloc, Connective::Iff, left, right),
        _ => make_related(alloc, Relation::Equal, ty.try_copy(alloc)?, left, right),
    }
}
