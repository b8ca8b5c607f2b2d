//! What a base symbol asks beside the conditions of its children.
ghost use Rattle.std.specs.Prelude.{◌≡◌, ◌≢◌, [], ◌∷◌, IfOk, IfSome, IfNone, Err};
ghost use Rattle.ev_terms.specs.Term.{Term};
ghost use Rattle.ev_terms.specs.declared.types.Ty.{Int};
ghost use Rattle.ev_wd.specs.Limits.{IsSmall};
ghost use Rattle.ev_wd.specs.Makers.{joined_after};
ghost use Rattle.ev_wd.specs.Demands.{is_not_empty, is_bounded, parts_of, parts_of_one, parts_of_two};
ghost use Rattle.ev_wd.specs.declared.faults.WdFault.TheVariants.{TooLarge};

use crate::faults::WdFault;
use crate::nodes::{
    is_bounded, is_in_domain, is_natural, is_not_empty, is_not_zero, is_partial_function,
    is_positive, make_at_most, make_finite,
};
use crate::rows::Demand;
use crate::type_nodes::type_at;
use ev_terms::{NoMemory, Tree, Trees, Ty, Tys, make_var};
use ev_typing::set_of;
use std::alloc::Global;

/// The only child of a node with one.
pub(crate) fn only_of(children: &[Tree]) -> Option<&Tree>
    ensures found { IfSome result (λ t. children.now ≡ t.now ∷ []) }
    ensures none { IfNone result ((t : Term) → children.now ≢ t ∷ []) }
{
    match children {
        [only] => Some(only),
        _ => None,
    }
}

/// The two children of a node with two.
pub(crate) fn two_of(children: &[Tree]) -> Option<(&Tree, &Tree)>
    ensures found { IfSome result (λ p. children.now ≡ p.0.now ∷ p.1.now ∷ []) }
    ensures none { IfNone result ((P Q : Term) → children.now ≢ P ∷ Q ∷ []) }
{
    match children {
        [left, right] => Some((left, right)),
        _ => None,
    }
}

/// One part.
pub(crate) fn one_part(alloc: Global, part: Tree) -> Result<Trees, NoMemory>
    ensures { IfOk result (λ ts. ts ≡ part ∷ []) }
{
    let mut parts = Trees::new(alloc);
    parts.push(alloc, part)?;
    Ok(parts)
}

/// Two parts.
fn two_parts(alloc: Global, first: Tree, second: Tree) -> Result<Trees, NoMemory>
    ensures { IfOk result (λ ts. ts ≡ first ∷ second ∷ []) }
{
    let mut parts = Trees::new(alloc);
    parts.push(alloc, first)?;
    parts.push(alloc, second)?;
    Ok(parts)
}

/// What the symbol asks of its children. `TooLarge` means that no condition with these parts is within the limits.
#[tactic(auto, using(crate::proofs::Asking::listed))]
pub(crate) fn parts_of(
    alloc: Global,
    demand: Demand,
    types: &Tys,
    children: &[Tree],
) -> Result<Trees, WdFault>
    ensures found { IfOk result (λ ts. ts ≡ parts_of demand types.now children.now) }
    ensures large { result ≡ Err TooLarge → (P : Term) → ¬ IsSmall (joined_after P (parts_of demand types.now children.now)) }
{
    if let Some(set) = only_of(children) {
        return parts_of_one(alloc, demand, types, set);
    }
    match two_of(children) {
        Some((left, right)) => Ok(parts_of_two(alloc, demand, types, left, right)?),
        None => Ok(Trees::new(alloc)),
    }
}

fn parts_of_one(alloc: Global, demand: Demand, types: &Tys, set: &Tree) -> Result<Trees, WdFault>
    ensures found { IfOk result (λ ts. ts ≡ parts_of_one demand types.now set.now) }
    ensures large { result ≡ Err TooLarge → (P : Term) → ¬ IsSmall (joined_after P (parts_of_one demand types.now set.now)) }
{
    match demand {
        Demand::Cardinality => {
            let ty = type_at(alloc, types, 0)?;
            Ok(one_part(alloc, make_finite(alloc, ty, set)?)?)
        }
        Demand::Intersection => {
            let ty = set_of(alloc, type_at(alloc, types, 0)?)?;
            Ok(one_part(alloc, is_not_empty(alloc, ty, set)?)?)
        }
        Demand::Minimum => {
            let order = make_at_most(alloc, make_var(alloc, 1)?, make_var(alloc, 0)?)?;
            extreme_parts(alloc, order, set)
        }
        Demand::Maximum => {
            let order = make_at_most(alloc, make_var(alloc, 0)?, make_var(alloc, 1)?)?;
            extreme_parts(alloc, order, set)
        }
        Demand::Nothing
        | Demand::Application
        | Demand::Quotient
        | Demand::Remainder
        | Demand::Power => Ok(Trees::new(alloc)),
    }
}

/// That a set of numbers is not empty and has a bound.
#[tactic(auto, using(crate::proofs::Asking::extremes))]
fn extreme_parts(alloc: Global, order: Tree, set: &Tree) -> Result<Trees, WdFault>
    ensures found { IfOk result (λ ts. ts ≡ is_not_empty Int set.now ∷ is_bounded order set.now ∷ []) }
    ensures large { result ≡ Err TooLarge → (P : Term) → ¬ IsSmall (joined_after P (is_not_empty Int set.now ∷ is_bounded order set.now ∷ [])) }
{
    let bounded = is_bounded(alloc, order, set)?;
    let not_empty = is_not_empty(alloc, Ty::Int, set)?;
    Ok(two_parts(alloc, not_empty, bounded)?)
}

fn parts_of_two(
    alloc: Global,
    demand: Demand,
    types: &Tys,
    left: &Tree,
    right: &Tree,
) -> Result<Trees, NoMemory>
    ensures { IfOk result (λ ts. ts ≡ parts_of_two demand types.now left.now right.now) }
{
    match demand {
        Demand::Application => {
            let within = is_in_domain(alloc, types, left, right)?;
            two_parts(alloc, within, is_partial_function(alloc, types, left)?)
        }
        Demand::Quotient => one_part(alloc, is_not_zero(alloc, right)?),
        Demand::Remainder => {
            let natural = is_natural(alloc, left)?;
            two_parts(alloc, natural, is_positive(alloc, right)?)
        }
        Demand::Power => {
            let natural = is_natural(alloc, left)?;
            two_parts(alloc, natural, is_natural(alloc, right)?)
        }
        Demand::Nothing
        | Demand::Cardinality
        | Demand::Intersection
        | Demand::Minimum
        | Demand::Maximum => Ok(Trees::new(alloc)),
    }
}
