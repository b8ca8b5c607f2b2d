//! Types as patterns, and the unknowns of a node.
ghost use Rattle.std.specs.Prelude.{◌≡◌, ◌+◌, ◌==◌, ◌&&◌, Some, None, map, option_map, IfOk, OnOk, ◌++◌};
ghost use Rattle.std.specs.Option.{option_copied};
ghost use Rattle.ev_terms.specs.declared.types.Ty.{Prop};
ghost use Rattle.ev_unify.specs.Patterns.{pat_at};
ghost use Rattle.ev_typing.specs.Proper.{is_result};
ghost use Rattle.ev_infer.specs.Equations.{pattern_of, patterns_of, same_pattern, sort_of, meet, unknowns, node_types};
ghost use Rattle.ev_infer.specs.inner.Walks.{pats, types_told, when};

use crate::sorts::{NodePats, Sort};
use ev_terms::{NoMemory, Shared, TryCopy, Ty, Tys};
use ev_typing::{Env, is_proper};
use ev_unify::{Pat, PatPair, PatPairs, Pats};
use std::alloc::Global;

/// The type as a pattern, these patterns put in for its parameters. What is put in is shared.
#[cycle(pattern)]
#[tactic(auto, using(crate::proofs::PatternSteps::walk))]
pub(crate) fn pattern_of(alloc: Global, ty: &Ty, types: &[Pat]) -> Result<Pat, NoMemory>
    ensures { IfOk result (λ p. p ≡ pattern_of (pats types.now) ty.now) }
{
    match ty {
        Ty::Int => Ok(Pat::Int),
        Ty::Bool => Ok(Pat::Bool),
        Ty::Prop => Ok(Pat::Int),
        Ty::Param(i) => param_of(alloc, types, *i),
        Ty::Pow(a) => Ok(Pat::Pow(Shared::new(alloc, pattern_of(alloc, a.get(), types)?)?)),
        Ty::Prod(a, b) => {
            let a = Shared::new(alloc, pattern_of(alloc, a.get(), types)?)?;
            let b = Shared::new(alloc, pattern_of(alloc, b.get(), types)?)?;
            Ok(Pat::Prod(a, b))
        }
        Ty::Data(name, list) => {
            let name = name.try_copy(alloc)?;
            let list = patterns_of(alloc, list, types)?;
            Ok(Pat::Data(name, list))
        }
    }
}

#[cycle(pattern)]
#[tactic(auto, using(crate::proofs::PatternSteps::walk))]
fn patterns_of(alloc: Global, list: &Tys, types: &[Pat]) -> Result<Pats, NoMemory>
    ensures { IfOk result (λ ps. ps ≡ patterns_of (pats types.now) list.now) }
{
    let mut patterns = Vec::new(alloc);
    let mut left = list;
    while let Tys::More(a, rest) = left {
        patterns.push(pattern_of(alloc, a.get(), types)?)?;
        left = rest.get();
    }
    listed(alloc, patterns)
}

/// The patterns as a list, made from its end.
#[tactic(auto, using(crate::proofs::PatternSteps::lists))]
fn listed(alloc: Global, mut patterns: Vec<Pat>) -> Result<Pats, NoMemory>
    ensures { IfOk result (λ ps. ps ≡ pats patterns.items) }
{
    let mut list = Pats::Empty;
    while let Some(last) = patterns.pop() {
        let rest = Shared::new(alloc, list)?;
        list = Pats::More(Shared::new(alloc, last)?, rest);
    }
    Ok(list)
}

#[tactic(auto, using(crate::proofs::PatternSteps::params))]
fn param_of(alloc: Global, types: &[Pat], i: u32) -> Result<Pat, NoMemory>
    ensures { IfOk result (λ p. p ≡ pat_at (pats types.now) i) }
{
    match types.get(i as usize) {
        Some(pat) => pat.try_copy(alloc),
        None => Ok(Pat::Param(i)),
    }
}

/// The type as it stands, as a pattern. Linear in the type.
pub(crate) fn same_pattern(alloc: Global, ty: &Ty) -> Result<Pat, NoMemory>
    ensures { IfOk result (λ p. p ≡ same_pattern ty.now) }
{
    pattern_of(alloc, ty, &[])
}

/// Types as they stand, as patterns.
#[tactic(auto, using(crate::proofs::PatternSteps::lists))]
pub(crate) fn same_patterns(alloc: Global, types: &[Ty]) -> Result<Vec<Pat>, NoMemory>
    ensures { IfOk result (λ ps. ps.items ≡ map same_pattern types.now) }
{
    let mut patterns = Vec::new(alloc);
    for ty in types {
        patterns.push(same_pattern(alloc, ty)?)?;
    }
    Ok(patterns)
}

/// What a child or a node of this type is, these patterns put in for the parameters.
#[tactic(auto, using(crate::proofs::PatternSteps::sorts))]
pub(crate) fn sort_of(alloc: Global, types: &[Pat], ty: &Ty) -> Result<Sort, NoMemory>
    ensures { IfOk result (λ s. s ≡ sort_of (pats types.now) ty.now) }
{
    match ty {
        Ty::Prop => Ok(Sort::Predicate),
        _ => Ok(Sort::Expression(pattern_of(alloc, ty, types)?)),
    }
}

/// Whether a type is proper, or `Prop`.
#[tactic(auto, using(crate::proofs::PatternSteps::results))]
pub(crate) fn is_result(env: &Env, ty: &Ty) -> bool
    ensures { result ≡ is_result env.now ty.now }
{
    match ty {
        Ty::Prop => true,
        _ => is_proper(env, ty),
    }
}

/// Adds the pair that makes the two sorts one. False where one is of predicates and the other of expressions.
pub(crate) fn meet(
    alloc: Global,
    pairs: &mut PatPairs,
    left: &Sort,
    right: &Sort,
) -> Result<bool, NoMemory>
    ensures { IfOk result (λ b. option_map (λ qs. pairs.old ++ qs) (meet left.now right.now) ≡ when b pairs.new) }
{
    match (left, right) {
        (Sort::Predicate, Sort::Predicate) => Ok(true),
        (Sort::Expression(p), Sort::Expression(q)) => {
            let left = p.try_copy(alloc)?;
            let right = q.try_copy(alloc)?;
            pairs.push(alloc, PatPair { left, right })?;
            Ok(true)
        }
        _ => Ok(false),
    }
}

/// So many unknowns, from one on. Unknowns past the numbers fit no table.
#[tactic(auto, using(crate::proofs::PatternSteps::counting))]
fn new_unknowns(alloc: Global, next: u128, count: u32) -> Result<NodePats, NoMemory>
    ensures { IfOk result (λ n. types_told n ≡ record { types = unknowns next count; next = next + count }) }
{
    let Some(end) = next.checked_add(u128::from(count)) else {
        return Err(NoMemory)
    };
    let mut types = Vec::new(alloc);
    let mut unknown = next;
    while unknown < end {
        types.push(Pat::Unknown(unknown))?;
        unknown += 1;
    }
    Ok(NodePats { types, next: end })
}

/// The type arguments of a node: new unknowns, or the written type, where it is a type of the environment.
pub(crate) fn node_types(
    alloc: Global,
    env: &Env,
    written: &Option<Ty>,
    params: u32,
    next: u128,
) -> Result<Option<NodePats>, NoMemory>
    ensures { IfOk result (λ o. option_map types_told o ≡ node_types env.now written.now params next) }
{
    match written {
        None => Ok(Some(new_unknowns(alloc, next, params)?)),
        Some(ty) => written_type(alloc, env, ty, params, next),
    }
}

#[tactic(auto, using(crate::proofs::PatternSteps::written))]
fn written_type(
    alloc: Global,
    env: &Env,
    ty: &Ty,
    params: u32,
    next: u128,
) -> Result<Option<NodePats>, NoMemory>
    ensures { IfOk result (λ o. option_map types_told o ≡ node_types env.now (Some ty.now) params next) }
{
    if params != 1 || !is_proper(env, ty) {
        return Ok(None);
    }
    let mut types = Vec::new(alloc);
    types.push(same_pattern(alloc, ty)?)?;
    Ok(Some(NodePats { types, next }))
}
