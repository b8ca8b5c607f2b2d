//! The well-definedness condition of a term. Source: Métayer and Voisin, The Event-B Mathematical Language.
ghost use Rattle.std.specs.Prelude.{◌≡◌, IfOk, Err};
ghost use Rattle.ev_terms.specs.Term.{terms};
ghost use Rattle.ev_wd.specs.Limits.{IsSmall};
ghost use Rattle.ev_wd.specs.Makers.{make_imp, make_or, joined};
ghost use Rattle.ev_wd.specs.WellDefined.{wd, wds, wd_node, wd_base, guarded, closed_over};
ghost use Rattle.ev_wd.specs.declared.faults.WdFault.TheVariants.{TooLarge};

use crate::drafts::Draft;
use crate::faults::WdFault;
use crate::limits::kept;
use crate::makers::{and_parts, make_all, make_and, make_imp, make_or};
use crate::parts::{only_of, parts_of, two_of};
use crate::rows::{Rule, rule_of};
use crate::symbols::symbol_parts;
use crate::type_nodes::type_at;
use ev_forms::{is_truth, node_parts};
use ev_terms::{Sym, Tree, Tys};
use ev_typing::Env;
use std::alloc::Global;

/// The well-definedness condition of a term, a predicate in the same context. `TooLarge` comes exactly where its size is above
/// `SIZE_LIMIT` or its depth above `DEPTH_LIMIT`, and before anything of that size is built. Linear in the term and the condition: what
/// quantifiers over idle variables lower is lowered once. Where a variable of the term is within 1,024 of 2^32, a condition may have no
/// room for it, which is answered as want of memory. Source: Métayer and Voisin.
pub fn well_defined(alloc: Global, env: &Env, tree: &Tree) -> Result<Tree, WdFault>
    ensures found { IfOk result (λ t. (t ≡ wd env.now tree.now) × IsSmall t) }
    ensures large { result ≡ Err TooLarge → ¬ IsSmall (wd env.now tree.now) }
{
    let draft = condition(alloc, env, tree)?;
    Ok(draft.tree(alloc)?)
}

#[cycle(condition)]
#[tactic(auto, using(crate::proofs::Walking::walk))]
fn condition(alloc: Global, env: &Env, tree: &Tree) -> Result<Draft, WdFault>
    ensures found { IfOk result (λ t. (t ≡ wd env.now tree.now) × IsSmall t) }
    ensures large { result ≡ Err TooLarge → ¬ IsSmall (wd env.now tree.now) }
{
    match node_parts(tree) {
        Some((sym, types, children)) => node_condition(alloc, env, sym, types, children),
        None => kept(Draft::truth(alloc)?),
    }
}

#[cycle(condition)]
#[tactic(auto, using(crate::proofs::Walking::walk))]
fn node_condition(
    alloc: Global,
    env: &Env,
    sym: &Sym,
    types: &Tys,
    children: &[Tree],
) -> Result<Draft, WdFault>
    ensures found { IfOk result (λ t. (t ≡ wd_node env.now sym.now types.now children.now (wds env.now (terms children.now))) × IsSmall t) }
    ensures large { result ≡ Err TooLarge → ¬ IsSmall (wd_node env.now sym.now types.now children.now (wds env.now (terms children.now))) }
{
    match sym {
        Sym::Base(row) => base_condition(alloc, env, rule_of(*row), types, children),
        Sym::User(name) => {
            let parts = symbol_parts(alloc, env, name, types, children)?;
            let so_far = all_conditions(alloc, env, children)?;
            and_parts(alloc, so_far, parts.as_slice())
        }
    }
}

#[cycle(condition)]
#[tactic(auto, using(crate::proofs::Walking::walk))]
fn base_condition(
    alloc: Global,
    env: &Env,
    rule: Rule,
    types: &Tys,
    children: &[Tree],
) -> Result<Draft, WdFault>
    ensures found { IfOk result (λ t. (t ≡ wd_base rule types.now children.now (wds env.now (terms children.now))) × IsSmall t) }
    ensures large { result ≡ Err TooLarge → ¬ IsSmall (wd_base rule types.now children.now (wds env.now (terms children.now))) }
{
    match rule {
        Rule::Both => both_condition(alloc, env, children),
        Rule::Either => either_condition(alloc, env, children),
        Rule::Bound => bound_condition(alloc, env, types, children),
        Rule::Children(demand) => {
            let parts = parts_of(alloc, demand, types, children)?;
            let so_far = all_conditions(alloc, env, children)?;
            and_parts(alloc, so_far, parts.as_slice())
        }
    }
}

/// The second child's condition where the first child holds.
#[cycle(condition)]
#[tactic(auto, using(crate::proofs::Walking::walk))]
fn both_condition(alloc: Global, env: &Env, children: &[Tree]) -> Result<Draft, WdFault>
    ensures found { IfOk result (λ t. (t ≡ guarded make_imp children.now (wds env.now (terms children.now))) × IsSmall t) }
    ensures large { result ≡ Err TooLarge → ¬ IsSmall (guarded make_imp children.now (wds env.now (terms children.now))) }
{
    let Some((left, right)) = two_of(children) else {
        return all_conditions(alloc, env, children);
    };
    let first = condition(alloc, env, left)?;
    let second = condition(alloc, env, right)?;
    let second = make_imp(alloc, left, second)?;
    make_and(alloc, first, second)
}

/// The second child's condition where the first child does not hold. It is not made where the first child is `true`.
#[cycle(condition)]
#[tactic(auto, using(crate::proofs::Walking::walk))]
fn either_condition(alloc: Global, env: &Env, children: &[Tree]) -> Result<Draft, WdFault>
    ensures found { IfOk result (λ t. (t ≡ guarded make_or children.now (wds env.now (terms children.now))) × IsSmall t) }
    ensures large { result ≡ Err TooLarge → ¬ IsSmall (guarded make_or children.now (wds env.now (terms children.now))) }
{
    let Some((left, right)) = two_of(children) else {
        return all_conditions(alloc, env, children);
    };
    if is_truth(left) {
        return kept(Draft::truth(alloc)?);
    }
    let first = condition(alloc, env, left)?;
    let second = condition(alloc, env, right)?;
    let second = make_or(alloc, left, second)?;
    make_and(alloc, first, second)
}

/// The child's condition for each value of the variable that is bound in it.
#[cycle(condition)]
#[tactic(auto, using(crate::proofs::Walking::walk))]
fn bound_condition(
    alloc: Global,
    env: &Env,
    types: &Tys,
    children: &[Tree],
) -> Result<Draft, WdFault>
    ensures found { IfOk result (λ t. (t ≡ closed_over types.now (wds env.now (terms children.now))) × IsSmall t) }
    ensures large { result ≡ Err TooLarge → ¬ IsSmall (closed_over types.now (wds env.now (terms children.now))) }
{
    let Some(child) = only_of(children) else {
        return all_conditions(alloc, env, children);
    };
    let body = condition(alloc, env, child)?;
    make_all(alloc, type_at(alloc, types, 0)?, body)
}

/// The conditions of all of the terms.
#[cycle(condition)]
#[tactic(auto, using(crate::proofs::Walking::walk))]
fn all_conditions(alloc: Global, env: &Env, trees: &[Tree]) -> Result<Draft, WdFault>
    ensures found { IfOk result (λ t. (t ≡ joined (wds env.now (terms trees.now))) × IsSmall t) }
    ensures large { result ≡ Err TooLarge → ¬ IsSmall (joined (wds env.now (terms trees.now))) }
{
    let mut all = kept(Draft::truth(alloc)?)?;
    for tree in trees {
        let one = condition(alloc, env, tree)?;
        all = make_and(alloc, all, one)?;
    }
    Ok(all)
}
