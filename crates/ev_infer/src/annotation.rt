//! The annotation of a bare term.
ghost use Rattle.std.specs.Prelude.{◌≡◌, [], map, option_map, IfOk, IfErr};
ghost use Rattle.ev_infer.specs.Equations.{same_pattern};
ghost use Rattle.ev_infer.specs.inner.Solving.{UseBelow};
ghost use Rattle.std.specs.Option.{option_copied};
ghost use Rattle.ev_infer.specs.Inference.{asked, bare_equations};
ghost use Rattle.ev_infer.specs.inner.Walks.{walk_of};
ghost use Rattle.ev_infer.specs.inner.Answering.{asked_walk, pairs_of, equations_told, OnFault, IsGiven, IsSolvedTable, OnSolveFault, IsFilled, OnFillFault};

use crate::bulks::is_within;
use crate::emission::emit;
use crate::faults::InferFault;
use crate::filling::{build, measure};
use crate::patterns::{is_result, meet, same_patterns, sort_of};
use crate::solving::Table;
use crate::sorts::{Sort, Walked};
use crate::unknowns::solve_all;
use ev_resolve::Bare;
use ev_terms::{Extent, NoMemory, Tree, Ty};
use ev_typing::Env;
use ev_unify::{Pat, PatPairs, UnifyFault, unify};
use std::alloc::Global;

/// The pairs of a term, and the first unknown that it does not use.
#[derive(Drop)]
pub struct Equations {
    pub pairs: PatPairs,
    pub next: u128,
}

/// The only annotation of a bare term where variables of these types stand, the outermost first, at the type that is asked, where one
/// is. The walk over the term copies no type, and the equations are solved in near linear time.
pub fn annotate(
    alloc: Global,
    env: &Env,
    types: &[Ty],
    bare: &Bare,
    expected: Option<&Ty>,
    limit: &Extent,
) -> Result<Tree, InferFault>
    ensures given { IfOk result (IsGiven (bare_equations env.now (map same_pattern types.now) (option_copied expected.entry) bare.now) limit.now) }
    ensures fault { IfErr result (OnFault (bare_equations env.now (map same_pattern types.now) (option_copied expected.entry) bare.now) limit.now) }
{
    let mut context = same_patterns(alloc, types)?;
    let Some(equations) = equations_of(alloc, env, &mut context, bare, expected)? else {
        return Err(InferFault::IllTyped)
    };
    let table = solve(alloc, &equations, limit)?;
    fill(alloc, env, bare, &table, limit)
}

/// The equations of a bare term, with the pair of the type that is asked.
#[tactic(auto, using(crate::proofs::AnswerSteps::equations))]
fn equations_of(
    alloc: Global,
    env: &Env,
    context: &mut Vec<Pat>,
    bare: &Bare,
    expected: Option<&Ty>,
) -> Result<Option<Equations>, NoMemory>
    ensures { IfOk result (λ o. option_map equations_told o ≡ option_map pairs_of (bare_equations env.now context.old.items (option_copied expected.entry) bare.now)) }
{
    let mut pairs = PatPairs::new(alloc);
    let Some(walked) = emit(alloc, env, bare, context, 0, &mut pairs)? else {
        return Ok(None)
    };
    match expected {
        None => Ok(Some(Equations {
            pairs,
            next: walked.next,
        })),
        Some(ty) => with_type(alloc, env, pairs, walked, ty),
    }
}

/// With one more pair, for the type that is asked.
#[tactic(auto, using(crate::proofs::AnswerSteps::equations))]
fn with_type(
    alloc: Global,
    env: &Env,
    mut pairs: PatPairs,
    walked: Walked,
    ty: &Ty,
) -> Result<Option<Equations>, NoMemory>
    ensures { IfOk result (λ o. option_map equations_told o ≡ asked_walk env.now ty.now pairs walked) }
{
    if !is_result(env, ty) {
        return Ok(None);
    }
    let asked = sort_of(alloc, &[], ty)?;
    if !meet(alloc, &mut pairs, &walked.sort, &asked)? {
        return Ok(None);
    }
    Ok(Some(Equations {
        pairs,
        next: walked.next,
    }))
}

/// The types of the unknowns. A table has no room for more of them than there are indices.
#[tactic(auto, using(crate::proofs::Below::solutions))]
fn solve(alloc: Global, equations: &Equations, limit: &Extent) -> Result<Table, InferFault>
    requires { UseBelow equations.now.next equations.now.pairs }
    ensures solved { IfOk result (IsSolvedTable equations.now.pairs limit.now equations.now.next) }
    ensures fault { IfErr result (OnSolveFault equations.now.pairs equations.now.next) }
{
    let solution = match unify(alloc, &equations.pairs) {
        Ok(solution) => solution,
        Err(UnifyFault::Clash) => return Err(InferFault::IllTyped),
        Err(UnifyFault::NoMemory) => return Err(InferFault::NoMemory),
    };
    let Ok(count) = usize::try_from(equations.next) else {
        return Err(InferFault::NoMemory)
    };
    match solve_all(alloc, solution.as_slice(), count, limit)? {
        Some(table) => Ok(table),
        None => Err(InferFault::Ambiguous),
    }
}

/// The term, unless it is too large.
fn fill(
    alloc: Global,
    env: &Env,
    bare: &Bare,
    table: &Table,
    limit: &Extent,
) -> Result<Tree, InferFault>
    ensures filled { IfOk result (IsFilled env.now bare.now table.now limit.now) }
    ensures fault { IfErr result (OnFillFault env.now bare.now table.now limit.now) }
{
    let measured = measure(alloc, env, bare, 0, table.bulks.as_slice())?;
    if !is_within(measured.bulk, limit) {
        return Err(InferFault::TooLarge);
    }
    let made = build(alloc, env, bare, 0, table.types.as_slice())?;
    Ok(made.tree)
}
