//! Formulas and terms of steps, read in the context of a goal.
ghost use Rattle.std.specs.Prelude.{◌≡◌, ◌++◌, Some, codes, decimal, IfOk};
ghost use Rattle.ev_infer.specs.Answers.{IsAnnotated};
ghost use Rattle.ev_terms.specs.Types.{type_list};
ghost use Rattle.ev_terms.specs.declared.types.Ty.{Prop};
ghost use Rattle.ev_replay.specs.Reading.{Reads, ReadsFormula, ReadsTerm, context_vars, formula_limit};
ghost use Rattle.ev_replay.specs.inner.Finding.{Only};

use crate::scopes::CiteScope;
use ev_infer::{InferFault, infer};
use ev_syntax::Raw;
use ev_terms::limits::{DEPTH_LIMIT, SIZE_LIMIT};
use ev_terms::{Bytes, Extent, Name, NoMemory, Tree, TryCopy, Ty, Tys};
use ev_typing::{Sequent, Var, Vars};
use std::alloc::Global;

/// The name of a variable of a context, by its number from the outermost one on.
fn variable_name(alloc: Global, i: usize) -> Result<Name, NoMemory>
    ensures { IfOk result (λ n. n ≡ codes "v" ++ decimal i) }
{
    let mut bytes = Vec::new(alloc);
    bytes.extend_from_slice(b"v")?;
    let digits = (i as u128).to_string(alloc)?;
    bytes.extend_from_slice(digits.as_bytes())?;
    Name::from_bytes(alloc, Bytes::from_vec(bytes))
}

/// The variables of a context, by their names.
#[tactic(auto, using(crate::proofs::Readings::vars_next, crate::proofs::Readings::vars_whole))]
fn context_vars(alloc: Global, context: &[Ty]) -> Result<Vars, NoMemory>
    ensures { IfOk result (λ vs. vs ≡ context_vars 0 context.now) }
{
    let mut vars = Vars::new(alloc);
    for i in 0..context.len() {
        let name = variable_name(alloc, i)?;
        let ty = context[i].try_copy(alloc)?;
        vars.push(alloc, Var { name, ty })?;
    }
    Ok(vars)
}

/// The only annotation at the type where these variables stand, where one is and is within the limits of formulas. Linear in the raw
/// tree, and near linear in the types.
#[tactic(auto, using(crate::proofs::Readings::faults))]
fn read_among(
    alloc: Global,
    scope: &CiteScope,
    vars: &Vars,
    ty: &Ty,
    raw: &Raw,
) -> Result<Option<Tree>, NoMemory>
    ensures { IfOk result (Only (IsAnnotated scope.now.env scope.now.params vars.now raw.now (Some ty.now) formula_limit)) }
{
    let limits = Extent {
        size: SIZE_LIMIT,
        depth: DEPTH_LIMIT,
    };
    match infer(
        alloc,
        scope.env(),
        scope.params(),
        vars,
        raw,
        Some(ty),
        &limits,
    ) {
        Ok(tree) => Ok(Some(tree)),
        Err(InferFault::NoMemory) => Err(NoMemory),
        Err(InferFault::Unknown) => Ok(None),
        Err(InferFault::Taken) => Ok(None),
        Err(InferFault::IllTyped) => Ok(None),
        Err(InferFault::Ambiguous) => Ok(None),
        Err(InferFault::TooLarge) => Ok(None),
    }
}

/// The same in a context, whose variables have names by their numbers.
pub(crate) fn read_at(
    alloc: Global,
    scope: &CiteScope,
    context: &Tys,
    ty: &Ty,
    raw: &Raw,
) -> Result<Option<Tree>, NoMemory>
    ensures { IfOk result (Only (Reads scope.now.env scope.now.params (type_list context.now) ty.now raw.now)) }
{
    let types = context.to_vec(alloc)?;
    let vars = context_vars(alloc, types.as_slice())?;
    read_among(alloc, scope, &vars, ty, raw)
}

/// A formula in the context of a goal.
pub(crate) fn read_formula(
    alloc: Global,
    scope: &CiteScope,
    goal: &Sequent,
    raw: &Raw,
) -> Result<Option<Tree>, NoMemory>
    ensures { IfOk result (Only (ReadsFormula scope.now.env scope.now.params goal.now raw.now)) }
{
    let prop = Ty::Prop;
    read_at(alloc, scope, &goal.context, &prop, raw)
}

/// A term of the type in the context of a goal.
pub(crate) fn read_term(
    alloc: Global,
    scope: &CiteScope,
    goal: &Sequent,
    ty: &Ty,
    raw: &Raw,
) -> Result<Option<Tree>, NoMemory>
    ensures { IfOk result (Only (ReadsTerm scope.now.env scope.now.params goal.now ty.now raw.now)) }
{
    read_at(alloc, scope, &goal.context, ty, raw)
}
