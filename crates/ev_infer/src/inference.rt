//! Inference.
ghost use Rattle.std.specs.Prelude.{◌≡◌, ◌≢◌, ◌↔◌, false, Err, IfOk};
ghost use Rattle.std.specs.Option.{option_copied};
ghost use Rattle.ev_resolve.specs.TakenNames.{takes_name};
ghost use Rattle.ev_infer.specs.declared.faults.InferFault.TheVariants as fault;
ghost use Rattle.ev_infer.specs.Answers.{IsUnknown, IsTaken, IsIllTyped, IsAmbiguous, IsTooLarge, IsAnnotated, IsFound, IsFoundOf, IsAnswer, variables};
ghost use Rattle.ev_infer.specs.inner.Variables.{IsVariableAnswer};
ghost use Rattle.ev_infer.specs.Annotates.{variables_context};

use crate::alone::variable_answer;
use crate::annotation::annotate;
use crate::contexts::{context_of, marks_of, names_of, scope_of, types_of};
use crate::faults::InferFault;
use crate::marked::uses_marked;
use ev_resolve::{Bare, FormulaNames, has_taken_binder, has_unknown_name, resolve};
use ev_syntax::Raw;
use ev_terms::{Extent, Names, Tree, Ty};
use ev_typing::{Env, Var, Vars};
use std::alloc::Global;

/// The only annotation of a raw tree where these variables stand, the outermost first, at the type that is asked, where one is.
/// Linear in the raw tree, and near linear in the types of the annotation.
pub fn infer(
    alloc: Global,
    env: &Env,
    params: &Names,
    vars: &Vars,
    raw: &Raw,
    expected: Option<&Ty>,
    limit: &Extent,
) -> Result<Tree, InferFault>
    ensures unknown { result ≢ Err fault.NoMemory → ((result ≡ Err fault.Unknown) ↔ IsUnknown env.now params.now vars.now raw.now) }
    ensures taken { result ≢ Err fault.NoMemory → ((result ≡ Err fault.Taken) ↔ IsTaken env.now params.now vars.now raw.now) }
    ensures ill_typed { result ≢ Err fault.NoMemory → ((result ≡ Err fault.IllTyped) ↔ IsIllTyped env.now params.now vars.now raw.now (option_copied expected.entry)) }
    ensures ambiguous { result ≢ Err fault.NoMemory → ((result ≡ Err fault.Ambiguous) ↔ IsAmbiguous env.now params.now vars.now raw.now (option_copied expected.entry)) }
    ensures too_large { result ≢ Err fault.NoMemory → ((result ≡ Err fault.TooLarge) ↔ IsTooLarge env.now params.now vars.now raw.now (option_copied expected.entry) limit.now) }
    ensures ok { IfOk result (IsAnnotated env.now params.now vars.now raw.now (option_copied expected.entry) limit.now) }
{
    answer(alloc, env, params, vars.as_slice(), raw, expected, limit)
}

/// The first answer that holds.
#[tactic(auto, using(crate::proofs::Answering::answers))]
fn answer(
    alloc: Global,
    env: &Env,
    params: &Names,
    vars: &[Var],
    raw: &Raw,
    expected: Option<&Ty>,
    limit: &Extent,
) -> Result<Tree, InferFault>
    ensures { IsAnswer env.now params.now vars.now raw.now (option_copied expected.entry) limit.now result }
{
    let known = FormulaNames::new(alloc, env, params)?;
    let names = names_of(alloc, vars)?;
    if has_unknown_name(alloc, &known, names.as_slice(), raw)? {
        return Err(InferFault::Unknown);
    }
    if has_taken_binder(&known, raw) {
        return Err(InferFault::Taken);
    }
    annotation(alloc, &known, vars, raw, expected, limit)
}

/// The same where no name is unknown or taken.
fn annotation(
    alloc: Global,
    known: &FormulaNames<'_>,
    vars: &[Var],
    raw: &Raw,
    expected: Option<&Ty>,
    limit: &Extent,
) -> Result<Tree, InferFault>
    requires free { takes_name known.now.1 known.now.0 raw.now ≡ false }
    ensures { IsFound known.now.1 known.now.0 vars.now raw.now (option_copied expected.entry) limit.now result }
{
    let env = known.env();
    let scope = scope_of(alloc, vars)?;
    let Some(bare) = resolve(alloc, known, raw, scope)? else {
        return Err(InferFault::IllTyped)
    };
    of_bare(alloc, env, vars, raw, &bare, expected, limit)
}

/// The same of the bare term. A variable whose type is none of the environment is an annotation only by itself.
fn of_bare(
    alloc: Global,
    env: &Env,
    vars: &[Var],
    raw: &Raw,
    bare: &Bare,
    expected: Option<&Ty>,
    limit: &Extent,
) -> Result<Tree, InferFault>
    ensures { IsFoundOf env.now vars.now raw.now bare.now (option_copied expected.entry) limit.now result }
{
    let _opened = env.count();
    let mut marks = marks_of(alloc, env, vars)?;
    if uses_marked(bare, &mut marks)? {
        return alone(alloc, vars, raw, bare, expected, limit);
    }
    let context = context_of(alloc, env, vars)?;
    annotate(alloc, env, context.as_slice(), bare, expected, limit)
}

/// The answer where only a variable that stands alone is an annotation.
fn alone(
    alloc: Global,
    vars: &[Var],
    raw: &Raw,
    bare: &Bare,
    expected: Option<&Ty>,
    limit: &Extent,
) -> Result<Tree, InferFault>
    ensures { IsVariableAnswer raw.now bare.now (variables_context (variables vars.now)) (option_copied expected.entry) limit.now result }
{
    let types = types_of(alloc, vars)?;
    variable_answer(alloc, types.as_slice(), raw, bare, expected, limit)
}
