//! Names and numbers of an element that are not in scope.
ghost use Rattle.std.specs.Prelude.{◌≡◌, ◌++◌, ◌∷◌, [], reverse, length, IfOk};
ghost use Rattle.std.specs.List.{list_any};
ghost use Rattle.ev_resolve.specs.UsedNames.{is_name_among};
ghost use Rattle.ev_resolve.specs.inner.Unknown.{is_unknown};
ghost use Rattle.ev_elab.specs.Parts.{arg_names};
ghost use Rattle.ev_elab.specs.Unknown.{element_unknown};
ghost use Rattle.ev_elab.specs.inner.Tests.{type_fails, arg_fails, con_fails, result_fails, head_fails, formula_fails, optional_fails, branch_fails, case_fails, con_unknown, by_unknown, body_fails, operator_fails, constant_fails, data_fails, rewrite_fails, inference_fails, element_fails};

use crate::bound::{arg_names, backwards, case_names};
use crate::numbers::{formula_passes, type_passes};
use ev_resolve::{FormulaNames, has_unknown_name, has_unknown_type};
use ev_syntax::{Raw, RawType};
use ev_terms::{Name, Names, NoMemory, TryCopy};
use ev_theory_text::{
    ElementForm, RawArg, RawBody, RawBranch, RawCase, RawCon, RawHead, RawResult,
};
use ev_typing::Env;
use std::alloc::Global;

/// Whether a written type uses a name that is no formula name, or a number that none of so many type parameters has.
fn type_fails(names: &FormulaNames<'_>, count: usize, ty: &RawType) -> bool
    ensures { result ≡ type_fails names.now.1 names.now.0 count ty.now }
{
    has_unknown_type(names, ty) || type_passes(count, ty)
}

#[tactic(auto, using(crate::proofs::UnknownLaws::walk))]
fn any_arg_fails(names: &FormulaNames<'_>, count: usize, args: &[RawArg]) -> bool
    ensures { result ≡ list_any (arg_fails names.now.1 names.now.0 count) args.now }
{
    for arg in args {
        if type_fails(names, count, &arg.written) {
            return true;
        }
    }
    false
}

#[tactic(auto, using(crate::proofs::UnknownLaws::walk))]
fn any_con_fails(names: &FormulaNames<'_>, count: usize, cons: &[RawCon]) -> bool
    ensures { result ≡ list_any (con_fails names.now.1 names.now.0 count) cons.now }
{
    for con in cons {
        if any_arg_fails(names, count, con.args.as_slice()) {
            return true;
        }
    }
    false
}

fn result_fails(names: &FormulaNames<'_>, count: usize, gives: &RawResult) -> bool
    ensures { result ≡ result_fails names.now.1 names.now.0 count gives.now }
{
    match gives {
        RawResult::Predicate => false,
        RawResult::Typed(ty) => type_fails(names, count, ty),
    }
}

/// The head of an operator or a constant.
fn head_fails(names: &FormulaNames<'_>, count: usize, head: &RawHead) -> bool
    ensures { result ≡ head_fails names.now.1 names.now.0 count head.now }
{
    any_arg_fails(names, count, head.args.as_slice()) || result_fails(names, count, &head.gives)
}

/// A formula under bound names, the innermost last.
fn formula_fails(
    alloc: Global,
    names: &FormulaNames<'_>,
    count: usize,
    bound: &[Name],
    raw: &Raw,
) -> Result<bool, NoMemory>
    ensures { IfOk result (λ b. b ≡ formula_fails names.now.1 names.now.0 count (reverse bound.now) raw.now) }
{
    if has_unknown_name(alloc, names, bound, raw)? {
        return Ok(true);
    }
    Ok(formula_passes(count, raw))
}

fn optional_fails(
    alloc: Global,
    names: &FormulaNames<'_>,
    count: usize,
    bound: &[Name],
    raw: &Option<Raw>,
) -> Result<bool, NoMemory>
    ensures { IfOk result (λ b. b ≡ optional_fails names.now.1 names.now.0 count (reverse bound.now) raw.now) }
{
    match raw {
        None => Ok(false),
        Some(raw) => formula_fails(alloc, names, count, bound, raw),
    }
}

#[tactic(auto, using(crate::proofs::UnknownLaws::walk))]
fn any_formula_fails(
    alloc: Global,
    names: &FormulaNames<'_>,
    count: usize,
    bound: &[Name],
    raws: &[Raw],
) -> Result<bool, NoMemory>
    ensures { IfOk result (λ b. b ≡ list_any (formula_fails names.now.1 names.now.0 count (reverse bound.now)) raws.now) }
{
    for raw in raws {
        if formula_fails(alloc, names, count, bound, raw)? {
            return Ok(true);
        }
    }
    Ok(false)
}

fn branch_fails(
    alloc: Global,
    names: &FormulaNames<'_>,
    count: usize,
    bound: &[Name],
    branch: &RawBranch,
) -> Result<bool, NoMemory>
    ensures { IfOk result (λ b. b ≡ branch_fails names.now.1 names.now.0 count (reverse bound.now) branch.now) }
{
    if optional_fails(alloc, names, count, bound, &branch.condition)? {
        return Ok(true);
    }
    formula_fails(alloc, names, count, bound, &branch.right)
}

#[tactic(auto, using(crate::proofs::UnknownLaws::walk))]
fn any_branch_fails(
    alloc: Global,
    names: &FormulaNames<'_>,
    count: usize,
    bound: &[Name],
    branches: &[RawBranch],
) -> Result<bool, NoMemory>
    ensures { IfOk result (λ b. b ≡ list_any (branch_fails names.now.1 names.now.0 count (reverse bound.now)) branches.now) }
{
    for branch in branches {
        if branch_fails(alloc, names, count, bound, branch)? {
            return Ok(true);
        }
    }
    Ok(false)
}

/// A case under the arguments, where the operator's own name is a formula name.
fn case_fails(
    alloc: Global,
    names: &FormulaNames<'_>,
    count: usize,
    by: &Name,
    args: &[Name],
    case: &RawCase,
) -> Result<bool, NoMemory>
    ensures { IfOk result (λ b. b ≡ case_fails names.now.1 names.now.0 count args.now by.now case.now) }
{
    let bound = case_names(alloc, by, case.vars.as_slice(), args)?;
    let bound = backwards(alloc, bound.as_slice())?;
    formula_fails(alloc, names, count, bound.as_slice(), &case.body)
}

#[tactic(auto, using(crate::proofs::UnknownLaws::walk))]
fn any_case_fails(
    alloc: Global,
    names: &FormulaNames<'_>,
    count: usize,
    by: &Name,
    args: &[Name],
    cases: &[RawCase],
) -> Result<bool, NoMemory>
    ensures { IfOk result (λ b. b ≡ list_any (case_fails names.now.1 names.now.0 count args.now by.now) cases.now) }
{
    for case in cases {
        if case_fails(alloc, names, count, by, args, case)? {
            return Ok(true);
        }
    }
    Ok(false)
}

/// Whether a case names a constructor by no formula name.
#[tactic(auto, using(crate::proofs::UnknownLaws::walk))]
fn any_con_unknown(names: &FormulaNames<'_>, cases: &[RawCase]) -> bool
    ensures { result ≡ list_any (con_unknown names.now.1 names.now.0) cases.now }
{
    for case in cases {
        if !names.has(&case.con) {
            return true;
        }
    }
    false
}

#[tactic(auto, using(crate::proofs::UnknownLaws::walk))]
fn any_unknown(names: &FormulaNames<'_>, used: &[Name]) -> bool
    ensures { result ≡ list_any (is_unknown names.now.1 names.now.0) used.now }
{
    for name in used {
        if !names.has(name) {
            return true;
        }
    }
    false
}

#[tactic(auto, using(crate::proofs::UnknownLaws::walk))]
fn is_among(names: &[Name], name: &Name) -> bool
    ensures { result ≡ is_name_among names.now name.now }
{
    for other in names {
        if *name == *other {
            return true;
        }
    }
    false
}

/// Whether what stands behind BY is neither an argument nor a formula name.
fn by_unknown(names: &FormulaNames<'_>, args: &[Name], by: &Name) -> bool
    ensures { result ≡ by_unknown names.now.1 names.now.0 args.now by.now }
{
    !is_among(args, by) && !names.has(by)
}

/// The type parameters, and one more name.
pub(crate) fn with_name(alloc: Global, params: &Names, name: &Name) -> Result<Names, NoMemory>
    ensures { IfOk result (λ names. names ≡ params.now ++ name.now ∷ []) }
{
    let mut names = params.try_copy(alloc)?;
    names.push(alloc, name.try_copy(alloc)?)?;
    Ok(names)
}

/// The cases of an operator.
fn cases_fail(
    alloc: Global,
    env: &Env,
    params: &Names,
    own: &Name,
    by: &Name,
    args: &[Name],
    cases: &[RawCase],
) -> Result<bool, NoMemory>
    ensures { IfOk result (λ b. b ≡ list_any (case_fails env.now (params.now ++ own.now ∷ []) (length params.now) args.now by.now) cases.now) }
{
    let more = with_name(alloc, params, own)?;
    let names = FormulaNames::new(alloc, env, &more)?;
    any_case_fails(alloc, &names, params.len(), by, args, cases)
}

fn body_fails(
    alloc: Global,
    names: &FormulaNames<'_>,
    params: &Names,
    head: &RawHead,
    args: &[Name],
    body: &RawBody,
) -> Result<bool, NoMemory>
    requires names { names.now.0 ≡ params.now }
    requires args { args.now ≡ arg_names head.now.args }
    ensures { IfOk result (λ b. b ≡ body_fails names.now.1 params.now head.now body.now) }
{
    match body {
        RawBody::Direct(raw) => {
            let bound = backwards(alloc, args)?;
            formula_fails(alloc, names, params.len(), bound.as_slice(), raw)
        }
        RawBody::Recursive(by, cases) => {
            let cases = cases.as_slice();
            if cases_fail(alloc, names.env(), params, &head.name, by, args, cases)? {
                return Ok(true);
            }
            Ok(by_unknown(names, args, by) || any_con_unknown(names, cases))
        }
    }
}

fn operator_fails(
    alloc: Global,
    names: &FormulaNames<'_>,
    params: &Names,
    head: &RawHead,
    condition: &Option<Raw>,
    body: &RawBody,
) -> Result<bool, NoMemory>
    requires names { names.now.0 ≡ params.now }
    ensures { IfOk result (λ b. b ≡ operator_fails names.now.1 params.now head.now condition.now body.now) }
{
    if head_fails(names, params.len(), head) {
        return Ok(true);
    }
    let args = arg_names(alloc, head.args.as_slice())?;
    let bound = backwards(alloc, args.as_slice())?;
    if optional_fails(alloc, names, params.len(), bound.as_slice(), condition)? {
        return Ok(true);
    }
    body_fails(alloc, names, params, head, args.as_slice(), body)
}

fn constant_fails(
    alloc: Global,
    names: &FormulaNames<'_>,
    params: &Names,
    head: &RawHead,
    condition: &Option<Raw>,
) -> Result<bool, NoMemory>
    requires names { names.now.0 ≡ params.now }
    ensures { IfOk result (λ b. b ≡ constant_fails names.now.1 params.now head.now condition.now) }
{
    if head_fails(names, params.len(), head) {
        return Ok(true);
    }
    let bound = bound_names(alloc, head.args.as_slice())?;
    optional_fails(alloc, names, params.len(), bound.as_slice(), condition)
}

/// The constructors of a datatype, in which its name is one more formula name, and the parameters that it lists.
fn data_fails(
    alloc: Global,
    names: &FormulaNames<'_>,
    params: &Names,
    name: &Name,
    listed: &[Name],
    cons: &[RawCon],
) -> Result<bool, NoMemory>
    requires names { names.now.0 ≡ params.now }
    ensures { IfOk result (λ b. b ≡ data_fails names.now.1 params.now name.now listed.now cons.now) }
{
    let more = with_name(alloc, params, name)?;
    let inside = FormulaNames::new(alloc, names.env(), &more)?;
    Ok(any_con_fails(&inside, params.len(), cons) || any_unknown(names, listed))
}

fn rewrite_fails(
    alloc: Global,
    names: &FormulaNames<'_>,
    params: &Names,
    vars: &[RawArg],
    left: &Raw,
    branches: &[RawBranch],
) -> Result<bool, NoMemory>
    requires names { names.now.0 ≡ params.now }
    ensures { IfOk result (λ b. b ≡ rewrite_fails names.now.1 params.now vars.now left.now branches.now) }
{
    if any_arg_fails(names, params.len(), vars) {
        return Ok(true);
    }
    let bound = bound_names(alloc, vars)?;
    if formula_fails(alloc, names, params.len(), bound.as_slice(), left)? {
        return Ok(true);
    }
    any_branch_fails(alloc, names, params.len(), bound.as_slice(), branches)
}

fn inference_fails(
    alloc: Global,
    names: &FormulaNames<'_>,
    params: &Names,
    vars: &[RawArg],
    givens: &[Raw],
    conclusion: &Raw,
) -> Result<bool, NoMemory>
    requires names { names.now.0 ≡ params.now }
    ensures { IfOk result (λ b. b ≡ inference_fails names.now.1 params.now vars.now givens.now conclusion.now) }
{
    if any_arg_fails(names, params.len(), vars) {
        return Ok(true);
    }
    let bound = bound_names(alloc, vars)?;
    if any_formula_fails(alloc, names, params.len(), bound.as_slice(), givens)? {
        return Ok(true);
    }
    formula_fails(alloc, names, params.len(), bound.as_slice(), conclusion)
}

/// Whether the element uses a name that is not in scope. Linear in the element, and in the number of type parameters.
#[tactic(auto, using(crate::proofs::UnknownLaws::whole))]
pub(crate) fn has_unknown(
    alloc: Global,
    env: &Env,
    params: &Names,
    form: &ElementForm,
) -> Result<bool, NoMemory>
    ensures { IfOk result (λ b. b ≡ element_unknown params.now env.now form.now) }
{
    let names = FormulaNames::new(alloc, env, params)?;
    element_fails(alloc, &names, params, form)
}

fn element_fails(
    alloc: Global,
    names: &FormulaNames<'_>,
    params: &Names,
    form: &ElementForm,
) -> Result<bool, NoMemory>
    requires names { names.now.0 ≡ params.now }
    ensures { IfOk result (λ b. b ≡ element_fails names.now.1 params.now form.now) }
{
    match form {
        ElementForm::Import(_) | ElementForm::Param(_) => Ok(false),
        ElementForm::Datatype(name, listed, cons) => {
            data_fails(
                alloc,
                names,
                params,
                name,
                listed.as_slice(),
                cons.as_slice(),
            )
        }
        ElementForm::Operator(head, condition, body) => {
            operator_fails(alloc, names, params, head, condition, body)
        }
        ElementForm::Constant(head, condition) => {
            constant_fails(alloc, names, params, head, condition)
        }
        ElementForm::Axiom(_, raw) => formula_fails(alloc, names, params.len(), &[], raw),
        ElementForm::Theorem(_, raw) => formula_fails(alloc, names, params.len(), &[], raw),
        ElementForm::Rewrite(_, vars, left, branches, _) => {
            rewrite_fails(
                alloc,
                names,
                params,
                vars.as_slice(),
                left,
                branches.as_slice(),
            )
        }
        ElementForm::Inference(_, vars, givens, conclusion) => {
            inference_fails(
                alloc,
                names,
                params,
                vars.as_slice(),
                givens.as_slice(),
                conclusion,
            )
        }
    }
}

/// The names of arguments, the innermost last.
fn bound_names(alloc: Global, args: &[RawArg]) -> Result<Vec<Name>, NoMemory>
    ensures { IfOk result (λ names. reverse names.items ≡ arg_names args.now) }
{
    let names = arg_names(alloc, args)?;
    backwards(alloc, names.as_slice())
}
