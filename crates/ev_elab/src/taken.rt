//! Names that an element declares or binds and that are taken.
ghost use Rattle.std.specs.Prelude.{◌≡◌, ◌++◌, ◌∷◌, [], ℕ, List, bytes_eq, flat_map, IfOk, OnOk};
ghost use Rattle.std.specs.List.{list_any};
ghost use Rattle.indexmap.specs.IndexSet.{contains};
ghost use Rattle.ev_syntax.specs.Names.{is_variable_name};
ghost use Rattle.ev_resolve.specs.UsedNames.{is_name_among};
ghost use Rattle.ev_resolve.specs.TakenNames.{takes_name};
ghost use Rattle.ev_elab.specs.Parts.{arg_names, but};
ghost use Rattle.ev_elab.specs.Unknown.{is_known};
ghost use Rattle.ev_elab.specs.Taken.{raw_con_names, declared_formulas, declared_labels, variable_list, case_taken, body_taken, others_taken};
ghost use Rattle.ev_elab.specs.inner.Takes.{optional_takes, branch_takes, case_takes, body_takes, form_takes, formula_name_taken, label_taken, declared_taken, variables_taken, takes_names, case_repeats};

use crate::bound::{arg_names, push_all, push_but};
use crate::tables::{repeats, table_of};
use crate::unknown::with_name;
use ev_resolve::{FormulaNames, has_taken_binder};
use ev_syntax::{Raw, is_variable_name};
use ev_terms::{Name, Names, NoMemory, TryCopy};
use ev_theory_text::{ElementForm, RawBody, RawBranch, RawCase, RawCon, RawHead};
use ev_typing::Env;
use indexmap::IndexSet;
use std::alloc::Global;

/// The formula names that an element declares, in order.
fn declared_formulas(alloc: Global, form: &ElementForm) -> Result<Vec<Name>, NoMemory>
    ensures { IfOk result (λ names. names.items ≡ declared_formulas form.now) }
{
    match form {
        ElementForm::Param(params) => all_names(alloc, params.as_slice()),
        ElementForm::Datatype(name, _, cons) => data_names(alloc, name, cons.as_slice()),
        ElementForm::Operator(head, _, _) => one_name(alloc, &head.name),
        ElementForm::Constant(head, _) => one_name(alloc, &head.name),
        _ => Ok(Vec::new(alloc)),
    }
}

fn all_names(alloc: Global, names: &[Name]) -> Result<Vec<Name>, NoMemory>
    ensures { IfOk result (λ all. all.items ≡ names.now) }
{
    let mut all = Vec::new(alloc);
    push_all(alloc, &mut all, names)?;
    Ok(all)
}

/// A datatype's name, and those of its constructors and destructors.
fn data_names(alloc: Global, name: &Name, cons: &[RawCon]) -> Result<Vec<Name>, NoMemory>
    ensures { IfOk result (λ names. names.items ≡ name.now ∷ flat_map raw_con_names cons.now) }
{
    let mut names = one_name(alloc, name)?;
    push_cons(alloc, &mut names, cons)?;
    Ok(names)
}

/// Appends the names of constructors and their destructors.
#[tactic(auto, using(crate::proofs::Taking::lists))]
fn push_cons(alloc: Global, names: &mut Vec<Name>, cons: &[RawCon]) -> Result<(), NoMemory>
    ensures { OnOk result (names.new.items ≡ names.old.items ++ flat_map raw_con_names cons.now) }
{
    for con in cons {
        push_con(alloc, names, con)?;
    }
    Ok(())
}

#[tactic(auto, using(crate::proofs::Taking::lists))]
fn push_con(alloc: Global, names: &mut Vec<Name>, con: &RawCon) -> Result<(), NoMemory>
    ensures { OnOk result (names.new.items ≡ names.old.items ++ raw_con_names con.now) }
{
    names.push(con.name.try_copy(alloc)?)?;
    let fields = arg_names(alloc, con.args.as_slice())?;
    push_all(alloc, names, fields.as_slice())
}

/// The labels that an element declares: one, or none.
fn declared_labels(alloc: Global, form: &ElementForm) -> Result<Vec<Name>, NoMemory>
    ensures { IfOk result (λ names. names.items ≡ declared_labels form.now) }
{
    match form {
        ElementForm::Axiom(label, _) => one_name(alloc, label),
        ElementForm::Theorem(label, _) => one_name(alloc, label),
        ElementForm::Rewrite(label, _, _, _, _) => one_name(alloc, label),
        ElementForm::Inference(label, _, _, _) => one_name(alloc, label),
        _ => Ok(Vec::new(alloc)),
    }
}

fn one_name(alloc: Global, name: &Name) -> Result<Vec<Name>, NoMemory>
    ensures { IfOk result (λ names. names.items ≡ name.now ∷ []) }
{
    let mut names = Vec::new(alloc);
    names.push(name.try_copy(alloc)?)?;
    Ok(names)
}

/// The names of an element's arguments, or of a rule's variables.
fn variable_list(alloc: Global, form: &ElementForm) -> Result<Vec<Name>, NoMemory>
    ensures { IfOk result (λ names. names.items ≡ variable_list form.now) }
{
    match form {
        ElementForm::Operator(head, _, _) => arg_names(alloc, head.args.as_slice()),
        ElementForm::Constant(head, _) => arg_names(alloc, head.args.as_slice()),
        ElementForm::Rewrite(_, vars, _, _, _) => arg_names(alloc, vars.as_slice()),
        ElementForm::Inference(_, vars, _, _) => arg_names(alloc, vars.as_slice()),
        _ => Ok(Vec::new(alloc)),
    }
}

#[tactic(auto, using(crate::proofs::UnknownLaws::walk))]
fn any_known(names: &FormulaNames<'_>, bound: &[Name]) -> bool
    ensures { result ≡ list_any (is_known names.now.0 names.now.1) bound.now }
{
    for name in bound {
        if names.has(name) {
            return true;
        }
    }
    false
}

/// Whether a declared formula name is one in scope, or a label of the theory.
#[tactic(auto, using(crate::proofs::UnknownLaws::walk))]
fn any_formula_name_taken(
    names: &FormulaNames<'_>,
    labels: &IndexSet<Name>,
    declared: &[Name],
) -> bool
    ensures { result ≡ list_any (formula_name_taken (is_known names.now.0 names.now.1) (contains bytes_eq labels.now)) declared.now }
{
    for name in declared {
        if names.has(name) || labels.contains(name) {
            return true;
        }
    }
    false
}

/// Whether a declared label is a label or a formula name of the theory.
#[tactic(auto, using(crate::proofs::UnknownLaws::walk))]
fn any_label_taken(labels: &IndexSet<Name>, own: &IndexSet<Name>, declared: &[Name]) -> bool
    ensures { result ≡ list_any (label_taken (contains bytes_eq labels.now) (contains bytes_eq own.now)) declared.now }
{
    for name in declared {
        if labels.contains(name) || own.contains(name) {
            return true;
        }
    }
    false
}

#[tactic(auto, using(crate::proofs::UnknownLaws::walk))]
fn any_variable_name(declared: &[Name]) -> bool
    ensures { result ≡ list_any is_variable_name declared.now }
{
    for name in declared {
        if is_variable_name(name.as_slice()) {
            return true;
        }
    }
    false
}

/// Whether a variable of a case is an argument that BY does not name.
#[tactic(auto, using(crate::proofs::UnknownLaws::walk))]
fn any_in(table: &IndexSet<Name>, vars: &[Name]) -> bool
    ensures { result ≡ list_any (contains bytes_eq table.now) vars.now }
{
    for name in vars {
        if table.contains(name) {
            return true;
        }
    }
    false
}

/// The arguments that BY does not name, in a table.
fn other_arguments(alloc: Global, by: &Name, args: &[Name]) -> Result<IndexSet<Name>, NoMemory>
    ensures { IfOk result (λ table. (n : List ℕ) → contains bytes_eq table n ≡ is_name_among (but by.now args.now) n) }
{
    let mut others = Vec::new(alloc);
    push_but(alloc, &mut others, by, args)?;
    table_of(alloc, others.as_slice())
}

/// Whether a variable of a case stands twice, or is one of these arguments.
fn case_taken(alloc: Global, others: &IndexSet<Name>, case: &RawCase) -> Result<bool, NoMemory>
    ensures { IfOk result (λ b. b ≡ case_repeats (contains bytes_eq others.now) case.now) }
{
    if repeats(alloc, case.vars.as_slice())? {
        return Ok(true);
    }
    Ok(any_in(others, case.vars.as_slice()))
}

#[tactic(auto, using(crate::proofs::UnknownLaws::walk))]
fn any_case_taken(
    alloc: Global,
    others: &IndexSet<Name>,
    cases: &[RawCase],
) -> Result<bool, NoMemory>
    ensures { IfOk result (λ b. b ≡ list_any (case_repeats (contains bytes_eq others.now)) cases.now) }
{
    for case in cases {
        if case_taken(alloc, others, case)? {
            return Ok(true);
        }
    }
    Ok(false)
}

/// The variables of an operator's cases.
fn body_taken(alloc: Global, head: &RawHead, body: &RawBody) -> Result<bool, NoMemory>
    ensures { IfOk result (λ b. b ≡ body_taken (arg_names head.now.args) body.now) }
{
    match body {
        RawBody::Direct(_) => Ok(false),
        RawBody::Recursive(by, cases) => {
            let args = arg_names(alloc, head.args.as_slice())?;
            cases_taken(alloc, args.as_slice(), by, cases.as_slice())
        }
    }
}

fn cases_taken(alloc: Global, args: &[Name], by: &Name, cases: &[RawCase]) -> Result<bool, NoMemory>
    ensures { IfOk result (λ b. b ≡ list_any (case_taken args.now by.now) cases.now) }
{
    let others = other_arguments(alloc, by, args)?;
    any_case_taken(alloc, &others, cases)
}

/// The parameters that a datatype lists, or the variables of an operator's cases.
fn others_taken(alloc: Global, form: &ElementForm) -> Result<bool, NoMemory>
    ensures { IfOk result (λ b. b ≡ others_taken form.now) }
{
    match form {
        ElementForm::Datatype(_, listed, _) => repeats(alloc, listed.as_slice()),
        ElementForm::Operator(head, _, body) => body_taken(alloc, head, body),
        _ => Ok(false),
    }
}

fn optional_takes(names: &FormulaNames<'_>, raw: &Option<Raw>) -> bool
    ensures { result ≡ optional_takes names.now.1 names.now.0 raw.now }
{
    match raw {
        None => false,
        Some(raw) => has_taken_binder(names, raw),
    }
}

#[tactic(auto, using(crate::proofs::UnknownLaws::walk))]
fn any_formula_takes(names: &FormulaNames<'_>, raws: &[Raw]) -> bool
    ensures { result ≡ list_any (takes_name names.now.1 names.now.0) raws.now }
{
    for raw in raws {
        if has_taken_binder(names, raw) {
            return true;
        }
    }
    false
}

fn branch_takes(names: &FormulaNames<'_>, branch: &RawBranch) -> bool
    ensures { result ≡ branch_takes names.now.1 names.now.0 branch.now }
{
    optional_takes(names, &branch.condition) || has_taken_binder(names, &branch.right)
}

#[tactic(auto, using(crate::proofs::UnknownLaws::walk))]
fn any_branch_takes(names: &FormulaNames<'_>, branches: &[RawBranch]) -> bool
    ensures { result ≡ list_any (branch_takes names.now.1 names.now.0) branches.now }
{
    for branch in branches {
        if branch_takes(names, branch) {
            return true;
        }
    }
    false
}

#[tactic(auto, using(crate::proofs::UnknownLaws::walk))]
fn any_case_takes(names: &FormulaNames<'_>, cases: &[RawCase]) -> bool
    ensures { result ≡ list_any (case_takes names.now.1 names.now.0) cases.now }
{
    for case in cases {
        if has_taken_binder(names, &case.body) {
            return true;
        }
    }
    false
}

/// The binders of a body. In a case the operator's own name is a formula name.
fn body_takes(
    alloc: Global,
    names: &FormulaNames<'_>,
    params: &Names,
    head: &RawHead,
    body: &RawBody,
) -> Result<bool, NoMemory>
    requires names { names.now.0 ≡ params.now }
    ensures { IfOk result (λ b. b ≡ body_takes names.now.1 params.now head.now body.now) }
{
    match body {
        RawBody::Direct(raw) => Ok(has_taken_binder(names, raw)),
        RawBody::Recursive(_, cases) => {
            let more = with_name(alloc, params, &head.name)?;
            let inside = FormulaNames::new(alloc, names.env(), &more)?;
            Ok(any_case_takes(&inside, cases.as_slice()))
        }
    }
}

/// Whether a binder of the element has a formula name.
fn form_takes(
    alloc: Global,
    names: &FormulaNames<'_>,
    params: &Names,
    form: &ElementForm,
) -> Result<bool, NoMemory>
    requires names { names.now.0 ≡ params.now }
    ensures { IfOk result (λ b. b ≡ form_takes names.now.1 params.now form.now) }
{
    match form {
        ElementForm::Import(_) | ElementForm::Param(_) => Ok(false),
        ElementForm::Datatype(_, _, _) => Ok(false),
        ElementForm::Operator(head, condition, body) => {
            if optional_takes(names, condition) {
                return Ok(true);
            }
            body_takes(alloc, names, params, head, body)
        }
        ElementForm::Constant(_, condition) => Ok(optional_takes(names, condition)),
        ElementForm::Axiom(_, raw) => Ok(has_taken_binder(names, raw)),
        ElementForm::Theorem(_, raw) => Ok(has_taken_binder(names, raw)),
        ElementForm::Rewrite(_, _, left, branches, _) => {
            Ok(has_taken_binder(names, left) || any_branch_takes(names, branches.as_slice()))
        }
        ElementForm::Inference(_, _, givens, conclusion) => {
            Ok(any_formula_takes(names, givens.as_slice()) || has_taken_binder(names, conclusion))
        }
    }
}

/// Whether a declared name is taken: by a formula name in scope, by what the theory has declared, or by another of the element.
#[tactic(auto, using(crate::proofs::Taking::declared))]
fn declared_taken(
    alloc: Global,
    names: &FormulaNames<'_>,
    labels: &IndexSet<Name>,
    own: &IndexSet<Name>,
    form: &ElementForm,
) -> Result<bool, NoMemory>
    ensures { IfOk result (λ b. b ≡ declared_taken (is_known names.now.0 names.now.1) (contains bytes_eq labels.now) (contains bytes_eq own.now) (declared_formulas form.now) (declared_labels form.now)) }
{
    let formulas = declared_formulas(alloc, form)?;
    let formulas = formulas.as_slice();
    let declared = declared_labels(alloc, form)?;
    let declared = declared.as_slice();
    if any_formula_name_taken(names, labels, formulas) {
        return Ok(true);
    }
    if any_label_taken(labels, own, declared) {
        return Ok(true);
    }
    if any_variable_name(formulas) || any_variable_name(declared) {
        return Ok(true);
    }
    repeats(alloc, formulas)
}

/// Whether an argument or a rule's variable stands twice or has a formula name, or a variable of a case is taken.
fn variables_taken(
    alloc: Global,
    names: &FormulaNames<'_>,
    form: &ElementForm,
) -> Result<bool, NoMemory>
    ensures { IfOk result (λ b. b ≡ variables_taken (is_known names.now.0 names.now.1) form.now) }
{
    let variables = variable_list(alloc, form)?;
    if repeats(alloc, variables.as_slice())? {
        return Ok(true);
    }
    if others_taken(alloc, form)? {
        return Ok(true);
    }
    Ok(any_known(names, variables.as_slice()))
}

/// Whether a name that the element declares or binds is taken, where these are the labels and the formula names that the theory has
/// declared so far. Linear in the element, and in the number of type parameters.
#[tactic(auto, using(crate::proofs::Taking::whole))]
pub(crate) fn has_taken(
    alloc: Global,
    env: &Env,
    params: &Names,
    labels: &IndexSet<Name>,
    own: &IndexSet<Name>,
    form: &ElementForm,
) -> Result<bool, NoMemory>
    ensures { IfOk result (λ b. b ≡ takes_names env.now params.now (contains bytes_eq labels.now) (contains bytes_eq own.now) form.now) }
{
    let names = FormulaNames::new(alloc, env, params)?;
    if declared_taken(alloc, &names, labels, own, form)? {
        return Ok(true);
    }
    if variables_taken(alloc, &names, form)? {
        return Ok(true);
    }
    form_takes(alloc, &names, params, form)
}
