//! The reader of an element.
ghost use Rattle.std.specs.Prelude.{◌≡◌, IfOk, Some, option_map};
ghost use Rattle.ev_syntax.specs.Marks.{import_word, param_word, datatype_word, operator_word, constant_word, axiom_word, theorem_word, rewrite_word, inference_word};
ghost use Rattle.ev_theory_text.specs.Elements.{ReadsForm, Labelled, OfWord};
ghost use Rattle.ev_theory_text.specs.Depths.{form_deep, labelled_deep};
ghost use Rattle.ev_parse.specs.inner.Taking.{Took, AtEnd, EndsFormula, both};
ghost use Rattle.ev_theory_text.specs.inner.Making.{import_form, param_form, datatype_form, operator_form, constant_form, axiom_form, theorem_form, rewrite_form, inference_form};

use crate::args::read_vars;
use crate::branches::{maybe_mark, read_branches};
use crate::cases::read_body;
use crate::datatypes::read_cons;
use crate::forms::{ElementForm, RawArgs, RawBody, RawBranches, RawCons, RawHead};
use crate::givens::read_givens;
use crate::heads::{read_condition, read_head};
use crate::names::{names_in_parens, read_names};
use ev_parse::cursor::Cursor;
use ev_syntax::mark_names::{
    AXIOM_WORD, COMPLETE_WORD, CONSTANT_WORD, DATATYPE_WORD, EQUAL_SIGN, IMPORT_WORD, IN_SIGN,
    INFER_WORD, INFERENCE_WORD, OPERATOR_WORD, PARAM_WORD, REWRITE_WORD, THEOREM_WORD, WHERE_WORD,
};
use ev_syntax::{Raw, Raws, Sort};
use ev_terms::{Name, Names, NoMemory};
use std::alloc::Global;

fn import(name: Option<Name>) -> Option<ElementForm>
    ensures { result ≡ option_map import_form name }
{
    Some(ElementForm::Import(name?))
}

fn read_import(cursor: &mut Cursor<'_>, alloc: Global) -> Result<Option<ElementForm>, NoMemory>
    ensures { IfOk result (λ v. Took (OfWord import_word) AtEnd form_deep cursor.old v cursor.new) }
{
    cursor.mark(IMPORT_WORD);
    let name = cursor.name(alloc)?;
    Ok(import(name))
}

fn param(names: Option<Names>) -> Option<ElementForm>
    ensures { result ≡ option_map param_form names }
{
    Some(ElementForm::Param(names?))
}

fn read_param(cursor: &mut Cursor<'_>, alloc: Global) -> Result<Option<ElementForm>, NoMemory>
    ensures { IfOk result (λ v. Took (OfWord param_word) AtEnd form_deep cursor.old v cursor.new) }
{
    cursor.mark(PARAM_WORD);
    let names = read_names(cursor, alloc)?;
    Ok(param(names))
}

fn datatype(name: Option<Name>, params: Option<Names>, cons: Option<RawCons>) -> Option<ElementForm>
    ensures { result ≡ option_map datatype_form (both name (both params cons)) }
{
    Some(ElementForm::Datatype(name?, params?, cons?))
}

fn read_datatype(cursor: &mut Cursor<'_>, alloc: Global) -> Result<Option<ElementForm>, NoMemory>
    ensures { IfOk result (λ v. Took (OfWord datatype_word) AtEnd form_deep cursor.old v cursor.new) }
{
    cursor.mark(DATATYPE_WORD);
    let name = cursor.name(alloc)?;
    let params = names_in_parens(cursor, alloc)?;
    cursor.mark(EQUAL_SIGN);
    let cons = read_cons(cursor, alloc)?;
    Ok(datatype(name, params, cons))
}

fn operator(
    head: Option<RawHead>,
    condition: Option<Option<Raw>>,
    body: Option<RawBody>,
) -> Option<ElementForm>
    ensures { result ≡ option_map operator_form (both head (both condition body)) }
{
    Some(ElementForm::Operator(head?, condition?, body?))
}

fn read_operator(cursor: &mut Cursor<'_>, alloc: Global) -> Result<Option<ElementForm>, NoMemory>
    ensures { IfOk result (λ v. Took (OfWord operator_word) AtEnd form_deep cursor.old v cursor.new) }
{
    cursor.mark(OPERATOR_WORD);
    let (head, sort) = read_head(cursor, alloc)?;
    let condition = read_condition(cursor, alloc, WHERE_WORD)?;
    let body = read_body(cursor, alloc, sort)?;
    Ok(operator(head, condition, body))
}

fn constant(head: Option<RawHead>, condition: Option<Option<Raw>>) -> Option<ElementForm>
    ensures { result ≡ option_map constant_form (both head condition) }
{
    Some(ElementForm::Constant(head?, condition?))
}

fn read_constant(cursor: &mut Cursor<'_>, alloc: Global) -> Result<Option<ElementForm>, NoMemory>
    ensures { IfOk result (λ v. Took (OfWord constant_word) AtEnd form_deep cursor.old v cursor.new) }
{
    cursor.mark(CONSTANT_WORD);
    let (head, _) = read_head(cursor, alloc)?;
    let condition = read_condition(cursor, alloc, WHERE_WORD)?;
    Ok(constant(head, condition))
}

/// Two parts, if both are kept.
fn both<A: Drop, B: Drop>(first: Option<A>, second: Option<B>) -> Option<(A, B)>
    ensures { result ≡ both first second }
{
    Some((first?, second?))
}

/// Reads a label and a predicate.
fn read_labelled(cursor: &mut Cursor<'_>, alloc: Global) -> Result<Option<(Name, Raw)>, NoMemory>
    ensures { IfOk result (λ v. Took Labelled EndsFormula labelled_deep cursor.old v cursor.new) }
{
    let name = cursor.name(alloc)?;
    cursor.mark(IN_SIGN);
    let formula = cursor.formula(alloc, Sort::Pred)?;
    Ok(both(name, formula))
}

fn axiom(labelled: Option<(Name, Raw)>) -> Option<ElementForm>
    ensures { result ≡ option_map axiom_form labelled }
{
    let (name, formula) = labelled?;
    Some(ElementForm::Axiom(name, formula))
}

fn read_axiom(cursor: &mut Cursor<'_>, alloc: Global) -> Result<Option<ElementForm>, NoMemory>
    ensures { IfOk result (λ v. Took (OfWord axiom_word) AtEnd form_deep cursor.old v cursor.new) }
{
    cursor.mark(AXIOM_WORD);
    let labelled = read_labelled(cursor, alloc)?;
    Ok(axiom(labelled))
}

fn theorem(labelled: Option<(Name, Raw)>) -> Option<ElementForm>
    ensures { result ≡ option_map theorem_form labelled }
{
    let (name, formula) = labelled?;
    Some(ElementForm::Theorem(name, formula))
}

fn read_theorem(cursor: &mut Cursor<'_>, alloc: Global) -> Result<Option<ElementForm>, NoMemory>
    ensures { IfOk result (λ v. Took (OfWord theorem_word) AtEnd form_deep cursor.old v cursor.new) }
{
    cursor.mark(THEOREM_WORD);
    let labelled = read_labelled(cursor, alloc)?;
    Ok(theorem(labelled))
}

fn rewrite(
    name: Option<Name>,
    vars: Option<RawArgs>,
    left: Option<Raw>,
    branches: Option<RawBranches>,
    complete: bool,
) -> Option<ElementForm>
    ensures { result ≡ option_map rewrite_form (both name (both vars (both left (both branches (Some complete))))) }
{
    Some(ElementForm::Rewrite(name?, vars?, left?, branches?, complete))
}

fn read_rewrite(cursor: &mut Cursor<'_>, alloc: Global) -> Result<Option<ElementForm>, NoMemory>
    ensures { IfOk result (λ v. Took (OfWord rewrite_word) AtEnd form_deep cursor.old v cursor.new) }
{
    cursor.mark(REWRITE_WORD);
    let name = cursor.name(alloc)?;
    let vars = read_vars(cursor, alloc)?;
    cursor.mark(IN_SIGN);
    let left = cursor.formula(alloc, Sort::Either)?;
    let branches = read_branches(cursor, alloc)?;
    let complete = maybe_mark(cursor, COMPLETE_WORD);
    Ok(rewrite(name, vars, left, branches, complete))
}

fn inference(
    name: Option<Name>,
    vars: Option<RawArgs>,
    givens: Option<Raws>,
    inferred: Option<Raw>,
) -> Option<ElementForm>
    ensures { result ≡ option_map inference_form (both name (both vars (both givens inferred))) }
{
    Some(ElementForm::Inference(name?, vars?, givens?, inferred?))
}

fn read_inference(cursor: &mut Cursor<'_>, alloc: Global) -> Result<Option<ElementForm>, NoMemory>
    ensures { IfOk result (λ v. Took (OfWord inference_word) AtEnd form_deep cursor.old v cursor.new) }
{
    cursor.mark(INFERENCE_WORD);
    let name = cursor.name(alloc)?;
    let vars = read_vars(cursor, alloc)?;
    cursor.mark(IN_SIGN);
    let givens = read_givens(cursor, alloc)?;
    cursor.mark(INFER_WORD);
    let inferred = cursor.formula(alloc, Sort::Pred)?;
    Ok(inference(name, vars, givens, inferred))
}

/// Reads the form that the tokens are, by the word that begins it.
pub fn read_form(cursor: &mut Cursor<'_>, alloc: Global) -> Result<Option<ElementForm>, NoMemory>
    ensures { IfOk result (λ v. Took ReadsForm AtEnd form_deep cursor.old v cursor.new) }
{
    if cursor.begins(IMPORT_WORD) {
        return read_import(cursor, alloc);
    }
    if cursor.begins(PARAM_WORD) {
        return read_param(cursor, alloc);
    }
    if cursor.begins(DATATYPE_WORD) {
        return read_datatype(cursor, alloc);
    }
    if cursor.begins(OPERATOR_WORD) {
        return read_operator(cursor, alloc);
    }
    if cursor.begins(CONSTANT_WORD) {
        return read_constant(cursor, alloc);
    }
    if cursor.begins(AXIOM_WORD) {
        return read_axiom(cursor, alloc);
    }
    if cursor.begins(THEOREM_WORD) {
        return read_theorem(cursor, alloc);
    }
    if cursor.begins(REWRITE_WORD) {
        return read_rewrite(cursor, alloc);
    }
    if cursor.begins(INFERENCE_WORD) {
        return read_inference(cursor, alloc);
    }
    cursor.refuse();
    Ok(None)
}
