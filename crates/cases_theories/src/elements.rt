//! Elements as texts.
pub use crate::parts::put;
use crate::parts::{
    put_args, put_body, put_branch, put_con, put_condition, put_formula, put_head, put_names,
};
use ev_syntax::{Raw, Raws};
use ev_terms::{Name, Names, NoMemory};
use ev_theory_text::{
    ElementForm, RawArgs, RawBody, RawBranches, RawCons, RawElement, RawHead, TextKind,
};
use std::alloc::Global;

fn put_labelled(
    line: &mut Vec<u8>,
    alloc: Global,
    word: &str,
    name: &Name,
    formula: &Raw,
) -> Result<(), NoMemory> {
    put(line, word.as_bytes())?;
    put(line, name.as_slice())?;
    put(line, b" ")?;
    put_formula(line, alloc, formula)
}

fn put_datatype(
    line: &mut Vec<u8>,
    alloc: Global,
    name: &Name,
    params: &Names,
    cons: &RawCons,
) -> Result<(), NoMemory> {
    put(line, b"datatype ")?;
    put(line, name.as_slice())?;
    put_names(line, params)?;
    for con in cons.as_slice() {
        put_con(line, alloc, con)?;
    }
    Ok(())
}

fn put_operator(
    line: &mut Vec<u8>,
    alloc: Global,
    head: &RawHead,
    condition: &Option<Raw>,
    body: &RawBody,
) -> Result<(), NoMemory> {
    put(line, b"operator ")?;
    put_head(line, alloc, head)?;
    put_condition(line, alloc, condition)?;
    put_body(line, alloc, body)
}

fn put_constant(
    line: &mut Vec<u8>,
    alloc: Global,
    head: &RawHead,
    condition: &Option<Raw>,
) -> Result<(), NoMemory> {
    put(line, b"constant ")?;
    put_head(line, alloc, head)?;
    put_condition(line, alloc, condition)
}

/// A label with the variables of a rule.
fn put_rule(
    line: &mut Vec<u8>,
    alloc: Global,
    word: &str,
    name: &Name,
    vars: &RawArgs,
) -> Result<(), NoMemory> {
    put(line, word.as_bytes())?;
    put(line, name.as_slice())?;
    put_args(line, alloc, vars)
}

fn put_branches(
    line: &mut Vec<u8>,
    alloc: Global,
    left: &Raw,
    branches: &RawBranches,
    complete: bool,
) -> Result<(), NoMemory> {
    put(line, b" ")?;
    put_formula(line, alloc, left)?;
    for branch in branches.as_slice() {
        put_branch(line, alloc, branch)?;
    }
    if complete {
        put(line, b" complete")?;
    }
    Ok(())
}

fn put_inferred(
    line: &mut Vec<u8>,
    alloc: Global,
    givens: &Raws,
    inferred: &Raw,
) -> Result<(), NoMemory> {
    for given in givens.as_slice() {
        put(line, b" ")?;
        put_formula(line, alloc, given)?;
    }
    put(line, b" |- ")?;
    put_formula(line, alloc, inferred)
}

fn put_form(line: &mut Vec<u8>, alloc: Global, form: &ElementForm) -> Result<(), NoMemory> {
    match form {
        ElementForm::Import(name) => {
            put(line, b"import ")?;
            put(line, name.as_slice())
        }
        ElementForm::Param(names) => {
            put(line, b"param")?;
            put_names(line, names)
        }
        ElementForm::Datatype(name, params, cons) => put_datatype(line, alloc, name, params, cons),
        ElementForm::Operator(head, condition, body) => {
            put_operator(line, alloc, head, condition, body)
        }
        ElementForm::Constant(head, condition) => put_constant(line, alloc, head, condition),
        law => put_law(line, alloc, law),
    }
}

fn put_law(line: &mut Vec<u8>, alloc: Global, form: &ElementForm) -> Result<(), NoMemory> {
    match form {
        ElementForm::Axiom(name, formula) => put_labelled(line, alloc, "axiom ", name, formula),
        ElementForm::Theorem(name, formula) => put_labelled(line, alloc, "theorem ", name, formula),
        ElementForm::Rewrite(name, vars, left, branches, complete) => {
            put_rule(line, alloc, "rewrite ", name, vars)?;
            put_branches(line, alloc, left, branches, *complete)
        }
        ElementForm::Inference(name, vars, givens, inferred) => {
            put_rule(line, alloc, "inference ", name, vars)?;
            put_inferred(line, alloc, givens, inferred)
        }
        _ => Ok(()),
    }
}

/// An element, or the first of the kinds that holds of it.
pub fn put_element(
    line: &mut Vec<u8>,
    alloc: Global,
    element: &RawElement,
) -> Result<(), NoMemory> {
    match element {
        RawElement::Read(form) => put_form(line, alloc, form),
        RawElement::Bad(TextKind::Text) => put(line, b"text"),
        RawElement::Bad(TextKind::Syntax) => put(line, b"syntax"),
        RawElement::Bad(TextKind::Deep) => put(line, b"deep"),
    }
}
