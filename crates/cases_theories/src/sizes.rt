//! What elements are and how many parts they have, where a text has too many to be shown.
use crate::parts::{put, put_formula, put_number};
use ev_terms::NoMemory;
use ev_theory_text::{ElementForm, RawBody, RawCons, RawElement};
use std::alloc::Global;

fn put_count(line: &mut Vec<u8>, alloc: Global, count: usize) -> Result<(), NoMemory> {
    put(line, b" ")?;
    put_number(line, alloc, count as u128)
}

fn case_count(body: &RawBody) -> usize {
    match body {
        RawBody::Direct(_) => 0,
        RawBody::Recursive(_, cases) => cases.len(),
    }
}

/// How many constructors there are, and how many arguments each of the first two has.
fn put_cons(line: &mut Vec<u8>, alloc: Global, cons: &RawCons) -> Result<(), NoMemory> {
    put_count(line, alloc, cons.len())?;
    for con in cons.as_slice().iter().take(2) {
        put_count(line, alloc, con.args.len())?;
    }
    Ok(())
}

fn put_declaration(line: &mut Vec<u8>, alloc: Global, form: &ElementForm) -> Result<(), NoMemory> {
    match form {
        ElementForm::Param(names) => {
            put(line, b"param")?;
            put_count(line, alloc, names.len())
        }
        ElementForm::Datatype(_, params, cons) => {
            put(line, b"datatype")?;
            put_count(line, alloc, params.len())?;
            put_cons(line, alloc, cons)
        }
        ElementForm::Operator(head, _, body) => {
            put(line, b"operator")?;
            put_count(line, alloc, head.args.len())?;
            put_count(line, alloc, case_count(body))
        }
        ElementForm::Constant(head, _) => {
            put(line, b"constant")?;
            put_count(line, alloc, head.args.len())
        }
        law => put_law(line, alloc, law),
    }
}

fn put_law(line: &mut Vec<u8>, alloc: Global, form: &ElementForm) -> Result<(), NoMemory> {
    match form {
        ElementForm::Axiom(_, formula) | ElementForm::Theorem(_, formula) => {
            put_formula(line, alloc, formula)
        }
        ElementForm::Rewrite(_, vars, _, branches, _) => {
            put(line, b"rewrite")?;
            put_count(line, alloc, vars.len())?;
            put_count(line, alloc, branches.len())
        }
        ElementForm::Inference(_, vars, givens, _) => {
            put(line, b"inference")?;
            put_count(line, alloc, vars.len())?;
            put_count(line, alloc, givens.len())
        }
        _ => put(line, b"import"),
    }
}

/// What an element is, and how many parts it has.
pub fn put_size(line: &mut Vec<u8>, alloc: Global, element: &RawElement) -> Result<(), NoMemory> {
    match element {
        RawElement::Read(form) => put_declaration(line, alloc, form),
        RawElement::Bad(_) => put(line, b"bad"),
    }
}
