//! `admit_direct SIGNATURE, CONDITION, BODY` and `admit_recursive SIGNATURE, CONDITION, PLACE, CASES`: whether the operator is admitted,
//! and else why not. A signature is `NAME, PARAMETERS, TYPES, TYPE` with the number of its type parameters, a condition a term or `none`,
//! the place counts from 0, and a case is `CONSTRUCTOR BODY`.
use crate::reading::{fields_of, name_of, read_condition, read_signature};
use cases_notation::fault::Fault;
use cases_notation::reading::read_tree;
use cases_notation::text::Text;
use cases_notation::words::number;
use ev_data::inductive_argument;
use ev_ops::{Case, Cases, OpFault, admit_direct, admit_recursive};
use ev_terms::Tree;
use ev_typing::{Env, Signature};
use std::alloc::Global;

fn write_verdict(alloc: Global, out: &mut Text, verdict: Result<(), OpFault>) -> Result<(), Fault> {
    match verdict {
        Ok(()) => out.word("admitted"),
        Err(fault) => out.word(format!(in alloc; "{fault}")?.as_str()),
    }
    Ok(())
}

/// A direct operator of these fields.
fn write_direct(alloc: Global, out: &mut Text, env: &Env, fields: &[&str]) -> Result<(), Fault> {
    let [name, params, args, gives, condition, body] = fields else {
        return Err(Fault::NoCase);
    };
    let signature = read_signature(alloc, *name, *params, *args, *gives)?;
    let condition = read_condition(alloc, *condition)?;
    let body = read_tree(alloc, *body)?;
    let verdict = admit_direct(env, &signature, condition.as_ref(), &body);
    write_verdict(alloc, out, verdict)
}

fn read_case(alloc: Global, text: &str) -> Result<Case, Fault> {
    let (con, body) = text.split_once(' ').ok_or(Fault::NoCase)?;
    let body = read_tree(alloc, body)?;
    Ok(Case {
        con: name_of(alloc, con)?,
        body,
    })
}

fn read_cases(alloc: Global, fields: &[&str]) -> Result<Cases, Fault> {
    let mut cases = Cases::new(alloc);
    for field in fields {
        cases.push(alloc, read_case(alloc, *field)?)?;
    }
    Ok(cases)
}

/// Whether the operator is admitted, where there is a datatype at its inductive place.
fn recursive_verdict(
    env: &Env,
    signature: &Signature,
    condition: Option<&Tree>,
    place: u32,
    cases: &Cases,
) -> Option<Result<(), OpFault>> {
    match inductive_argument(env, signature, place) {
        Some(_) => Some(admit_recursive(env, signature, condition, place, cases)),
        None => None,
    }
}

/// A recursive operator of these fields.
fn write_recursive(alloc: Global, out: &mut Text, env: &Env, fields: &[&str]) -> Result<(), Fault> {
    let [name, params, args, gives, condition, place, cases @ ..] = fields else {
        return Err(Fault::NoCase);
    };
    let signature = read_signature(alloc, *name, *params, *args, *gives)?;
    let condition = read_condition(alloc, *condition)?;
    let place = number(*place)?;
    let cases = read_cases(alloc, cases)?;
    match recursive_verdict(env, &signature, condition.as_ref(), place, &cases) {
        Some(verdict) => write_verdict(alloc, out, verdict),
        None => Err(Fault::NoCase),
    }
}

/// Whether the case is one of these, and then its answer.
pub fn answer(
    alloc: Global,
    out: &mut Text,
    env: &Env,
    case: &str,
    rest: &str,
) -> Result<bool, Fault> {
    let fields = fields_of(alloc, rest)?;
    match case {
        "admit_direct" => write_direct(alloc, out, env, fields.as_slice())?,
        "admit_recursive" => write_recursive(alloc, out, env, fields.as_slice())?,
        _ => return Ok(false),
    }
    Ok(true)
}
