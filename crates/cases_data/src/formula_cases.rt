//! `destructor CON PLACE`, `distinct LEFT RIGHT`, `equation OP CON`: the formula, or `none`.
use crate::fault::Fault;
use crate::writing::push_term;
use ev_data::{
    destructor_equation, distinctness, equation, has_destructor_equation, has_distinctness,
    has_equation,
};
use ev_terms::Name;
use ev_typing::Env;
use std::alloc::Global;

fn push_destructor(
    alloc: Global,
    out: &mut String,
    env: &Env,
    con: &Name,
    word: &str,
) -> Result<(), Fault> {
    let Ok(place) = word.parse::<u32>() else {
        return Err(Fault::NoCase);
    };
    if has_destructor_equation(env, con, place) {
        let tree = destructor_equation(alloc, env, con, place)?;
        push_term(alloc, out, env, 0, &tree)
    } else {
        Ok(out.push_str("none")?)
    }
}

fn push_distinct(
    alloc: Global,
    out: &mut String,
    env: &Env,
    left: &Name,
    right: &Name,
) -> Result<(), Fault> {
    if has_distinctness(env, left, right) {
        let tree = distinctness(alloc, env, left, right)?;
        push_term(alloc, out, env, 0, &tree)
    } else {
        Ok(out.push_str("none")?)
    }
}

fn push_equation(
    alloc: Global,
    out: &mut String,
    env: &Env,
    op: &Name,
    con: &Name,
) -> Result<(), Fault> {
    if has_equation(env, op, con) {
        let tree = equation(alloc, env, op, con)?;
        push_term(alloc, out, env, 0, &tree)
    } else {
        Ok(out.push_str("none")?)
    }
}

/// Whether the case is one of these, and then its answer.
pub fn answer(
    alloc: Global,
    out: &mut String,
    env: &Env,
    case: &str,
    rest: &str,
) -> Result<bool, Fault> {
    let Some((first, second)) = rest.split_once(' ') else {
        return Ok(false);
    };
    let left = Name::from_slice(alloc, first.as_bytes())?;
    match case {
        "destructor" => push_destructor(alloc, out, env, &left, second)?,
        "distinct" => {
            let right = Name::from_slice(alloc, second.as_bytes())?;
            push_distinct(alloc, out, env, &left, &right)?;
        }
        "equation" => {
            let right = Name::from_slice(alloc, second.as_bytes())?;
            push_equation(alloc, out, env, &left, &right)?;
        }
        _ => return Ok(false),
    }
    Ok(true)
}
