use cases_notation::fault::Fault;
use cases_notation::reading::{Items, read_items, read_tree, read_types};
use ev_congruence::{Equation, make_equation};
use ev_forms::make_truth;
use ev_terms::{Tree, Trees, TryCopy};
use ev_typing::Sequent;
use std::alloc::Global;

/// A case of congruence: a sequent whose goal does not count, the equations that are its hypotheses, and the body.
#[derive(Drop)]
pub struct Case {
    pub at: Sequent,
    pub equations: Vec<Equation>,
    pub body: Tree,
}

fn read_equation(alloc: Global, text: &str) -> Result<Equation, Fault> {
    let Items { types, trees } = read_items(alloc, text)?;
    match (types.get(0), trees.as_slice()) {
        (Some(ty), [left, right]) => Ok(Equation {
            ty: ty.try_copy(alloc)?,
            left: left.try_copy(alloc)?,
            right: right.try_copy(alloc)?,
        }),
        _ => Err(Fault::NoCase),
    }
}

fn read_equations(alloc: Global, text: &str) -> Result<Vec<Equation>, Fault> {
    let mut all = Vec::new(alloc);
    for part in text.split(';') {
        all.push(read_equation(alloc, part)?)?;
    }
    Ok(all)
}

fn formulas(alloc: Global, equations: &[Equation]) -> Result<Trees, Fault> {
    let mut all = Trees::new(alloc);
    for equation in equations {
        let left = equation.left.try_copy(alloc)?;
        let right = equation.right.try_copy(alloc)?;
        let ty = equation.ty.try_copy(alloc)?;
        all.push(alloc, make_equation(alloc, ty, left, right)?)?;
    }
    Ok(all)
}

/// The case of the fields behind the call.
pub fn read_case(alloc: Global, context: &str, equations: &str, body: &str) -> Result<Case, Fault> {
    let equations = read_equations(alloc, equations)?;
    let at = Sequent {
        context: read_types(alloc, context)?,
        hyps: formulas(alloc, equations.as_slice())?,
        goal: make_truth(alloc)?,
    };
    Ok(Case {
        at,
        equations,
        body: read_tree(alloc, body)?,
    })
}
