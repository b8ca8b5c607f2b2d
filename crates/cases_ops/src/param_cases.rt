//! `element_params ELEMENT`: the numbers of the element's type parameters, or `none`. An element is one of `import NAME`, `params NAMES`,
//! `data NAME, PARAMETERS`, `constant SIGNATURE, CONDITION`, `direct SIGNATURE, CONDITION, BODY`, `recursive SIGNATURE, CONDITION,
//! PLACE, BODIES`, `axiom TERM`, `theorem TERM`, `rewrite TYPES, LEFT, BRANCHES` and `inference TYPES, CONCLUSION, PREMISES`, where a
//! branch is `RIGHT` or `CONDITION -> RIGHT`.
use crate::reading::{fields_of, name_of, read_condition, read_signature, trees_of};
use cases_notation::fault::Fault;
use cases_notation::reading::{read_tree, read_types};
use cases_notation::text::Text;
use cases_notation::words::number;
use ev_rules::{Branch, Branches, Element, InferenceRule, RewriteRule, element_params};
use ev_terms::{Name, Names};
use ev_typing::{Cons, DataDecl};
use std::alloc::Global;

fn read_names(alloc: Global, fields: &[&str]) -> Result<Names, Fault> {
    let mut names = Names::new(alloc);
    for field in fields {
        names.push(alloc, name_of(alloc, *field)?)?;
    }
    Ok(names)
}

/// A datatype without constructors.
fn read_data(alloc: Global, fields: &[&str]) -> Result<Element, Fault> {
    let [name, params] = fields else {
        return Err(Fault::NoCase);
    };
    Ok(Element::Data(DataDecl {
        name: name_of(alloc, *name)?,
        params: number(*params)?,
        cons: Cons::new(alloc),
    }))
}

fn read_constant(alloc: Global, fields: &[&str]) -> Result<Element, Fault> {
    let [name, params, args, gives, condition] = fields else {
        return Err(Fault::NoCase);
    };
    let signature = read_signature(alloc, *name, *params, *args, *gives)?;
    Ok(Element::Constant(signature, read_condition(alloc, *condition)?))
}

fn read_direct(alloc: Global, fields: &[&str]) -> Result<Element, Fault> {
    let [name, params, args, gives, condition, body] = fields else {
        return Err(Fault::NoCase);
    };
    let signature = read_signature(alloc, *name, *params, *args, *gives)?;
    let condition = read_condition(alloc, *condition)?;
    Ok(Element::Direct(signature, condition, read_tree(alloc, *body)?))
}

fn read_recursive(alloc: Global, fields: &[&str]) -> Result<Element, Fault> {
    let [name, params, args, gives, condition, place, bodies @ ..] = fields else {
        return Err(Fault::NoCase);
    };
    let signature = read_signature(alloc, *name, *params, *args, *gives)?;
    let condition = read_condition(alloc, *condition)?;
    let place = number(*place)?;
    Ok(Element::Recursive(signature, condition, place, trees_of(alloc, bodies)?))
}

fn label(alloc: Global) -> Result<Name, Fault> {
    Ok(name_of(alloc, "r")?)
}

fn read_branch(alloc: Global, text: &str) -> Result<Branch, Fault> {
    match text.split_once(" -> ") {
        Some((condition, right)) => {
            let condition = Some(read_tree(alloc, condition)?);
            Ok(Branch {
                condition,
                right: read_tree(alloc, right)?,
            })
        }
        None => Ok(Branch {
            condition: None,
            right: read_tree(alloc, text)?,
        }),
    }
}

fn read_branches(alloc: Global, fields: &[&str]) -> Result<Branches, Fault> {
    let mut branches = Branches::new(alloc);
    for field in fields {
        branches.push(alloc, read_branch(alloc, *field)?)?;
    }
    Ok(branches)
}

fn read_rewrite(alloc: Global, fields: &[&str]) -> Result<Element, Fault> {
    let [types, left, branches @ ..] = fields else {
        return Err(Fault::NoCase);
    };
    let label = label(alloc)?;
    let vars = read_types(alloc, *types)?;
    let left = read_tree(alloc, *left)?;
    let branches = read_branches(alloc, branches)?;
    Ok(Element::Rewrite(RewriteRule {
        label,
        vars,
        left,
        branches,
        complete: false,
    }))
}

fn read_inference(alloc: Global, fields: &[&str]) -> Result<Element, Fault> {
    let [types, conclusion, givens @ ..] = fields else {
        return Err(Fault::NoCase);
    };
    let label = label(alloc)?;
    let vars = read_types(alloc, *types)?;
    let givens = trees_of(alloc, givens)?;
    let conclusion = read_tree(alloc, *conclusion)?;
    Ok(Element::Inference(InferenceRule {
        label,
        vars,
        givens,
        conclusion,
    }))
}

/// The definitions.
fn read_definition(alloc: Global, kind: &str, fields: &[&str]) -> Result<Element, Fault> {
    match kind {
        "data" => read_data(alloc, fields),
        "constant" => read_constant(alloc, fields),
        "direct" => read_direct(alloc, fields),
        "recursive" => read_recursive(alloc, fields),
        "rewrite" => read_rewrite(alloc, fields),
        "inference" => read_inference(alloc, fields),
        "params" => Ok(Element::Params(read_names(alloc, fields)?)),
        _ => Err(Fault::NoCase),
    }
}

pub fn read_element(alloc: Global, text: &str) -> Result<Element, Fault> {
    let (kind, rest) = text.split_once(' ').ok_or(Fault::NoCase)?;
    match kind {
        "import" => Ok(Element::Import(name_of(alloc, rest)?)),
        "axiom" => Ok(Element::Axiom(label(alloc)?, read_tree(alloc, rest)?)),
        "theorem" => Ok(Element::Theorem(label(alloc)?, read_tree(alloc, rest)?)),
        _ => read_definition(alloc, kind, fields_of(alloc, rest)?.as_slice()),
    }
}

fn write_params(alloc: Global, out: &mut Text, text: &str) -> Result<(), Fault> {
    let element = read_element(alloc, text)?;
    let ids = element_params(alloc, &element)?;
    if ids.is_empty() {
        out.word("none");
    }
    for id in ids.as_slice() {
        out.number(u64::from(*id));
    }
    Ok(())
}

/// Whether the case is one of these, and then its answer.
pub fn answer(alloc: Global, out: &mut Text, case: &str, rest: &str) -> Result<bool, Fault> {
    match case {
        "element_params" => write_params(alloc, out, rest)?,
        _ => return Ok(false),
    }
    Ok(true)
}
