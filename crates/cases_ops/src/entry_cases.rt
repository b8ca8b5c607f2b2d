//! `entry_of ELEMENT`: the entry that the element makes over the environment, or `none`. `entry_by ELEMENT`: the same by bodies that are
//! made once. `env_of lists`: how many entries some elements make, and these.
use crate::param_cases::read_element;
use crate::samples::{some_elements, with_double};
use cases_notation::fault::Fault;
use cases_notation::text::Text;
use cases_notation::writing::{write_tree, write_trees, write_type, write_types};
use ev_ops::{Bodies, entry_by, entry_of, env_of};
use ev_terms::{NoMemory, Tree};
use ev_typing::{Entry, Env, Signature};
use std::alloc::Global;

/// The number of type parameters, the types of the arguments, `to` and the operator's own.
fn write_signature(alloc: Global, out: &mut Text, signature: &Signature) {
    out.number(u64::from(signature.params));
    write_types(alloc, out, &signature.args);
    out.word("to");
    write_type(alloc, out, &signature.result);
}

fn write_condition(alloc: Global, out: &mut Text, condition: &Option<Tree>) {
    if let Some(tree) = condition {
        out.word("where");
        write_tree(alloc, out, tree);
    }
}

fn write_entry(alloc: Global, out: &mut Text, entry: &Entry) {
    match entry {
        Entry::Data(decl) => {
            out.word("data");
            out.number(u64::from(decl.params));
        }
        Entry::Constant(signature, condition) => {
            out.word("constant");
            write_signature(alloc, out, signature);
            write_condition(alloc, out, condition);
        }
        Entry::Direct(signature, condition, body) => {
            out.word("direct");
            write_signature(alloc, out, signature);
            write_condition(alloc, out, condition);
            out.word("is");
            write_tree(alloc, out, body);
        }
        Entry::Recursive(signature, condition, place, bodies) => {
            out.word("recursive");
            write_signature(alloc, out, signature);
            write_condition(alloc, out, condition);
            out.word("by");
            out.number(u64::from(*place));
            out.word("is");
            write_trees(alloc, out, bodies.as_slice());
        }
    }
}

fn write_made(alloc: Global, out: &mut Text, entry: Option<Entry>) {
    match entry {
        Some(entry) => write_entry(alloc, out, &entry),
        None => out.word("none"),
    }
}

fn write_all(alloc: Global, out: &mut Text, env: &Env) {
    for i in 0..env.count() {
        if let Some(entry) = env.entry(i) {
            write_entry(alloc, out, entry);
        }
    }
}

/// How many entries there must be, and those that are made of some elements.
fn write_sample(alloc: Global, out: &mut Text) -> Result<(), NoMemory> {
    let declared = with_double(alloc)?;
    out.number(declared.count() as u64);
    let elements = some_elements(alloc)?;
    write_all(alloc, out, &env_of(alloc, &elements)?);
    Ok(())
}

/// The entry that the element makes over the environment.
fn write_entry_of(alloc: Global, out: &mut Text, env: &Env, text: &str) -> Result<(), Fault> {
    let element = read_element(alloc, text)?;
    let entry = entry_of(alloc, env, &element)?;
    write_made(alloc, out, entry);
    Ok(())
}

/// The same by the bodies of the environment, made once.
fn write_entry_by(alloc: Global, out: &mut Text, env: &Env, text: &str) -> Result<(), Fault> {
    let element = read_element(alloc, text)?;
    let bodies = Bodies::of(alloc, env)?;
    let entry = entry_by(alloc, &bodies, &element)?;
    write_made(alloc, out, entry);
    Ok(())
}

/// Whether the case is one of these, and then its answer.
pub fn answer(
    alloc: Global,
    out: &mut Text,
    env: &Env,
    case: &str,
    rest: &str,
) -> Result<bool, Fault> {
    match case {
        "entry_of" => write_entry_of(alloc, out, env, rest)?,
        "entry_by" => write_entry_by(alloc, out, env, rest)?,
        "env_of" => write_sample(alloc, out)?,
        _ => return Ok(false),
    }
    Ok(true)
}
