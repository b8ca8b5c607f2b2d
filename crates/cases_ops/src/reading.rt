//! What several cases are asked of.
use cases_notation::fault::Fault;
use cases_notation::reading::{read_tree, read_type, read_types};
use cases_notation::words::number;
use ev_terms::{Name, NoMemory, Tree, Trees};
use ev_typing::Signature;
use std::alloc::Global;

/// The fields of a text, with commas between them.
pub fn fields_of(alloc: Global, text: &str) -> Result<Vec<&str>, Fault> {
    Ok(text.split(',').map(|field| field.trim()).collect(alloc)?)
}

pub fn name_of(alloc: Global, text: &str) -> Result<Name, NoMemory> {
    Name::from_slice(alloc, text.as_bytes())
}

/// A signature by its name, its number of type parameters, the types of its arguments and its own.
pub fn read_signature(
    alloc: Global,
    name: &str,
    params: &str,
    args: &str,
    gives: &str,
) -> Result<Signature, Fault> {
    let params = number(params)?;
    let args = read_types(alloc, args)?;
    let result = read_type(alloc, gives)?;
    Ok(Signature {
        name: name_of(alloc, name)?,
        params,
        args,
        result,
    })
}

/// A condition, or `none`.
pub fn read_condition(alloc: Global, text: &str) -> Result<Option<Tree>, Fault> {
    if text == "none" {
        Ok(None)
    } else {
        Ok(Some(read_tree(alloc, text)?))
    }
}

/// The terms of several fields.
pub fn trees_of(alloc: Global, fields: &[&str]) -> Result<Trees, Fault> {
    let mut trees = Trees::new(alloc);
    for field in fields {
        trees.push(alloc, read_tree(alloc, *field)?)?;
    }
    Ok(trees)
}
