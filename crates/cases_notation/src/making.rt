//! Words that make a term of the terms behind them. By the forms of `ev_forms`: `Truth Falsity Not And Or Implies Iff ForAll ForSome
//! SetOf Equal In Bool TrueValue`. By the operations on terms: `shift:F:B t`, `put:n t` before the n terms of a substitution,
//! `retype:n t` before the n types of a type instance. Large terms: `twice:n t` is f of t and t, n times over, and `under:n t` is t
//! under n binders `! ?0`.
use crate::fault::Fault;
use crate::reading::Reader;
use crate::words::number;
use ev_forms::{
    Binder, Connective, Relation, make_bool, make_bound, make_falsity, make_joined, make_negation,
    make_related, make_true_value, make_truth,
};
use ev_terms::{
    Name, Sym, Tree, Trees, TryCopy, Ty, Tys, instantiate_types, make_node, shift, shift_fits,
    substitute, substitute_fits,
};
use std::alloc::Global;

/// The most times that a word of large terms is applied.
const TIMES_LIMIT: u32 = 1_000;

pub fn connective(word: &str) -> Option<Connective> {
    match word {
        "And" => Some(Connective::And),
        "Or" => Some(Connective::Or),
        "Implies" => Some(Connective::Implies),
        "Iff" => Some(Connective::Iff),
        _ => None,
    }
}

pub fn binder(word: &str) -> Option<Binder> {
    match word {
        "ForAll" => Some(Binder::ForAll),
        "ForSome" => Some(Binder::ForSome),
        "SetOf" => Some(Binder::SetOf),
        _ => None,
    }
}

pub fn relation(word: &str) -> Option<Relation> {
    match word {
        "Equal" => Some(Relation::Equal),
        "In" => Some(Relation::In),
        _ => None,
    }
}

/// The forms without type arguments.
fn plain_form(alloc: Global, reader: &mut Reader, word: &str) -> Result<Option<Tree>, Fault> {
    match word {
        "Truth" => Ok(Some(make_truth(alloc)?)),
        "Falsity" => Ok(Some(make_falsity(alloc)?)),
        "TrueValue" => Ok(Some(make_true_value(alloc)?)),
        "Not" => Ok(Some(make_negation(alloc, reader.tree()?)?)),
        "Bool" => Ok(Some(make_bool(alloc, reader.tree()?)?)),
        _ => Ok(None),
    }
}

/// Two terms with something between them.
fn joining_form(alloc: Global, reader: &mut Reader, word: &str) -> Result<Option<Tree>, Fault> {
    if let Some(connective) = connective(word) {
        let (left, right) = (reader.tree()?, reader.tree()?);
        return Ok(Some(make_joined(alloc, connective, left, right)?));
    }
    let Some(relation) = relation(word) else {
        return Ok(None);
    };
    let ty = reader.ty()?;
    let (left, right) = (reader.tree()?, reader.tree()?);
    Ok(Some(make_related(alloc, relation, ty, left, right)?))
}

fn binding_form(alloc: Global, reader: &mut Reader, word: &str) -> Result<Option<Tree>, Fault> {
    let Some(binder) = binder(word) else {
        return Ok(None);
    };
    let (ty, body) = (reader.ty()?, reader.tree()?);
    Ok(Some(make_bound(alloc, binder, ty, body)?))
}

/// A term whose variables from a number on are raised, where they can be.
fn shifted(alloc: Global, tree: &Tree, numbers: &str) -> Result<Tree, Fault> {
    let Some((from, by)) = numbers.split_once(':') else {
        return Err(Fault::NoCase);
    };
    let (from, by) = (number(from)?, number(by)?);
    if !shift_fits(tree, from, by) {
        return Err(Fault::NoCase);
    }
    Ok(shift(alloc, tree, from, by)?)
}

/// A term with terms put in, where its variables stay numbers.
fn substituted(alloc: Global, reader: &mut Reader, count: u32) -> Result<Tree, Fault> {
    let tree = reader.tree()?;
    let terms = reader.next_trees(alloc, count)?;
    if !substitute_fits(&tree, &terms) {
        return Err(Fault::NoCase);
    }
    Ok(substitute(alloc, &tree, &terms)?)
}

/// A term with types put in.
fn instantiated(alloc: Global, reader: &mut Reader, count: u32) -> Result<Tree, Fault> {
    let tree = reader.tree()?;
    let types = reader.next_types(alloc, count)?;
    Ok(instantiate_types(alloc, &tree, &types)?)
}

/// f of the term and the term.
fn doubled(alloc: Global, tree: Tree) -> Result<Tree, Fault> {
    let mut both = Trees::new(alloc);
    both.push(alloc, tree.try_copy(alloc)?)?;
    both.push(alloc, tree)?;
    let sym = Sym::User(Name::from_slice(alloc, b"f")?);
    Ok(make_node(alloc, sym, Tys::new(alloc), both)?)
}

fn large(alloc: Global, tree: Tree, word: &str, times: u32) -> Result<Tree, Fault> {
    let mut tree = tree;
    for _ in 0..times.min(TIMES_LIMIT) {
        tree = if word == "twice" {
            doubled(alloc, tree)?
        } else {
            make_bound(alloc, Binder::ForAll, Ty::Param(0), tree)?
        };
    }
    Ok(tree)
}

/// What a word with numbers makes.
fn operation(alloc: Global, reader: &mut Reader, word: &str) -> Result<Option<Tree>, Fault> {
    let Some((operation, numbers)) = word.split_once(':') else {
        return Ok(None);
    };
    match operation {
        "shift" => Ok(Some(shifted(alloc, &reader.tree()?, numbers)?)),
        "put" => Ok(Some(substituted(alloc, reader, number(numbers)?)?)),
        "retype" => Ok(Some(instantiated(alloc, reader, number(numbers)?)?)),
        "twice" | "under" => Ok(Some(large(alloc, reader.tree()?, operation, number(numbers)?)?)),
        _ => Ok(None),
    }
}

/// What the word makes of the terms behind it, where it is such a word.
pub fn make(alloc: Global, reader: &mut Reader, word: &str) -> Result<Option<Tree>, Fault> {
    if let Some(tree) = plain_form(alloc, reader, word)? {
        return Ok(Some(tree));
    }
    if let Some(tree) = joining_form(alloc, reader, word)? {
        return Ok(Some(tree));
    }
    if let Some(tree) = binding_form(alloc, reader, word)? {
        return Ok(Some(tree));
    }
    operation(alloc, reader, word)
}
