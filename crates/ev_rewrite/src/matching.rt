//! Matching of patterns.
ghost use Rattle.std.specs.Prelude.{◌≡◌, ◌≤◌, ◌<◌, ◌+◌, ◌-◌, ◌^◌, ◌↔◌, Some, None, length, IsTrue, IfOk};
ghost use Rattle.ev_terms.specs.Term.{var, node, terms, sym_of, var_of};
ghost use Rattle.ev_terms.specs.Measures.{loose, all_loose};
ghost use Rattle.ev_rewrite.specs.Matching.{IsMatchAnswer};
ghost use Rattle.ev_rewrite.specs.inner.Taken.{TermTaken, TermsTaken};

use crate::lowering::lower;
use crate::slots::{Found, empty_slots, put};
use crate::type_matching::match_types;
use ev_terms::{ListOf, NoMemory, Same, Sym, Tree, Ty, Tys, binds, loose, same};
use std::alloc::Global;

/// What matching found: a type for each parameter and a term for each variable, that of the outermost variable first, where the pattern
/// determines one.
#[derive(Drop)]
pub struct Inst {
    pub types: ListOf<Option<Ty>>,
    pub terms: ListOf<Option<Tree>>,
}

/// The types and terms under which the pattern, with so many parameters and variables, is the tree, or none where it is under none.
/// Linear in the pattern, in the tree and in what is found.
pub fn match_pattern(
    alloc: Global,
    pattern: &Tree,
    params: u32,
    metas: u32,
    tree: &Tree,
) -> Result<Option<Inst>, NoMemory>
    requires { loose pattern.now ≤ metas }
    ensures { IfOk result (IsMatchAnswer params metas pattern.now tree.now) }
{
    let mut found = Found {
        types: empty_slots(alloc, params)?,
        terms: empty_slots(alloc, metas)?,
    };
    if !match_tree(alloc, pattern, 0, tree, &mut found)? {
        return Ok(None);
    }
    Ok(Some(Inst {
        types: ListOf::from_vec(found.types),
        terms: ListOf::from_vec(found.terms),
    }))
}

/// Whether types and terms make the part of a pattern, under so many of its binders, the tree and agree with what is found, to which
/// those that it determines are added.
#[cycle(match_tree)]
fn match_tree(
    alloc: Global,
    pattern: &Tree,
    depth: u64,
    tree: &Tree,
    found: &mut Found,
) -> Result<bool, NoMemory>
    requires { loose pattern.now ≤ depth + length found.old.terms.items }
    ensures { IfOk result (TermTaken pattern.now depth tree.now found.old found.new) }
{
    let _small = loose(pattern);
    match pattern.sym() {
        None => match_leaf(alloc, pattern, depth, tree, found),
        Some(sym) => match pattern.types() {
            None => unreachable!(),
            Some(types) => match_node(alloc, sym, types, pattern.children(), depth, tree, found),
        },
    }
}

#[cycle(match_tree)]
fn match_node(
    alloc: Global,
    sym: &Sym,
    types: &Tys,
    children: &[Tree],
    depth: u64,
    tree: &Tree,
    found: &mut Found,
) -> Result<bool, NoMemory>
    requires small { loose (node sym.now types.now (terms children.now)) ≤ 2 ^ 32 }
    requires within { loose (node sym.now types.now (terms children.now)) ≤ depth + length found.old.terms.items }
    ensures { IfOk result (TermTaken (node sym.now types.now (terms children.now)) depth tree.now found.old found.new) }
{
    let Some(other) = tree.sym() else {
        return Ok(false);
    };
    if !sym.same(other) {
        return Ok(false);
    }
    let Some(others) = tree.types() else {
        unreachable!()
    };
    if !match_types(alloc, types, others, found)? {
        return Ok(false);
    }
    let under = depth.saturating_add(u64::from(binds(sym)));
    match_all(alloc, children, under, tree.children(), found)
}

#[cycle(match_tree)]
fn match_all(
    alloc: Global,
    patterns: &[Tree],
    depth: u64,
    trees: &[Tree],
    found: &mut Found,
) -> Result<bool, NoMemory>
    requires { all_loose (terms patterns.now) ≤ depth + length found.old.terms.items }
    ensures { IfOk result (TermsTaken (terms patterns.now) depth (terms trees.now) found.old found.new) }
{
    if patterns.len() != trees.len() {
        return Ok(false);
    }
    for i in 0..patterns.len() {
        if !match_tree(alloc, &patterns[i], depth, &trees[i], found)? {
            return Ok(false);
        }
    }
    Ok(true)
}

/// The same for a variable or a literal.
fn match_leaf(
    alloc: Global,
    pattern: &Tree,
    depth: u64,
    tree: &Tree,
    found: &mut Found,
) -> Result<bool, NoMemory>
    requires leaf { sym_of pattern.now ≡ None }
    requires within { loose pattern.now ≤ depth + length found.old.terms.items }
    ensures { IfOk result (TermTaken pattern.now depth tree.now found.old found.new) }
{
    match pattern.var() {
        Some(i) => match_variable(alloc, i, depth, tree, found),
        None => Ok(same(pattern, tree)),
    }
}

/// The same for a variable, which is one of the pattern's or is bound by one of its binders.
fn match_variable(
    alloc: Global,
    i: u32,
    depth: u64,
    tree: &Tree,
    found: &mut Found,
) -> Result<bool, NoMemory>
    requires { i < depth + length found.old.terms.items }
    ensures { IfOk result (TermTaken (var i) depth tree.now found.old found.new) }
{
    if u64::from(i) < depth {
        return Ok(is_variable(tree, i));
    }
    let depth = depth as u32;
    match lower(alloc, tree, depth)? {
        None => Ok(false),
        Some(term) => {
            let at = found.terms.len() - 1 - (i - depth) as usize;
            Ok(put(&mut found.terms, at, term))
        }
    }
}

fn is_variable(tree: &Tree, i: u32) -> bool
    ensures { IsTrue result ↔ (var_of tree.now ≡ Some i) }
{
    match tree.var() {
        Some(j) => i == j,
        None => false,
    }
}
