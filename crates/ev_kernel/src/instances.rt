//! Whether a term is a shift or a substitution of another, found by comparing them: nothing is built.
ghost use Rattle.std.specs.Prelude.{◌≡◌, ◌≤◌, ◌<◌, ◌^◌, ◌↔◌, None, map, reverse, IsTrue};
ghost use Rattle.ev_terms.specs.Term.{var, sym_of};
ghost use Rattle.ev_terms.specs.Measures.{loose};
ghost use Rattle.ev_terms.specs.Substitution.{shift, inst, lifts, entry, fill};

use ev_forms::node_parts;
use ev_terms::{Same, Tree, binds, loose, same};

/// Whether the term is the other one with its variables from `from` on raised by `by`. Linear in the term.
#[cycle(is_shift)]
#[tactic(auto, using(crate::proofs::Comparing::walk))]
pub(crate) fn is_shift(tree: &Tree, other: &Tree, from: u64, by: u64) -> bool
    requires { by ≤ 2 ^ 32 }
    ensures { IsTrue result ↔ (tree.now ≡ shift other.now from by) }
{
    if loose(other) <= from {
        return same(tree, other);
    }
    match node_parts(other) {
        None => is_raised(tree, other, from, by),
        Some((sym, types, children)) => match node_parts(tree) {
            None => false,
            Some((found, list, trees)) => {
                if !found.same(sym) {
                    return false;
                }
                if !list.same(types) {
                    return false;
                }
                are_shifts(trees, children, from + u64::from(binds(sym)), by)
            }
        },
    }
}

/// Whether the terms are the other ones, each raised so.
#[cycle(is_shift)]
#[tactic(auto, using(crate::proofs::Comparing::walk))]
fn are_shifts(trees: &[Tree], others: &[Tree], from: u64, by: u64) -> bool
    requires { by ≤ 2 ^ 32 }
    ensures { IsTrue result ↔ (trees.now ≡ map (λ t. shift t from by) others.now) }
{
    if trees.len() != others.len() {
        return false;
    }
    for i in 0..trees.len() {
        if !is_shift(&trees[i], &others[i], from, by) {
            return false;
        }
    }
    true
}

/// Whether the term is the variable that the other one is, raised.
#[tactic(auto, using(crate::proofs::Comparing::leaves))]
fn is_raised(tree: &Tree, other: &Tree, from: u64, by: u64) -> bool
    requires small { by ≤ 2 ^ 32 }
    requires leaf { sym_of other.now ≡ None }
    requires raised { from < loose other.now }
    ensures { IsTrue result ↔ (tree.now ≡ shift other.now from by) }
{
    let Some(i) = other.var() else {
        return false;
    };
    match tree.var() {
        Some(found) => u64::from(found) == u64::from(i) + by,
        None => false,
    }
}

/// Whether the terms are the other ones, each shifted by one.
pub(crate) fn are_shifted(trees: &[Tree], others: &[Tree]) -> bool
    ensures { IsTrue result ↔ (trees.now ≡ map (λ t. shift t 0 1) others.now) }
{
    are_shifts(trees, others, 0, 1)
}

/// Whether the term is the pattern with the arguments put in, the first one for the outermost variable. Linear in the term.
pub(crate) fn is_filled(tree: &Tree, pattern: &Tree, arguments: &[Tree]) -> bool
    ensures { IsTrue result ↔ (tree.now ≡ fill pattern.now arguments.now) }
{
    is_filled_under(tree, pattern, arguments, 0)
}

/// The same under so many binders, whose variables stay.
#[cycle(is_filled)]
#[tactic(auto, using(crate::proofs::Comparing::walk))]
fn is_filled_under(tree: &Tree, pattern: &Tree, arguments: &[Tree], depth: u64) -> bool
    ensures { IsTrue result ↔ (tree.now ≡ inst (lifts depth (entry (reverse arguments.now))) pattern.now) }
{
    if loose(pattern) <= depth {
        return same(tree, pattern);
    }
    match node_parts(pattern) {
        None => is_put(tree, pattern, arguments, depth),
        Some((sym, types, children)) => match node_parts(tree) {
            None => false,
            Some((found, list, trees)) => {
                if !found.same(sym) {
                    return false;
                }
                if !list.same(types) {
                    return false;
                }
                are_filled(trees, children, arguments, depth + u64::from(binds(sym)))
            }
        },
    }
}

#[cycle(is_filled)]
#[tactic(auto, using(crate::proofs::Comparing::walk))]
fn are_filled(trees: &[Tree], patterns: &[Tree], arguments: &[Tree], depth: u64) -> bool
    ensures { IsTrue result ↔ (trees.now ≡ map (inst (lifts depth (entry (reverse arguments.now)))) patterns.now) }
{
    if trees.len() != patterns.len() {
        return false;
    }
    for i in 0..trees.len() {
        if !is_filled_under(&trees[i], &patterns[i], arguments, depth) {
            return false;
        }
    }
    true
}

/// Whether the term is what stands for the variable that the pattern is.
#[tactic(auto, using(crate::proofs::Comparing::leaves))]
fn is_put(tree: &Tree, pattern: &Tree, arguments: &[Tree], depth: u64) -> bool
    requires leaf { sym_of pattern.now ≡ None }
    requires outer { depth < loose pattern.now }
    ensures { IsTrue result ↔ (tree.now ≡ inst (lifts depth (entry (reverse arguments.now))) pattern.now) }
{
    let Some(i) = pattern.var() else {
        return false;
    };
    let at = (u64::from(i) - depth) as usize;
    if at < arguments.len() {
        is_shift(tree, &arguments[arguments.len() - 1 - at], 0, depth)
    } else {
        is_variable(tree, i - arguments.len() as u32)
    }
}

fn is_variable(tree: &Tree, i: u32) -> bool
    ensures { IsTrue result ↔ (tree.now ≡ var i) }
{
    match tree.var() {
        Some(found) => found == i,
        None => false,
    }
}
