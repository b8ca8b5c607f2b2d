//! Whether a variable occurs.
ghost use Rattle.std.specs.Prelude.{◌≡◌};
ghost use Rattle.ev_terms.specs.Term.{terms};
ghost use Rattle.ev_typing.specs.Occurs.{has_var, have_var};

use ev_forms::node_parts;
use ev_terms::{Tree, binds, loose};

/// Whether the variable occurs in the term. Parts whose loose variables are all smaller are not walked through.
#[cycle(occurs)]
#[tactic(auto, using(ev_wd::proofs::Occurrences::walk))]
pub(crate) fn has_var(tree: &Tree, variable: u64) -> bool
    ensures { result ≡ has_var variable tree.now }
{
    if loose(tree) <= variable {
        return false;
    }
    match node_parts(tree) {
        Some((sym, _, children)) => have_var(children, variable + u64::from(binds(sym))),
        None => match tree.var() {
            Some(i) => u64::from(i) == variable,
            None => false,
        },
    }
}

/// Whether it occurs in one of the terms.
#[cycle(occurs)]
#[tactic(auto, using(ev_wd::proofs::Occurrences::walk))]
fn have_var(trees: &[Tree], variable: u64) -> bool
    ensures { result ≡ have_var variable (terms trees.now) }
{
    for tree in trees {
        if has_var(tree, variable) {
            return true;
        }
    }
    false
}
