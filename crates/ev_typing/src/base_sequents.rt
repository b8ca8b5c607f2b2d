//! Well-typed sequents, and those without direct operators. Source: Métayer and Voisin, The Event-B Mathematical Language; Butler and
//! Maamria, Practical Theory Extension in Event-B.
ghost use Rattle.std.specs.Prelude.{◌≡◌, ◌↔◌, map, IsTrue, IfOk, OnOk};
ghost use Rattle.std.specs.List.{AllByRecursion};
ghost use Rattle.ev_terms.specs.Types.{type_list};
ghost use Rattle.ev_terms.specs.Term.{terms};
ghost use Rattle.ev_terms.specs.Substitution.{type_inst, type_at};
ghost use Rattle.ev_terms.specs.declared.types.Ty.{Prop};
ghost use Rattle.ev_typing.specs.Typing.{Typed, AreTyped, IsPredicate, IsSequent};
ghost use Rattle.ev_typing.specs.Occurs.{is_direct, IsPlain, ArePlain};
ghost use Rattle.ev_typing.specs.BaseSequents.{is_direct_entry, IsBaseSequent, WholeKeepsBaseSequents};

use crate::checking::{all_fit, are_proper, fits};
use crate::environment::Env;
use crate::instances::types_at;
use crate::typing::{Entry, Sequent};
use ev_terms::{NoMemory, Sym, Tree, Ty, Tys};
use std::alloc::Global;

/// Whether the symbol is a direct operator, in constant time.
#[tactic(auto, using(crate::proofs::BaseSequents::direct))]
fn is_direct(env: &Env, sym: &Sym) -> bool
    ensures { result ≡ is_direct env.now sym.now }
{
    match sym {
        Sym::Base(_) => false,
        Sym::User(name) => match env.symbol(name) {
            Some(entry) => is_direct_entry(entry),
            None => false,
        },
    }
}

fn is_direct_entry(entry: &Entry) -> bool
    ensures { result ≡ is_direct_entry entry.now }
{
    match entry {
        Entry::Direct(_, _, _) => true,
        Entry::Data(_) | Entry::Constant(_, _) | Entry::Recursive(_, _, _, _) => false,
    }
}

/// Whether no direct operator occurs in the term. Linear in the term.
#[cycle(is_plain)]
#[tactic(auto, using(crate::proofs::BaseSequents::walk))]
pub fn is_plain(env: &Env, tree: &Tree) -> bool
    ensures { IsTrue result ↔ IsPlain env.now tree.now }
{
    match tree.sym() {
        None => true,
        Some(sym) => {
            if is_direct(env, sym) {
                return false;
            }
            are_plain(env, tree.children())
        }
    }
}

/// The same of each of the terms.
#[cycle(is_plain)]
#[tactic(auto, using(crate::proofs::BaseSequents::walk))]
fn are_plain(env: &Env, trees: &[Tree]) -> bool
    ensures { IsTrue result ↔ ArePlain env.now (terms trees.now) }
{
    for tree in trees {
        if !is_plain(env, tree) {
            return false;
        }
    }
    true
}

/// Whether the term is a predicate in the context of these variables.
fn is_predicate(
    alloc: Global,
    env: &Env,
    context: &mut Vec<Ty>,
    tree: &Tree,
) -> Result<bool, NoMemory>
    ensures typed { IfOk result (λ b. IsTrue b ↔ Typed env.now context.old.items tree.now Prop) }
    ensures kept { OnOk result (context.new.items ≡ context.old.items) }
{
    let prop = Ty::Prop;
    fits(alloc, env, context, tree, &prop)
}

/// Whether each of the terms is a predicate in the context of these variables.
#[tactic(auto, using(crate::proofs::BaseSequents::lists))]
fn are_predicates(
    alloc: Global,
    env: &Env,
    context: &mut Vec<Ty>,
    trees: &[Tree],
) -> Result<bool, NoMemory>
    ensures typed { IfOk result (λ b. IsTrue b ↔ AllByRecursion (IsPredicate env.now context.old.items) trees.now) }
    ensures kept { OnOk result (context.new.items ≡ context.old.items) }
{
    for tree in trees {
        if !is_predicate(alloc, env, context, tree)? {
            return Ok(false);
        }
    }
    Ok(true)
}

/// Whether the types of the context are proper, and hypotheses and goal are predicates in it. Linear in the sequent.
pub fn is_sequent(alloc: Global, env: &Env, sequent: &Sequent) -> Result<bool, NoMemory>
    ensures { IfOk result (λ b. IsTrue b ↔ IsSequent env.now sequent.now) }
{
    if !are_proper(env, &sequent.context) {
        return Ok(false);
    }
    let mut variables = sequent.context.to_vec(alloc)?;
    if !are_predicates(alloc, env, &mut variables, sequent.hyps.as_slice())? {
        return Ok(false);
    }
    is_predicate(alloc, env, &mut variables, &sequent.goal)
}

/// Whether the sequent is well typed and no direct operator occurs in it. Linear in the sequent.
#[tactic(auto, using(crate::proofs::BaseSequents::lists))]
pub fn is_base_sequent(alloc: Global, env: &Env, sequent: &Sequent) -> Result<bool, NoMemory>
    ensures { IfOk result (λ b. IsTrue b ↔ IsBaseSequent env.now sequent.now) }
{
    if !are_plain(env, sequent.hyps.as_slice()) || !is_plain(env, &sequent.goal) {
        return Ok(false);
    }
    is_sequent(alloc, env, sequent)
}

/// What is a base sequent over a part of an environment is one over the whole, where no name is declared twice.
pub fn wholes_keep_base_sequents()
    ensures { WholeKeepsBaseSequents }
{}

/// Whether the term has the type in the context.
pub fn has_type(
    alloc: Global,
    env: &Env,
    context: &Tys,
    tree: &Tree,
    ty: &Ty,
) -> Result<bool, NoMemory>
    ensures { IfOk result (λ b. IsTrue b ↔ Typed env.now (type_list context.now) tree.now ty.now) }
{
    let mut variables = context.to_vec(alloc)?;
    fits(alloc, env, &mut variables, tree, ty)
}

/// Whether the terms have these types in the context, one each, with types put for the parameters of the list.
pub fn have_types_at(
    alloc: Global,
    env: &Env,
    context: &Tys,
    trees: &[Tree],
    list: &Tys,
    types: &Tys,
) -> Result<bool, NoMemory>
    ensures { IfOk result (λ b. IsTrue b ↔ AreTyped env.now (type_list context.now) (terms trees.now) (map (type_inst (type_at types.now)) (type_list list.now))) }
{
    let mut variables = context.to_vec(alloc)?;
    let expected = types_at(alloc, list, types)?;
    all_fit(alloc, env, &mut variables, trees, expected.as_slice())
}
