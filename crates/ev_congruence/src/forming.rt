//! Sequents and equations that are made.
ghost use Rattle.std.specs.Prelude.{◌≡◌, ◌≤◌, ◌+◌, ◌^◌, Some, take, map, length, reverse, IfOk};
ghost use Rattle.ev_terms.specs.Types.{type_list};
ghost use Rattle.ev_terms.specs.Term.{terms, node};
ghost use Rattle.ev_terms.specs.Measures.{highest, all_highest, loose, depths};
ghost use Rattle.ev_terms.specs.Symbols.{binds};
ghost use Rattle.ev_terms.specs.Substitution.{shift, shifts, fill, instance, type_inst, type_at};
ghost use Rattle.ev_forms.specs.Forms.{equation, vars_above};
ghost use Rattle.ev_typing.specs.declared.typing.Sequent.{Sequent};
ghost use Rattle.ev_typing.specs.Profiles.{Profile};
ghost use Rattle.ev_typing.specs.Env.{profile};
ghost use Rattle.ev_typing.specs.Sequents.{◌⊢◌};
ghost use Rattle.ev_typing.specs.Typing.{Typed};
ghost use Rattle.ev_kernel.specs.Row.{at_children};
ghost use Rattle.ev_kernel.specs.Derivable.{numbered};
ghost use Rattle.ev_congruence.specs.Growing.{concluded};

use crate::known::Derivation;
use ev_forms::{Connective, Relation, make_joined, make_related};
use ev_kernel::Line;
use ev_terms::{
    ListOf, NoMemory, Sym, Tree, Trees, TryCopy, Ty, Tys, binds, instantiate_type,
    instantiate_types, make_var, shift, substitute,
};
use ev_typing::{Env, Sequent, type_of, types_of_symbol};
use std::alloc::Global;

/// `<=>` between predicates, `=` between terms of another type.
pub fn make_equation(alloc: Global, ty: Ty, left: Tree, right: Tree) -> Result<Tree, NoMemory>
    ensures { IfOk result (λ t. t ≡ equation ty left right) }
{
    match ty {
        Ty::Prop => make_joined(alloc, Connective::Iff, left, right),
        _ => make_related(alloc, Relation::Equal, ty, left, right),
    }
}

/// The sequent with another goal.
pub fn with_goal(alloc: Global, sequent: &Sequent, goal: Tree) -> Result<Sequent, NoMemory>
    ensures { IfOk result (λ S. S ≡ (sequent.now ⊢ goal)) }
{
    Ok(Sequent {
        context: sequent.context.try_copy(alloc)?,
        hyps: sequent.hyps.try_copy(alloc)?,
        goal,
    })
}

/// The sequent that equates the terms, beside this one.
pub fn equated_beside(
    alloc: Global,
    sequent: &Sequent,
    ty: &Ty,
    left: &Tree,
    right: &Tree,
) -> Result<Sequent, NoMemory>
    ensures { IfOk result (λ S. S ≡ (sequent.now ⊢ equation ty.now left.now right.now)) }
{
    let ty = ty.try_copy(alloc)?;
    let left = left.try_copy(alloc)?;
    let right = right.try_copy(alloc)?;
    let goal = make_equation(alloc, ty, left, right)?;
    with_goal(alloc, sequent, goal)
}

/// The terms, shifted by one.
#[tactic(auto, using(ev_terms::proofs::Shifts::walk))]
pub(crate) fn shifted_by_one(alloc: Global, trees: &[Tree]) -> Result<Trees, NoMemory>
    requires { all_highest (shifts (terms trees.now) 0 1) ≤ 2 ^ 32 }
    ensures { IfOk result (λ ts. ts ≡ map (λ t. shift t 0 1) trees.now) }
{
    let mut all = Trees::new(alloc);
    for tree in trees {
        all.push(alloc, shift(alloc, tree, 0, 1)?)?;
    }
    Ok(all)
}

/// The sequent in the context of the symbol's children. Its goal stays as it is.
pub(crate) fn at_children(
    alloc: Global,
    sequent: &Sequent,
    sym: &Sym,
    types: &Tys,
) -> Result<Sequent, NoMemory>
    requires { all_highest (shifts (terms sequent.now.hyps) 0 1) ≤ 2 ^ 32 }
    ensures { IfOk result (λ S. S ≡ (at_children sequent.now sym.now types.now ⊢ sequent.now.goal)) }
{
    let goal = sequent.goal.try_copy(alloc)?;
    let mut context = sequent.context.try_copy(alloc)?;
    if binds(sym) == 0 {
        let hyps = sequent.hyps.try_copy(alloc)?;
        return Ok(Sequent {
            context,
            hyps,
            goal,
        });
    }
    match types.get(0) {
        None => {
            let hyps = sequent.hyps.try_copy(alloc)?;
            Ok(Sequent {
                context,
                hyps,
                goal,
            })
        }
        Some(ty) => {
            context.push(alloc, ty.try_copy(alloc)?)?;
            let hyps = shifted_by_one(alloc, sequent.hyps.as_slice())?;
            Ok(Sequent {
                context,
                hyps,
                goal,
            })
        }
    }
}

/// So many variables, of which the last is this one, the outermost first.
pub(crate) fn variables_above(alloc: Global, count: u32, inner: u32) -> Result<Trees, NoMemory>
    requires { count + inner ≤ 2 ^ 32 }
    ensures { IfOk result (λ ts. ts ≡ vars_above count inner) }
{
    let mut all = Trees::new(alloc);
    for i in 0..count {
        all.push(alloc, make_var(alloc, count - 1 - i + inner)?)?;
    }
    Ok(all)
}

/// The type of a typed term.
pub(crate) fn type_of_typed(
    alloc: Global,
    env: &Env,
    context: &Tys,
    tree: &Tree,
) -> Result<Ty, NoMemory>
    requires { (A : Ty) × Typed env.now (type_list context.now) tree.now A }
    ensures { IfOk result (λ A. Typed env.now (type_list context.now) tree.now A) }
{
    match type_of(alloc, env, context, tree)? {
        Some(ty) => Ok(ty),
        None => unreachable!(),
    }
}

/// The types of a symbol's children and its own, its type arguments put in.
#[derive(Drop)]
pub(crate) struct NodeTypes {
    pub args: ListOf<Ty>,
    pub result: Ty,
}

/// The types of a symbol that the environment has. Linear in the symbol's signature.
pub(crate) fn types_of_node(
    alloc: Global,
    env: &Env,
    sym: &Sym,
    types: &Tys,
) -> Result<NodeTypes, NoMemory>
    requires { (p : Profile) × (profile env.now sym.now ≡ Some p) }
    ensures { IfOk result (λ t. (p : Profile) → profile env.now sym.now ≡ Some p → (t.args ≡ map (type_inst (type_at types.now)) p.args) × (t.result ≡ type_inst (type_at types.now) p.result)) }
{
    match types_of_symbol(alloc, env, sym)? {
        Some(signature) => {
            let args = types_at(alloc, signature.args.as_slice(), types)?;
            let result = instantiate_type(alloc, &signature.result, types)?;
            Ok(NodeTypes { args, result })
        }
        None => unreachable!(),
    }
}

fn types_at(alloc: Global, list: &[Ty], types: &Tys) -> Result<ListOf<Ty>, NoMemory>
    ensures { IfOk result (λ all. all ≡ map (type_inst (type_at types.now)) list.now) }
{
    let mut all = ListOf::new(alloc);
    for ty in list {
        all.push(alloc, instantiate_type(alloc, ty, types)?)?;
    }
    Ok(all)
}

/// The line with a number, from 1.
fn numbered_line(lines: &Derivation, number: u128) -> &Line
    requires first { 1 ≤ number }
    requires last { number ≤ length lines.now }
    ensures { numbered lines.now number ≡ Some result.now }
{
    &lines.as_slice()[(number - 1) as usize]
}

/// The sequent of a line.
pub(crate) fn sequent_of(lines: &Derivation, number: u128) -> &Sequent
    requires { (S : Sequent) × (concluded lines.now number ≡ Some S) }
    ensures { concluded lines.now number ≡ Some result.now }
{
    &numbered_line(lines, number).sequent
}

/// The term with types put for its type parameters and arguments for its variables, that of the outermost first.
pub fn filled(alloc: Global, tree: &Tree, types: &Tys, arguments: &Trees) -> Result<Tree, NoMemory>
    requires { highest (fill (instance tree.now types.now) arguments.now) ≤ 2 ^ 32 }
    ensures { IfOk result (λ t. t ≡ fill (instance tree.now types.now) arguments.now) }
{
    let tree = instantiate_types(alloc, tree, types)?;
    let entries = reversed(alloc, arguments.as_slice())?;
    substitute(alloc, &tree, &entries)
}

fn reversed(alloc: Global, trees: &[Tree]) -> Result<Trees, NoMemory>
    ensures { IfOk result (λ ts. ts ≡ reverse trees.now) }
{
    let mut all = Trees::new(alloc);
    for i in 0..trees.len() {
        all.push(alloc, trees[trees.len() - 1 - i].try_copy(alloc)?)?;
    }
    Ok(all)
}
