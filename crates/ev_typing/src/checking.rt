ghost use Rattle.std.specs.Prelude.{◌≡◌, ◌↔◌, ◌++◌, None, IsTrue, IfOk, OnOk};
ghost use Rattle.std.specs.Option.{option_copied};
ghost use Rattle.ev_terms.specs.Types.{type_list};
ghost use Rattle.ev_terms.specs.Term.{node, terms, sym_of};
ghost use Rattle.ev_typing.specs.Env.{Env};
ghost use Rattle.ev_typing.specs.Typing.{IsProper, AreProper, Typed, AreTyped, var_type, inside};
ghost use Rattle.ev_typing.specs.Proper.{is_proper, are_proper};
ghost use Rattle.ev_typing.specs.Typing.{IsTypeOf};

use crate::environment::Env;
use crate::instances::{has_count, instance_of};
use ev_terms::{NoMemory, Same, Sym, Tree, TryCopy, Ty, Tys, binds};
use std::alloc::Global;

/// Whether a type has no `Prop` in it and names only datatypes of the environment, each with its number of types. Linear in the type.
#[tactic(auto, using(crate::proofs::Checks::proper_types))]
pub fn is_proper(env: &Env, ty: &Ty) -> bool
    ensures { IsTrue result ↔ IsProper env.now ty.now }
{
    test_type(env, ty)
}

/// The same of each type of a list.
#[tactic(auto, using(crate::proofs::Checks::proper_types))]
pub fn are_proper(env: &Env, types: &Tys) -> bool
    ensures { IsTrue result ↔ AreProper env.now types.now }
{
    test_types(env, types)
}

#[cycle(proper)]
#[tactic(auto, using(crate::proofs::Checks::tests))]
fn test_type(env: &Env, ty: &Ty) -> bool
    ensures { result ≡ is_proper env.now ty.now }
{
    match ty {
        Ty::Int | Ty::Bool | Ty::Param(_) => true,
        Ty::Prop => false,
        Ty::Pow(a) => test_type(env, a.get()),
        Ty::Prod(a, b) => test_type(env, a.get()) && test_type(env, b.get()),
        Ty::Data(name, types) => match env.datatype(name) {
            Some(data) => has_count(types, data.params) && test_types(env, types),
            None => false,
        },
    }
}

#[cycle(proper)]
#[tactic(auto, using(crate::proofs::Checks::tests))]
fn test_types(env: &Env, types: &Tys) -> bool
    ensures { result ≡ are_proper env.now types.now }
{
    let mut left = types;
    while let Tys::More(ty, rest) = left {
        if !test_type(env, ty.get()) {
            return false;
        }
        left = rest.get();
    }
    true
}

/// The type of a term in a context, whose first type is that of the outermost variable; `None` exactly where the term has none. Linear
/// in the term and the context. Source: Métayer and Voisin, The Event-B Mathematical Language.
pub fn type_of(alloc: Global, env: &Env, context: &Tys, tree: &Tree) -> Result<Option<Ty>, NoMemory>
    ensures { IfOk result (IsTypeOf env.now (type_list context.now) tree.now) }
{
    let mut variables = context.to_vec(alloc)?;
    type_in(alloc, env, &mut variables, tree)
}

/// The type in the context of these variables, the outermost first.
#[cycle(type_in)]
#[tactic(auto, using(crate::proofs::Checks::walk))]
fn type_in(
    alloc: Global,
    env: &Env,
    context: &mut Vec<Ty>,
    tree: &Tree,
) -> Result<Option<Ty>, NoMemory>
    ensures typed { IfOk result (IsTypeOf env.now context.old.items tree.now) }
    ensures kept { OnOk result (context.new.items ≡ context.old.items) }
{
    match tree.sym() {
        None => leaf_type(alloc, context.as_slice(), tree),
        Some(sym) => match tree.types() {
            Some(types) => node_type(alloc, env, context, sym, types, tree.children()),
            None => unreachable!(),
        },
    }
}

#[tactic(auto, using(crate::proofs::Checks::leaves))]
fn leaf_type(alloc: Global, context: &[Ty], tree: &Tree) -> Result<Option<Ty>, NoMemory>
    requires { sym_of tree.now ≡ None }
    ensures { IfOk result (λ o. (env : Env) → IsTypeOf env context.now tree.now o) }
{
    if let Some(i) = tree.var() {
        return match variable_type(context, i) {
            Some(ty) => Ok(Some(ty.try_copy(alloc)?)),
            None => Ok(None),
        };
    }
    match tree.lit() {
        Some(_) => Ok(Some(Ty::Int)),
        None => unreachable!(),
    }
}

#[tactic(auto, using(crate::proofs::Checks::variables))]
fn variable_type(context: &[Ty], i: u32) -> Option<&Ty>
    ensures { option_copied result ≡ var_type context.now i }
{
    let i = i as usize;
    if i < context.len() {
        Some(&context[context.len() - 1 - i])
    } else {
        None
    }
}

#[cycle(type_in)]
#[tactic(auto, using(crate::proofs::Checks::walk))]
fn node_type(
    alloc: Global,
    env: &Env,
    context: &mut Vec<Ty>,
    sym: &Sym,
    types: &Tys,
    children: &[Tree],
) -> Result<Option<Ty>, NoMemory>
    ensures typed { IfOk result (IsTypeOf env.now context.old.items (node sym.now types.now (terms children.now))) }
    ensures kept { OnOk result (context.new.items ≡ context.old.items) }
{
    let Some(instance) = instance_of(alloc, env, sym, types)? else {
        return Ok(None);
    };
    if !are_proper(env, types) {
        return Ok(None);
    }
    let args = instance.args.as_slice();
    if !fit_inside(alloc, env, context, sym, types, children, args)? {
        return Ok(None);
    }
    Ok(Some(instance.result))
}

/// Whether the children of a symbol have these types, one each, under the variable that the symbol may bind.
#[cycle(type_in)]
#[tactic(auto, using(crate::proofs::Checks::walk))]
fn fit_inside(
    alloc: Global,
    env: &Env,
    context: &mut Vec<Ty>,
    sym: &Sym,
    types: &Tys,
    children: &[Tree],
    args: &[Ty],
) -> Result<bool, NoMemory>
    ensures fit { IfOk result (λ b. IsTrue b ↔ AreTyped env.now (inside context.old.items sym.now types.now) (terms children.now) args.now) }
    ensures kept { OnOk result (context.new.items ≡ context.old.items) }
{
    if binds(sym) == 0 {
        return all_fit(alloc, env, context, children, args);
    }
    match types.get(0) {
        None => all_fit(alloc, env, context, children, args),
        Some(ty) => {
            context.push(ty.try_copy(alloc)?)?;
            let fit = all_fit(alloc, env, context, children, args)?;
            let _bound = context.pop();
            Ok(fit)
        }
    }
}

#[cycle(type_in)]
#[tactic(auto, using(crate::proofs::Checks::walk))]
pub(crate) fn all_fit(
    alloc: Global,
    env: &Env,
    context: &mut Vec<Ty>,
    children: &[Tree],
    args: &[Ty],
) -> Result<bool, NoMemory>
    ensures fit { IfOk result (λ b. IsTrue b ↔ AreTyped env.now context.old.items (terms children.now) args.now) }
    ensures kept { OnOk result (context.new.items ≡ context.old.items) }
{
    if children.len() != args.len() {
        return Ok(false);
    }
    for i in 0..children.len() {
        if !fits(alloc, env, context, &children[i], &args[i])? {
            return Ok(false);
        }
    }
    Ok(true)
}

#[cycle(type_in)]
#[tactic(auto, using(crate::proofs::Checks::walk))]
pub(crate) fn fits(
    alloc: Global,
    env: &Env,
    context: &mut Vec<Ty>,
    tree: &Tree,
    ty: &Ty,
) -> Result<bool, NoMemory>
    ensures fit { IfOk result (λ b. IsTrue b ↔ Typed env.now context.old.items tree.now ty.now) }
    ensures kept { OnOk result (context.new.items ≡ context.old.items) }
{
    match type_in(alloc, env, context, tree)? {
        Some(found) => Ok(found.same(ty)),
        None => Ok(false),
    }
}
