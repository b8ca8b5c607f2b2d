//! Types, heads of operators and constants, and datatypes, as elements write them.
ghost use Rattle.std.specs.Prelude.{◌≡◌, ◌++◌, ◌∷◌, ◌==◌, [], ℕ, nat_eq, map, option_map, position, IfOk};
ghost use Rattle.indexmap.specs.IndexMap.{get};
ghost use Rattle.std.specs.List.{range_with_len};
ghost use Rattle.ev_terms.specs.declared.types.Ty.{Param};
ghost use Rattle.ev_terms.specs.Substitution.{instance};
ghost use Rattle.ev_typing.specs.TypeLists.{types};
ghost use Rattle.ev_elab.specs.Types.{if_proper, read_type, read_arg, read_args, read_result, read_head, var_types, own_number, own_list, head_ids, head_types, signature_of, own_var};

use ev_resolve::{FormulaNames, resolve_type};
use ev_rules::params_of;
use ev_syntax::RawType;
use ev_terms::{
    Ids, Name, NoMemory, Tree, TryCopy, Ty, Tys, instantiate_list, instantiate_type,
    instantiate_types,
};
use ev_theory_text::{RawArg, RawHead, RawResult};
use ev_typing::{Env, Signature, Var, Vars, is_proper};
use indexmap::IndexMap;
use std::alloc::Global;

/// The head of an operator or constant, with the types of its arguments and of the whole, `Prop` for a predicate, by the numbers of the
/// theory's type parameters.
#[derive(Drop)]
pub struct Head {
    pub name: Name,
    pub vars: Vars,
    pub result: Ty,
}

/// The type, if it is proper.
#[tactic(auto, using(crate::proofs::Heading::proper))]
fn if_proper(env: &Env, ty: Ty) -> Option<Ty>
    ensures { result ≡ if_proper env.now ty }
{
    if is_proper(env, &ty) { Some(ty) } else { None }
}

/// The proper type that is written, by the numbers of the theory's parameters.
pub(crate) fn read_type(
    alloc: Global,
    names: &FormulaNames<'_>,
    written: &RawType,
) -> Result<Option<Ty>, NoMemory>
    ensures { IfOk result (λ o. o ≡ read_type names.now.0 names.now.1 written.now) }
{
    match resolve_type(alloc, names, written)? {
        Some(ty) => Ok(if_proper(names.env(), ty)),
        None => Ok(None),
    }
}

fn read_arg(alloc: Global, names: &FormulaNames<'_>, arg: &RawArg) -> Result<Option<Var>, NoMemory>
    ensures { IfOk result (λ o. o ≡ read_arg names.now.0 names.now.1 arg.now) }
{
    match read_type(alloc, names, &arg.written)? {
        Some(ty) => Ok(Some(Var {
            name: arg.name.try_copy(alloc)?,
            ty,
        })),
        None => Ok(None),
    }
}

/// The arguments with their types, where each type is proper.
#[tactic(auto, using(crate::proofs::Heading::lists))]
pub(crate) fn read_args(
    alloc: Global,
    names: &FormulaNames<'_>,
    args: &[RawArg],
) -> Result<Option<Vars>, NoMemory>
    ensures { IfOk result (λ o. o ≡ read_args names.now.0 names.now.1 args.now) }
{
    let mut vars = Vars::new(alloc);
    for arg in args {
        let Some(var) = read_arg(alloc, names, arg)? else {
            return Ok(None)
        };
        vars.push(alloc, var)?;
    }
    Ok(Some(vars))
}

fn read_result(
    alloc: Global,
    names: &FormulaNames<'_>,
    gives: &RawResult,
) -> Result<Option<Ty>, NoMemory>
    ensures { IfOk result (λ o. o ≡ read_result names.now.0 names.now.1 gives.now) }
{
    match gives {
        RawResult::Predicate => Ok(Some(Ty::Prop)),
        RawResult::Typed(ty) => read_type(alloc, names, ty),
    }
}

/// The head that is written, where its types are proper.
pub(crate) fn read_head(
    alloc: Global,
    names: &FormulaNames<'_>,
    head: &RawHead,
) -> Result<Option<Head>, NoMemory>
    ensures { IfOk result (λ o. o ≡ read_head names.now.0 names.now.1 head.now) }
{
    let Some(vars) = read_args(alloc, names, head.args.as_slice())? else {
        return Ok(None)
    };
    let Some(result) = read_result(alloc, names, &head.gives)? else {
        return Ok(None)
    };
    let name = head.name.try_copy(alloc)?;
    Ok(Some(Head { name, vars, result }))
}

/// The types of variables.
#[tactic(auto, using(crate::proofs::Heading::vectors))]
fn var_types(alloc: Global, vars: &[Var]) -> Result<Vec<Ty>, NoMemory>
    ensures { IfOk result (λ all. all.items ≡ var_types vars.now) }
{
    let mut all = Vec::new(alloc);
    for var in vars {
        all.push(var.ty.try_copy(alloc)?)?;
    }
    Ok(all)
}

/// The same as a list of types.
#[tactic(auto, using(crate::proofs::Heading::vectors))]
pub(crate) fn list_of_types(alloc: Global, vars: &[Var]) -> Result<Tys, NoMemory>
    ensures { IfOk result (λ all. all ≡ types (var_types vars.now)) }
{
    Tys::from_vec(alloc, var_types(alloc, vars)?)
}

/// The types of a head's arguments, and its own.
#[tactic(auto, using(crate::proofs::Heading::vectors))]
fn all_types(alloc: Global, head: &Head) -> Result<Tys, NoMemory>
    ensures { IfOk result (λ all. all ≡ types (var_types head.now.vars ++ head.now.result ∷ [])) }
{
    let mut all = var_types(alloc, head.vars.as_slice())?;
    all.push(head.result.try_copy(alloc)?)?;
    Tys::from_vec(alloc, all)
}

/// The type parameters of an operator or constant, in the theory's order.
fn head_ids(alloc: Global, head: &Head) -> Result<Ids, NoMemory>
    ensures { IfOk result (λ ids. ids ≡ head_ids head.now) }
{
    let all = all_types(alloc, head)?;
    params_of(alloc, &[], &all)
}

/// The numbers of an element's own parameters, each by the theory's number, that of its first place.
fn own_numbers(alloc: Global, ids: &[u32]) -> Result<IndexMap<u32, u32>, NoMemory>
    ensures { IfOk result (λ numbers. (i : ℕ) → get nat_eq numbers i ≡ position (λ j. j == i) ids.now) }
{
    let mut numbers = IndexMap::new(alloc);
    let mut left = ids.len();
    'ids: while left > 0 {
        left -= 1;
        let Ok(number) = u32::try_from(left) else {
            return Err(NoMemory)
        };
        numbers.insert(ids[left], number)?;
    }
    Ok(numbers)
}

/// The element's own number of a parameter, or one behind its own numbers. A number that 32 bits do not hold has no room, and is answered
/// as want of memory.
#[tactic(auto, using(crate::proofs::Heading::numbers))]
fn own_number(numbers: &IndexMap<u32, u32>, ids: &[u32], i: usize) -> Result<u32, NoMemory>
    requires { (i : ℕ) → get nat_eq numbers.now i ≡ position (λ j. j == i) ids.now }
    ensures { IfOk result (λ k. k ≡ own_number ids.now i) }
{
    let Ok(known) = u32::try_from(i) else {
        return Err(NoMemory)
    };
    match numbers.get(&known) {
        Some(number) => Ok(*number),
        None => match u32::try_from(ids.len().saturating_add(i)) {
            Ok(number) => Ok(number),
            Err(_) => Err(NoMemory),
        },
    }
}

/// The theory's parameters, as many as it has, by an element's own numbers.
#[tactic(auto, using(crate::proofs::Heading::numbers))]
pub(crate) fn own_list(alloc: Global, count: usize, ids: &[u32]) -> Result<Tys, NoMemory>
    ensures { IfOk result (λ list. list ≡ own_list count ids.now) }
{
    Tys::from_vec(alloc, own_params(alloc, count, ids)?)
}

fn own_params(alloc: Global, count: usize, ids: &[u32]) -> Result<Vec<Ty>, NoMemory>
    ensures { IfOk result (λ list. list.items ≡ map (λ i. Param (own_number ids.now i)) (range_with_len 0 count)) }
{
    let numbers = own_numbers(alloc, ids)?;
    let mut list = Vec::new(alloc);
    for i in 0..count {
        list.push(Ty::Param(own_number(&numbers, ids, i)?))?;
    }
    Ok(list)
}

/// The theory's parameters, as many as it has, by the own numbers of an operator or constant.
pub(crate) fn head_types(alloc: Global, count: usize, head: &Head) -> Result<Tys, NoMemory>
    ensures { IfOk result (λ list. list ≡ head_types count head.now) }
{
    let ids = head_ids(alloc, head)?;
    own_list(alloc, count, ids.as_slice())
}

/// The signature by its own numbers.
pub(crate) fn signature_of(alloc: Global, count: usize, head: &Head) -> Result<Signature, NoMemory>
    ensures { IfOk result (λ sig. sig ≡ signature_of count head.now) }
{
    let ids = head_ids(alloc, head)?;
    let own = own_list(alloc, count, ids.as_slice())?;
    let args = list_of_types(alloc, head.vars.as_slice())?;
    let Ok(params) = u32::try_from(ids.len()) else {
        return Err(NoMemory)
    };
    Ok(Signature {
        name: head.name.try_copy(alloc)?,
        params,
        args: instantiate_list(alloc, &args, &own)?,
        result: instantiate_type(alloc, &head.result, &own)?,
    })
}

/// A term by the numbers of the operator or constant whose own list of the theory's parameters this is.
pub(crate) fn condition_by_own(
    alloc: Global,
    own: &Tys,
    condition: &Option<Tree>,
) -> Result<Option<Tree>, NoMemory>
    ensures { IfOk result (λ o. o ≡ option_map (λ t. instance t own.now) condition.now) }
{
    match condition {
        Some(tree) => Ok(Some(instantiate_types(alloc, tree, own)?)),
        None => Ok(None),
    }
}

fn own_var(alloc: Global, own: &Tys, var: &Var) -> Result<Var, NoMemory>
    ensures { IfOk result (λ v. v ≡ own_var own.now var.now) }
{
    Ok(Var {
        name: var.name.try_copy(alloc)?,
        ty: instantiate_type(alloc, &var.ty, own)?,
    })
}

#[tactic(auto, using(crate::proofs::Heading::vectors))]
fn own_vars(alloc: Global, own: &Tys, vars: &[Var]) -> Result<Vars, NoMemory>
    ensures { IfOk result (λ all. all ≡ map (own_var own.now) vars.now) }
{
    let mut all = Vars::new(alloc);
    for var in vars {
        all.push(alloc, own_var(alloc, own, var)?)?;
    }
    Ok(all)
}
