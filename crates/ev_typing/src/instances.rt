ghost use Rattle.std.specs.Prelude.{◌≡◌, ◌==◌, map, length, option_map, IfOk};
ghost use Rattle.std.specs.Option.{option_and_then};
ghost use Rattle.ev_terms.specs.Types.{pow, prod, type_list};
ghost use Rattle.ev_terms.specs.Substitution.{type_inst, type_at};
ghost use Rattle.ev_typing.specs.declared.typing.Var.{Var};
ghost use Rattle.ev_typing.specs.Table.{relation, form_type, children_types, row_profile};
ghost use Rattle.ev_typing.specs.Env.{find_symbol, con_profile, des_profile, signature_profile, symbol_profile, own_type};
ghost use Rattle.ev_typing.specs.Profiles.{base_profile};
ghost use Rattle.ev_typing.specs.Told.{declared_told};
ghost use Rattle.ev_typing.specs.inner.Instances.{instance_at, at_types, instance_of};

use crate::environment::{Declared, Env};
use crate::table::{Children, Form, Row, base_symbols};
use crate::type_forms::{pair_of, relation_of, set_of};
use crate::typing::{Con, DataDecl, Signature, Var};
use ev_terms::{ListOf, Name, NoMemory, Sym, TryCopy, Ty, Tys, instantiate_type};
use std::alloc::Global;

/// The types of a symbol's children and its own, the symbol's type arguments put in.
#[derive(Drop)]
pub struct Instance {
    pub args: ListOf<Ty>,
    pub result: Ty,
}

/// The signature of a symbol at type arguments: none where the environment does not have the symbol, or with another number of type
/// parameters.
pub(crate) fn instance_of(
    alloc: Global,
    env: &Env,
    sym: &Sym,
    types: &Tys,
) -> Result<Option<Instance>, NoMemory>
    ensures { IfOk result (λ o. o ≡ instance_of env.now sym.now types.now) }
{
    match sym {
        Sym::Base(k) => base_at(alloc, *k, types),
        Sym::User(name) => user_at(alloc, env, name, types),
    }
}

fn base_at(alloc: Global, k: u16, types: &Tys) -> Result<Option<Instance>, NoMemory>
    ensures { IfOk result (λ o. o ≡ option_and_then (at_types types.now) (base_profile k)) }
{
    let symbols = base_symbols();
    match symbols.row(k) {
        Some(row) => row_at(alloc, row, types),
        None => Ok(None),
    }
}

fn user_at(alloc: Global, env: &Env, name: &Name, types: &Tys) -> Result<Option<Instance>, NoMemory>
    ensures { IfOk result (λ o. o ≡ option_and_then (at_types types.now) (option_map symbol_profile (find_symbol env.now name.now))) }
{
    match env.declared(name) {
        Some(declared) => declared_at(alloc, declared, types),
        None => Ok(None),
    }
}

/// Whether there are so many types.
#[tactic(auto, using(crate::proofs::Signatures::counting))]
pub(crate) fn has_count(types: &Tys, n: u32) -> bool
    ensures { result ≡ (length (type_list types.now) == n) }
{
    let mut missing = n;
    let mut left = types;
    while let Tys::More(_, rest) = left {
        if missing == 0 {
            return false;
        }
        missing -= 1;
        left = rest.get();
    }
    missing == 0
}

fn param_at(alloc: Global, types: &Tys, i: u32) -> Result<Ty, NoMemory>
    ensures { IfOk result (λ a. a ≡ type_at types.now i) }
{
    match types.get(i as usize) {
        Some(ty) => ty.try_copy(alloc),
        None => Ok(Ty::Param(i)),
    }
}

fn relation_at(alloc: Global, types: &Tys, from: u32, to: u32) -> Result<Ty, NoMemory>
    ensures { IfOk result (λ a. a ≡ relation (type_at types.now from) (type_at types.now to)) }
{
    let from = param_at(alloc, types, from)?;
    let to = param_at(alloc, types, to)?;
    relation_of(alloc, from, to)
}

fn pair_at(alloc: Global, types: &Tys) -> Result<Ty, NoMemory>
    ensures { IfOk result (λ a. a ≡ prod (type_at types.now 0) (type_at types.now 1)) }
{
    let first = param_at(alloc, types, 0)?;
    let second = param_at(alloc, types, 1)?;
    pair_of(alloc, first, second)
}

fn projection_at(alloc: Global, types: &Tys, to: u32) -> Result<Ty, NoMemory>
    ensures { IfOk result (λ a. a ≡ relation (prod (type_at types.now 0) (type_at types.now 1)) (type_at types.now to)) }
{
    let pair = pair_at(alloc, types)?;
    let part = param_at(alloc, types, to)?;
    relation_of(alloc, pair, part)
}

fn set_at(alloc: Global, types: &Tys, i: u32) -> Result<Ty, NoMemory>
    ensures { IfOk result (λ a. a ≡ pow (type_at types.now i)) }
{
    set_of(alloc, param_at(alloc, types, i)?)
}

fn form_at(alloc: Global, form: Form, types: &Tys) -> Result<Ty, NoMemory>
    ensures { IfOk result (λ a. a ≡ type_inst (type_at types.now) (form_type form)) }
{
    match form {
        Form::Prop => Ok(Ty::Prop),
        Form::Int => Ok(Ty::Int),
        Form::Bool => Ok(Ty::Bool),
        Form::A => param_at(alloc, types, 0),
        Form::B => param_at(alloc, types, 1),
        Form::Pair => pair_at(alloc, types),
        Form::SetInt => set_of(alloc, Ty::Int),
        Form::SetA => set_at(alloc, types, 0),
        Form::SetB => set_at(alloc, types, 1),
        Form::SetSetA => set_of(alloc, set_at(alloc, types, 0)?),
        Form::RelationAB => relation_at(alloc, types, 0, 1),
        Form::RelationBA => relation_at(alloc, types, 1, 0),
        Form::RelationBC => relation_at(alloc, types, 1, 2),
        Form::RelationAC => relation_at(alloc, types, 0, 2),
        Form::RelationAA => relation_at(alloc, types, 0, 0),
        Form::SetRelation => set_of(alloc, relation_at(alloc, types, 0, 1)?),
        Form::FirstOf => projection_at(alloc, types, 0),
        Form::SecondOf => projection_at(alloc, types, 1),
    }
}

fn children_at(alloc: Global, children: Children, types: &Tys) -> Result<ListOf<Ty>, NoMemory>
    ensures { IfOk result (λ args. args ≡ map (type_inst (type_at types.now)) (children_types children)) }
{
    let mut args = ListOf::new(alloc);
    match children {
        Children::None => {}
        Children::One(form) => args.push(alloc, form_at(alloc, form, types)?)?,
        Children::Two(left, right) => {
            args.push(alloc, form_at(alloc, left, types)?)?;
            args.push(alloc, form_at(alloc, right, types)?)?;
        }
    }
    Ok(args)
}

fn row_at(alloc: Global, row: Row, types: &Tys) -> Result<Option<Instance>, NoMemory>
    ensures { IfOk result (λ o. o ≡ at_types types.now (row_profile row)) }
{
    if !has_count(types, row.params) {
        return Ok(None);
    }
    let args = children_at(alloc, row.children, types)?;
    let result = form_at(alloc, row.result, types)?;
    Ok(Some(Instance { args, result }))
}

/// The signature of what is declared, at types.
fn declared_at(
    alloc: Global,
    declared: Declared<'_>,
    types: &Tys,
) -> Result<Option<Instance>, NoMemory>
    ensures { IfOk result (λ o. o ≡ at_types types.now (symbol_profile (declared_told declared.entry))) }
{
    match declared {
        Declared::Constructor(decl, con) => con_at(alloc, decl, con, types),
        Declared::Destructor(decl, _, _, field) => des_at(alloc, decl, field, types),
        Declared::Constant(signature, _)
        | Declared::Direct(signature, _, _)
        | Declared::Recursive(signature, _, _, _) => signature_at(alloc, signature, types),
    }
}

fn signature_at(
    alloc: Global,
    signature: &Signature,
    types: &Tys,
) -> Result<Option<Instance>, NoMemory>
    ensures { IfOk result (λ o. o ≡ at_types types.now (signature_profile signature.now)) }
{
    if !has_count(types, signature.params) {
        return Ok(None);
    }
    let args = types_at(alloc, &signature.args, types)?;
    let result = instantiate_type(alloc, &signature.result, types)?;
    Ok(Some(Instance { args, result }))
}

#[tactic(auto, using(crate::proofs::Signatures::counting))]
pub(crate) fn types_at(alloc: Global, list: &Tys, types: &Tys) -> Result<ListOf<Ty>, NoMemory>
    ensures { IfOk result (λ args. args ≡ map (type_inst (type_at types.now)) (type_list list.now)) }
{
    let mut args = ListOf::new(alloc);
    let mut left = list;
    while let Tys::More(ty, rest) = left {
        args.push(alloc, instantiate_type(alloc, ty.get(), types)?)?;
        left = rest.get();
    }
    Ok(args)
}

fn con_at(
    alloc: Global,
    decl: &DataDecl,
    con: &Con,
    types: &Tys,
) -> Result<Option<Instance>, NoMemory>
    ensures { IfOk result (λ o. o ≡ at_types types.now (con_profile decl.now con.now)) }
{
    if !has_count(types, decl.params) {
        return Ok(None);
    }
    Ok(Some(constructor_at(alloc, decl, con, types)?))
}

fn des_at(
    alloc: Global,
    decl: &DataDecl,
    field: &Var,
    types: &Tys,
) -> Result<Option<Instance>, NoMemory>
    ensures { IfOk result (λ o. o ≡ at_types types.now (des_profile decl.now field.now)) }
{
    if !has_count(types, decl.params) {
        return Ok(None);
    }
    Ok(Some(destructor_at(alloc, decl, field, types)?))
}

#[tactic(auto, using(crate::proofs::Signatures::own))]
fn constructor_at(
    alloc: Global,
    decl: &DataDecl,
    con: &Con,
    types: &Tys,
) -> Result<Instance, NoMemory>
    requires { length (type_list types.now) ≡ decl.now.params }
    ensures { IfOk result (λ i. i ≡ instance_at types.now (con_profile decl.now con.now)) }
{
    let args = fields_at(alloc, con.fields.as_slice(), types)?;
    let result = data_type(alloc, decl, types)?;
    Ok(Instance { args, result })
}

#[tactic(auto, using(crate::proofs::Signatures::own))]
fn destructor_at(
    alloc: Global,
    decl: &DataDecl,
    field: &Var,
    types: &Tys,
) -> Result<Instance, NoMemory>
    requires { length (type_list types.now) ≡ decl.now.params }
    ensures { IfOk result (λ i. i ≡ instance_at types.now (des_profile decl.now field.now)) }
{
    let mut args = ListOf::new(alloc);
    args.push(alloc, data_type(alloc, decl, types)?)?;
    let result = instantiate_type(alloc, &field.ty, types)?;
    Ok(Instance { args, result })
}

#[tactic(auto, using(crate::proofs::Signatures::own))]
fn data_type(alloc: Global, decl: &DataDecl, types: &Tys) -> Result<Ty, NoMemory>
    requires { length (type_list types.now) ≡ decl.now.params }
    ensures { IfOk result (λ a. a ≡ type_inst (type_at types.now) (own_type decl.now)) }
{
    let name = decl.name.try_copy(alloc)?;
    Ok(Ty::Data(name, types.try_copy(alloc)?))
}

#[tactic(auto, using(crate::proofs::Names::listed))]
fn fields_at(alloc: Global, fields: &[Var], types: &Tys) -> Result<ListOf<Ty>, NoMemory>
    ensures { IfOk result (λ args. args ≡ map (type_inst (type_at types.now)) (map (λ (f : Var). f.ty) fields.now)) }
{
    let mut args = ListOf::new(alloc);
    for field in fields {
        args.push(alloc, instantiate_type(alloc, &field.ty, types)?)?;
    }
    Ok(args)
}
