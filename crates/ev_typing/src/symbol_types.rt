//! The signatures of symbols, with nothing put in for their type parameters.
ghost use Rattle.std.specs.Prelude.{◌≡◌, map, option_map, IfOk};
ghost use Rattle.ev_terms.specs.declared.types.Ty.{Param};
ghost use Rattle.ev_terms.specs.Types.{prod, type_list};
ghost use Rattle.ev_typing.specs.declared.typing.Var.{Var};
ghost use Rattle.ev_typing.specs.Table.{form_type, children_types, row_profile};
ghost use Rattle.ev_typing.specs.TypeLists.{own_types};
ghost use Rattle.ev_typing.specs.Profiles.{base_profile};
ghost use Rattle.ev_typing.specs.Env.{find_symbol, con_profile, des_profile, signature_profile, symbol_profile, own_type, profile};
ghost use Rattle.ev_typing.specs.Told.{declared_told, profile_told};

use crate::environment::{Declared, Env};
use crate::table::{Children, Form, Row, base_symbols};
use crate::type_forms::{pair_of, relation_of, set_of};
use crate::typing::{Con, DataDecl, Signature, Var};
use ev_terms::{ListOf, Name, NoMemory, Shared, Sym, TryCopy, Ty, Tys};
use std::alloc::Global;

/// A symbol's number of type parameters, the types of its children and its own.
#[derive(Drop)]
pub struct SymbolTypes {
    pub params: u32,
    pub args: ListOf<Ty>,
    pub result: Ty,
}

/// The signature of a symbol; `None` exactly where the environment does not have it. Linear in the signature.
pub fn types_of_symbol(alloc: Global, env: &Env, sym: &Sym) -> Result<Option<SymbolTypes>, NoMemory>
    ensures { IfOk result (λ o. option_map profile_told o ≡ profile env.now sym.now) }
{
    match sym {
        Sym::Base(k) => base_types(alloc, *k),
        Sym::User(name) => user_types(alloc, env, name),
    }
}

fn base_types(alloc: Global, k: u16) -> Result<Option<SymbolTypes>, NoMemory>
    ensures { IfOk result (λ o. option_map profile_told o ≡ base_profile k) }
{
    let symbols = base_symbols();
    match symbols.row(k) {
        Some(row) => Ok(Some(row_types(alloc, row)?)),
        None => Ok(None),
    }
}

fn row_types(alloc: Global, row: Row) -> Result<SymbolTypes, NoMemory>
    ensures { IfOk result (λ t. profile_told t ≡ row_profile row) }
{
    let args = child_types(alloc, row.children)?;
    let result = type_of_form(alloc, row.result)?;
    Ok(SymbolTypes {
        params: row.params,
        args,
        result,
    })
}

fn child_types(alloc: Global, children: Children) -> Result<ListOf<Ty>, NoMemory>
    ensures { IfOk result (λ args. args ≡ children_types children) }
{
    let mut args = ListOf::new(alloc);
    match children {
        Children::None => {}
        Children::One(form) => args.push(alloc, type_of_form(alloc, form)?)?,
        Children::Two(left, right) => {
            args.push(alloc, type_of_form(alloc, left)?)?;
            args.push(alloc, type_of_form(alloc, right)?)?;
        }
    }
    Ok(args)
}

fn pair_of_params(alloc: Global) -> Result<Ty, NoMemory>
    ensures { IfOk result (λ a. a ≡ prod (Param 0) (Param 1)) }
{
    pair_of(alloc, Ty::Param(0), Ty::Param(1))
}

fn type_of_form(alloc: Global, form: Form) -> Result<Ty, NoMemory>
    ensures { IfOk result (λ a. a ≡ form_type form) }
{
    match form {
        Form::Prop => Ok(Ty::Prop),
        Form::Int => Ok(Ty::Int),
        Form::Bool => Ok(Ty::Bool),
        Form::A => Ok(Ty::Param(0)),
        Form::B => Ok(Ty::Param(1)),
        Form::Pair => pair_of_params(alloc),
        Form::SetInt => set_of(alloc, Ty::Int),
        Form::SetA => set_of(alloc, Ty::Param(0)),
        Form::SetB => set_of(alloc, Ty::Param(1)),
        Form::SetSetA => set_of(alloc, set_of(alloc, Ty::Param(0))?),
        Form::RelationAB => relation_of(alloc, Ty::Param(0), Ty::Param(1)),
        Form::RelationBA => relation_of(alloc, Ty::Param(1), Ty::Param(0)),
        Form::RelationBC => relation_of(alloc, Ty::Param(1), Ty::Param(2)),
        Form::RelationAC => relation_of(alloc, Ty::Param(0), Ty::Param(2)),
        Form::RelationAA => relation_of(alloc, Ty::Param(0), Ty::Param(0)),
        Form::SetRelation => set_of(alloc, relation_of(alloc, Ty::Param(0), Ty::Param(1))?),
        Form::FirstOf => relation_of(alloc, pair_of_params(alloc)?, Ty::Param(0)),
        Form::SecondOf => relation_of(alloc, pair_of_params(alloc)?, Ty::Param(1)),
    }
}

fn user_types(alloc: Global, env: &Env, name: &Name) -> Result<Option<SymbolTypes>, NoMemory>
    ensures { IfOk result (λ o. option_map profile_told o ≡ option_map symbol_profile (find_symbol env.now name.now)) }
{
    match env.declared(name) {
        Some(declared) => Ok(Some(declared_types(alloc, declared)?)),
        None => Ok(None),
    }
}

fn declared_types(alloc: Global, declared: Declared<'_>) -> Result<SymbolTypes, NoMemory>
    ensures { IfOk result (λ t. profile_told t ≡ symbol_profile (declared_told declared.entry)) }
{
    match declared {
        Declared::Constructor(decl, con) => constructor_types(alloc, decl, con),
        Declared::Destructor(decl, _, _, field) => destructor_types(alloc, decl, field),
        Declared::Constant(signature, _)
        | Declared::Direct(signature, _, _)
        | Declared::Recursive(signature, _, _, _) => signature_types(alloc, signature),
    }
}

fn signature_types(alloc: Global, signature: &Signature) -> Result<SymbolTypes, NoMemory>
    ensures { IfOk result (λ t. profile_told t ≡ signature_profile signature.now) }
{
    let args = listed(alloc, &signature.args)?;
    let result = signature.result.try_copy(alloc)?;
    Ok(SymbolTypes {
        params: signature.params,
        args,
        result,
    })
}

#[tactic(auto, using(crate::proofs::Signatures::counting))]
fn listed(alloc: Global, types: &Tys) -> Result<ListOf<Ty>, NoMemory>
    ensures { IfOk result (λ list. list ≡ type_list types.now) }
{
    let mut list = ListOf::new(alloc);
    let mut left = types;
    while let Tys::More(ty, rest) = left {
        list.push(alloc, ty.get().try_copy(alloc)?)?;
        left = rest.get();
    }
    Ok(list)
}

fn constructor_types(alloc: Global, decl: &DataDecl, con: &Con) -> Result<SymbolTypes, NoMemory>
    ensures { IfOk result (λ t. profile_told t ≡ con_profile decl.now con.now) }
{
    let args = field_types(alloc, con.fields.as_slice())?;
    let result = own_type(alloc, decl)?;
    Ok(SymbolTypes {
        params: decl.params,
        args,
        result,
    })
}

fn destructor_types(alloc: Global, decl: &DataDecl, field: &Var) -> Result<SymbolTypes, NoMemory>
    ensures { IfOk result (λ t. profile_told t ≡ des_profile decl.now field.now) }
{
    let mut args = ListOf::new(alloc);
    args.push(alloc, own_type(alloc, decl)?)?;
    let result = field.ty.try_copy(alloc)?;
    Ok(SymbolTypes {
        params: decl.params,
        args,
        result,
    })
}

/// The type of a datatype at its own parameters. Linear in their number.
pub fn own_type(alloc: Global, decl: &DataDecl) -> Result<Ty, NoMemory>
    ensures { IfOk result (λ a. a ≡ own_type decl.now) }
{
    let name = decl.name.try_copy(alloc)?;
    Ok(Ty::Data(name, own_params(alloc, decl.params)?))
}

#[tactic(auto, using(crate::proofs::Signing::counting))]
fn own_params(alloc: Global, count: u32) -> Result<Tys, NoMemory>
    ensures { IfOk result (λ types. types ≡ own_types count) }
{
    let mut types = Tys::Empty;
    let mut i = count;
    while i > 0 {
        i -= 1;
        let rest = Shared::new(alloc, types)?;
        types = Tys::More(Shared::new(alloc, Ty::Param(i))?, rest);
    }
    Ok(types)
}

#[tactic(auto, using(crate::proofs::Names::listed))]
fn field_types(alloc: Global, fields: &[Var]) -> Result<ListOf<Ty>, NoMemory>
    ensures { IfOk result (λ args. args ≡ map (λ (f : Var). f.ty) fields.now) }
{
    let mut args = ListOf::new(alloc);
    for field in fields {
        args.push(alloc, field.ty.try_copy(alloc)?)?;
    }
    Ok(args)
}
