//! The types that are written behind symbols.
ghost use Rattle.ev_terms.specs.declared.types.Ty.{Param};
ghost use Rattle.std.specs.Prelude.{◌≡◌, Some, None, option_map, flat_map, map, find, bytes_eq, if◌then◌else◌, IfOk, is_some};
ghost use Rattle.ev_terms.specs.declared.types.Sym.TheVariants.{Base, User};
ghost use Rattle.ev_terms.specs.Types.{pow, prod};
ghost use Rattle.ev_typing.specs.declared.typing.Var.{Var};
ghost use Rattle.ev_typing.specs.Profiles.{base_profile};
ghost use Rattle.ev_typing.specs.TypeLists.{own_types};
ghost use Rattle.ev_typing.specs.Env.{look_up, find_symbol, con_symbols, symbols, own_type, profile, con_profile, signature_profile, symbol_profile};
ghost use Rattle.ev_print.specs.Canon.{annotation, leaves_open};
ghost use Rattle.ev_print.specs.inner.OpenTypes.{open_type};

use crate::params::{fields_leave_open, types_leave_open};
use ev_terms::symbols::{EMPTY, ID, PRJ1, PRJ2};
use ev_terms::{Name, NoMemory, Shared, Sym, TryCopy, Ty, Tys, instantiate_type};
use ev_typing::{Con, DataDecl, Entry, Env, Signature, pair_of, relation_of, set_of};
use std::alloc::Global;

/// The type that is written behind the symbol at these types, if one is.
#[tactic(auto, using(crate::proofs::OpenSteps::annotations))]
pub(crate) fn annotation(
    alloc: Global,
    env: &Env,
    sym: &Sym,
    types: &Tys,
) -> Result<Option<Ty>, NoMemory>
    ensures { IfOk result (λ o. o ≡ annotation sym.now (profile env.now sym.now) types.now) }
{
    match open_type(alloc, env, sym)? {
        Some(ty) => Ok(Some(instantiate_type(alloc, &ty, types)?)),
        None => Ok(None),
    }
}

/// That type before the symbol's type arguments are put in.
pub(crate) fn open_type(alloc: Global, env: &Env, sym: &Sym) -> Result<Option<Ty>, NoMemory>
    ensures { IfOk result (λ o. o ≡ open_type sym.now (profile env.now sym.now)) }
{
    match sym {
        Sym::Base(row) => base_type(alloc, *row),
        Sym::User(name) => user_type(alloc, env, name),
    }
}

#[tactic(auto, using(crate::proofs::OpenSteps::base_rows))]
fn base_type(alloc: Global, row: u16) -> Result<Option<Ty>, NoMemory>
    ensures { IfOk result (λ o. o ≡ open_type (Base row) (base_profile row)) }
{
    if row == EMPTY {
        return Ok(Some(set_of(alloc, Ty::Param(0))?));
    }
    if row == ID {
        return Ok(Some(relation_of(alloc, Ty::Param(0), Ty::Param(0))?));
    }
    if row == PRJ1 {
        return Ok(Some(projection(alloc, 0)?));
    }
    if row == PRJ2 {
        return Ok(Some(projection(alloc, 1)?));
    }
    Ok(None)
}

fn projection(alloc: Global, to: u32) -> Result<Ty, NoMemory>
    ensures { IfOk result (λ a. a ≡ pow (prod (prod (Param 0) (Param 1)) (Param to))) }
{
    let pair = pair_of(alloc, Ty::Param(0), Ty::Param(1))?;
    relation_of(alloc, pair, Ty::Param(to))
}

fn user_type(alloc: Global, env: &Env, name: &Name) -> Result<Option<Ty>, NoMemory>
    ensures { IfOk result (λ o. o ≡ open_type (User name.now) (option_map symbol_profile (find_symbol env.now name.now))) }
{
    match env.symbol(name) {
        Some(entry) => entry_type(alloc, entry, name),
        None => Ok(None),
    }
}

#[tactic(auto, using(crate::proofs::OpenSteps::entries))]
fn entry_type(alloc: Global, entry: &Entry, name: &Name) -> Result<Option<Ty>, NoMemory>
    ensures { IfOk result (λ o. o ≡ open_type (User name.now) (option_map symbol_profile (look_up (symbols entry.now) name.now))) }
{
    match entry {
        Entry::Data(decl) => data_type(alloc, decl, name),
        Entry::Constant(signature, _) => signature_type(alloc, signature, name),
        Entry::Direct(signature, _, _) => signature_type(alloc, signature, name),
        Entry::Recursive(signature, _, _, _) => signature_type(alloc, signature, name),
    }
}

fn signature_type(alloc: Global, signature: &Signature, name: &Name) -> Result<Option<Ty>, NoMemory>
    ensures { IfOk result (λ o. o ≡ open_type (User name.now) (if bytes_eq signature.now.name name.now then Some (signature_profile signature.now) else None)) }
{
    if signature.name != *name {
        return Ok(None);
    }
    if !types_leave_open(signature.params, &signature.args) {
        return Ok(None);
    }
    Ok(Some(signature.result.try_copy(alloc)?))
}

#[tactic(auto, using(crate::proofs::OpenSteps::datatypes))]
fn data_type(alloc: Global, decl: &DataDecl, name: &Name) -> Result<Option<Ty>, NoMemory>
    ensures { IfOk result (λ o. o ≡ open_type (User name.now) (option_map symbol_profile (look_up (flat_map (con_symbols decl.now) decl.now.cons) name.now))) }
{
    for con in decl.cons.as_slice() {
        if con.name == *name {
            return constructor_type(alloc, decl, con);
        }
        if has_field(con, name) {
            return Ok(None);
        }
    }
    Ok(None)
}

#[tactic(auto, using(crate::proofs::ParamSteps::fields))]
fn has_field(con: &Con, name: &Name) -> bool
    ensures { result ≡ is_some (find (λ (f : Var). bytes_eq f.name name.now) con.now.fields) }
{
    for field in con.fields.as_slice() {
        if field.name == *name {
            return true;
        }
    }
    false
}

fn constructor_type(alloc: Global, decl: &DataDecl, con: &Con) -> Result<Option<Ty>, NoMemory>
    ensures { IfOk result (λ o. o ≡ (if leaves_open (con_profile decl.now con.now) then Some (own_type decl.now) else None)) }
{
    if !fields_leave_open(decl.params, con.fields.as_slice()) {
        return Ok(None);
    }
    Ok(Some(own_type(alloc, decl)?))
}

fn own_type(alloc: Global, decl: &DataDecl) -> Result<Ty, NoMemory>
    ensures { IfOk result (λ a. a ≡ own_type decl.now) }
{
    let name = decl.name.try_copy(alloc)?;
    let types = own_types(alloc, decl.params)?;
    Ok(Ty::Data(name, types))
}

#[tactic(auto, using(crate::proofs::OpenSteps::own))]
fn own_types(alloc: Global, n: u32) -> Result<Tys, NoMemory>
    ensures { IfOk result (λ types. types ≡ own_types n) }
{
    let mut types = Tys::Empty;
    let mut left = n;
    while left > 0 {
        left -= 1;
        let first = Shared::new(alloc, Ty::Param(left))?;
        let rest = Shared::new(alloc, types)?;
        types = Tys::More(first, rest);
    }
    Ok(types)
}
