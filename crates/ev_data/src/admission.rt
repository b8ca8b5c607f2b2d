//! Which datatypes are admitted.
ghost use Rattle.std.specs.Prelude.{◌≡◌};
ghost use Rattle.ev_typing.specs.Occurs.{has_data, have_data};
ghost use Rattle.ev_data.specs.Admission.{IsAdmission};
ghost use Rattle.ev_data.specs.inner.Tests.{has_field, is_nested, is_extra, has_no_base, has_nested, has_extra};
ghost use Rattle.ev_data.specs.Induction.{is_recursive};

use crate::faults::DataFault;
use crate::parts::is_recursive;
use ev_terms::{Name, Ty, Tys, type_params};
use ev_typing::{Con, DataDecl, Env};

/// Whether the datatype is admitted: the first fault that holds. Linear in the declaration's types.
#[tactic(auto, using(crate::proofs::FaultTests::faults))]
pub fn admit(_env: &Env, decl: &DataDecl) -> Result<(), DataFault>
    ensures { IsAdmission decl.now result }
{
    if has_no_base(decl) {
        return Err(DataFault::NoBaseConstructor);
    }
    if has_nested(decl) {
        return Err(DataFault::NestedRecursion);
    }
    if has_extra(decl) {
        return Err(DataFault::ExtraTypeParameter);
    }
    Ok(())
}

fn has_no_base(decl: &DataDecl) -> bool
    ensures { result ≡ has_no_base decl.now }
{
    decl.cons
        .as_slice()
        .iter()
        .all(|con| has_recursive(decl, con))
}

fn has_recursive(decl: &DataDecl, con: &Con) -> bool
    ensures { result ≡ has_field (is_recursive decl.now) con.now }
{
    con.fields
        .as_slice()
        .iter()
        .any(|field| is_recursive(decl, &field.ty))
}

fn has_nested(decl: &DataDecl) -> bool
    ensures { result ≡ has_nested decl.now }
{
    decl.cons.as_slice().iter().any(|con| nests(decl, con))
}

fn nests(decl: &DataDecl, con: &Con) -> bool
    ensures { result ≡ has_field (is_nested decl.now) con.now }
{
    con.fields
        .as_slice()
        .iter()
        .any(|field| is_nested(decl, &field.ty))
}

fn is_nested(decl: &DataDecl, ty: &Ty) -> bool
    ensures { result ≡ is_nested decl.now ty.now }
{
    has_data(&decl.name, ty) && !is_recursive(decl, ty)
}

fn has_extra(decl: &DataDecl) -> bool
    ensures { result ≡ has_extra decl.now }
{
    decl.cons.as_slice().iter().any(|con| exceeds(decl, con))
}

fn exceeds(decl: &DataDecl, con: &Con) -> bool
    ensures { result ≡ has_field (is_extra decl.now) con.now }
{
    con.fields
        .as_slice()
        .iter()
        .any(|field| u64::from(decl.params) < type_params(&field.ty))
}

/// Whether the datatype's name occurs in the type.
#[cycle(has_data)]
fn has_data(name: &Name, ty: &Ty) -> bool
    ensures { result ≡ has_data name.now ty.now }
{
    match ty {
        Ty::Int | Ty::Bool | Ty::Prop | Ty::Param(_) => false,
        Ty::Pow(a) => has_data(name, a.get()),
        Ty::Prod(a, b) => has_data(name, a.get()) || has_data(name, b.get()),
        Ty::Data(found, types) => *found == *name || have_data(name, types),
    }
}

/// The same along a list of types.
#[cycle(has_data)]
fn have_data(name: &Name, types: &Tys) -> bool
    ensures { result ≡ have_data name.now types.now }
{
    let mut left = types;
    while let Tys::More(ty, rest) = left {
        if has_data(name, ty.get()) {
            return true;
        }
        left = rest.get();
    }
    false
}
