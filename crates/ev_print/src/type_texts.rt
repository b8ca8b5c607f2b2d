//! The texts of types.
ghost use Rattle.std.specs.Prelude.{◌≡◌, ◌++◌, ◌∷◌, IfOk, OnOk};
ghost use Rattle.ev_terms.specs.Types.{pow, prod};
ghost use Rattle.ev_print.specs.Canon.{param_text, is_product, factor, called_text, in_parens, type_text, type_texts, with_commas};
ghost use Rattle.ev_print.specs.inner.Lists.{after_commas};

use crate::buffer::{append, append_number};
use ev_terms::{Bytes, Name, NoMemory, Ty, Tys};
use std::alloc::Global;

/// The text of a type as a formula writes it: `POW(INT ** BOOL)`, `?0`, `List(?0)`. `Prop` is written `PRED`.
pub fn print_type(alloc: Global, ty: &Ty) -> Result<Bytes, NoMemory>
    ensures { IfOk result (λ text. text ≡ type_text ty.now) }
{
    let mut text = Vec::new(alloc);
    push_type(alloc, &mut text, ty)?;
    Ok(Bytes::from_vec(text))
}

pub(crate) fn push_param(alloc: Global, text: &mut Vec<u8>, i: u32) -> Result<(), NoMemory>
    ensures { OnOk result (text.new.items ≡ text.old.items ++ param_text i) }
{
    append(text, b"?")?;
    append_number(alloc, text, u128::from(i))
}

#[cycle(push_type)]
#[tactic(auto, using(crate::proofs::TypeSteps::walk))]
pub(crate) fn push_type(alloc: Global, text: &mut Vec<u8>, ty: &Ty) -> Result<(), NoMemory>
    ensures { OnOk result (text.new.items ≡ text.old.items ++ type_text ty.now) }
{
    match ty {
        Ty::Int => append(text, b"INT"),
        Ty::Bool => append(text, b"BOOL"),
        Ty::Prop => append(text, b"PRED"),
        Ty::Param(i) => push_param(alloc, text, *i),
        Ty::Pow(a) => push_power(alloc, text, a.get()),
        Ty::Prod(a, b) => push_product(alloc, text, a.get(), b.get()),
        Ty::Data(name, types) => push_data(alloc, text, name, types),
    }
}

#[cycle(push_type)]
#[tactic(auto, using(crate::proofs::TypeSteps::walk))]
pub(crate) fn push_enclosed(alloc: Global, text: &mut Vec<u8>, ty: &Ty) -> Result<(), NoMemory>
    ensures { OnOk result (text.new.items ≡ text.old.items ++ in_parens (type_text ty.now)) }
{
    append(text, b"(")?;
    push_type(alloc, text, ty)?;
    append(text, b")")
}

#[cycle(push_type)]
fn push_power(alloc: Global, text: &mut Vec<u8>, ty: &Ty) -> Result<(), NoMemory>
    ensures { OnOk result (text.new.items ≡ text.old.items ++ type_text (pow ty.now)) }
{
    append(text, b"POW")?;
    push_enclosed(alloc, text, ty)
}

#[cycle(push_type)]
fn push_factor(alloc: Global, text: &mut Vec<u8>, ty: &Ty) -> Result<(), NoMemory>
    ensures { OnOk result (text.new.items ≡ text.old.items ++ factor (is_product ty.now) (type_text ty.now)) }
{
    if is_product(ty) {
        push_enclosed(alloc, text, ty)
    } else {
        push_type(alloc, text, ty)
    }
}

#[cycle(push_type)]
fn push_product(alloc: Global, text: &mut Vec<u8>, left: &Ty, right: &Ty) -> Result<(), NoMemory>
    ensures { OnOk result (text.new.items ≡ text.old.items ++ type_text (prod left.now right.now)) }
{
    push_factor(alloc, text, left)?;
    append(text, b" ** ")?;
    push_factor(alloc, text, right)
}

#[tactic(auto, using(crate::proofs::TypeSteps::walk))]
fn is_product(ty: &Ty) -> bool
    ensures { result ≡ is_product ty.now }
{
    match ty {
        Ty::Prod(_, _) => true,
        Ty::Int => false,
        Ty::Bool => false,
        Ty::Prop => false,
        Ty::Param(_) => false,
        Ty::Pow(_) => false,
        Ty::Data(_, _) => false,
    }
}

#[cycle(push_type)]
#[tactic(auto, using(crate::proofs::TypeSteps::walk))]
fn push_data(alloc: Global, text: &mut Vec<u8>, name: &Name, types: &Tys) -> Result<(), NoMemory>
    ensures { OnOk result (text.new.items ≡ text.old.items ++ called_text name.now (type_texts types.now)) }
{
    append(text, name.as_slice())?;
    match types {
        Tys::Empty => Ok(()),
        Tys::More(first, rest) => push_list(alloc, text, first.get(), rest.get()),
    }
}

#[cycle(push_type)]
fn push_list(alloc: Global, text: &mut Vec<u8>, first: &Ty, rest: &Tys) -> Result<(), NoMemory>
    ensures { OnOk result (text.new.items ≡ text.old.items ++ in_parens (with_commas (type_text first.now ∷ type_texts rest.now))) }
{
    append(text, b"(")?;
    push_type(alloc, text, first)?;
    push_rest(alloc, text, rest)?;
    append(text, b")")
}

#[cycle(push_type)]
#[tactic(auto, using(crate::proofs::TypeSteps::walk))]
fn push_rest(alloc: Global, text: &mut Vec<u8>, types: &Tys) -> Result<(), NoMemory>
    ensures { OnOk result (text.new.items ≡ text.old.items ++ after_commas (type_texts types.now)) }
{
    let mut left = types;
    while let Tys::More(ty, rest) = left {
        append(text, b", ")?;
        push_type(alloc, text, ty.get())?;
        left = rest.get();
    }
    Ok(())
}
