//! Types of texts. `Prop` is the type of predicates, a name that is among the parameters is that parameter, and any other name is one
//! of a datatype, declared or not.
use crate::formulas::raw_of;
use crate::refusals::Refusal;
use ev_syntax::{FormulaForm, RawType, RawTypeForm, Sort};
use ev_terms::{Name, Names, NoMemory, Shared, TryCopy, Ty, Tys};
use std::alloc::Global;

/// The number of a parameter.
fn number_of(params: &Names, name: &Name) -> Option<u32> {
    let place = params.as_slice().iter().position(|other| name == other)?;
    u32::try_from(place).ok()
}

#[cycle(types)]
#[tactic(auto, using(crate::proofs::Heights::types))]
fn named(alloc: Global, params: &Names, name: &Name, types: &[RawType]) -> Result<Ty, NoMemory> {
    if name.as_slice() == b"Prop".as_slice() {
        return Ok(Ty::Prop);
    }
    if let Some(i) = number_of(params, name) {
        return Ok(Ty::Param(i));
    }
    let types = types_of(alloc, params, types)?;
    Ok(Ty::Data(name.try_copy(alloc)?, types))
}

#[cycle(types)]
#[tactic(auto, using(crate::proofs::Heights::types))]
fn types_of(alloc: Global, params: &Names, written: &[RawType]) -> Result<Tys, NoMemory> {
    let mut types = Tys::new(alloc);
    for ty in written {
        types.push(alloc, type_of(alloc, params, ty)?)?;
    }
    Ok(types)
}

#[cycle(types)]
#[tactic(auto, using(crate::proofs::Heights::types))]
fn shared(alloc: Global, params: &Names, written: &RawType) -> Result<Shared<Ty>, NoMemory> {
    Shared::new(alloc, type_of(alloc, params, written)?)
}

#[cycle(types)]
#[tactic(auto, using(crate::proofs::Heights::types))]
fn type_of(alloc: Global, params: &Names, written: &RawType) -> Result<Ty, NoMemory> {
    match written.form() {
        RawTypeForm::Int => Ok(Ty::Int),
        RawTypeForm::Bool => Ok(Ty::Bool),
        RawTypeForm::Param(i) => Ok(Ty::Param(*i)),
        RawTypeForm::Named(name, types) => named(alloc, params, name, types.as_slice()),
        RawTypeForm::Pow(a) => Ok(Ty::Pow(shared(alloc, params, a)?)),
        RawTypeForm::Prod(a, b) => {
            let left = shared(alloc, params, a)?;
            Ok(Ty::Prod(left, shared(alloc, params, b)?))
        }
    }
}

/// The type that a text is.
pub fn read_type(alloc: Global, params: &Names, text: &[u8]) -> Result<Ty, Refusal> {
    let raw = raw_of(alloc, text, Sort::TypeText, 200)?;
    match raw.form() {
        FormulaForm::Written(written) => Ok(type_of(alloc, params, written)?),
        _ => Err(Refusal::Case),
    }
}
