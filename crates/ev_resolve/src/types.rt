//! Written types, with their names looked up.
ghost use Rattle.std.specs.Prelude.{◌≡◌, ℕ, Bool as Boolean, List, Some, None, position, bytes_eq, option_map, option_and_then, IfOk, is_some};
ghost use Rattle.ev_terms.specs.Types.{pow, prod, more};
ghost use Rattle.ev_typing.specs.Env.{find_data};
ghost use Rattle.ev_syntax.specs.inner.TypeView.{raw_types};
ghost use Rattle.ev_resolve.specs.Reading.{named, type_of_raw, types_of_raw, both};
ghost use Rattle.ev_resolve.specs.Resolve.{known_of, written_type};

use crate::formula_names::FormulaNames;
use ev_syntax::{RawType, RawTypeForm};
use ev_terms::{Name, NoMemory, Shared, TryCopy, Ty, Tys};
use std::alloc::Global;

/// The type that a written one is. None where a name is neither a type parameter nor a datatype, or a parameter has types.
#[cycle(types)]
#[tactic(auto, using(crate::proofs::TypeSteps::forms))]
pub fn resolve_type(
    alloc: Global,
    names: &FormulaNames<'_>,
    written: &RawType,
) -> Result<Option<Ty>, NoMemory>
    ensures { IfOk result (λ o. o ≡ type_of_raw names.now.0 (known_of names.now.1) written.now) }
{
    match written.form() {
        RawTypeForm::Int => Ok(Some(Ty::Int)),
        RawTypeForm::Bool => Ok(Some(Ty::Bool)),
        RawTypeForm::Param(i) => Ok(Some(Ty::Param(*i))),
        RawTypeForm::Named(name, types) => { resolve_named(alloc, names, name, types.as_slice()) }
        RawTypeForm::Pow(member) => resolve_pow(alloc, names, member),
        RawTypeForm::Prod(first, second) => resolve_prod(alloc, names, first, second),
    }
}

#[cycle(types)]
#[tactic(auto, using(crate::proofs::TypeSteps::forms))]
fn resolve_pow(
    alloc: Global,
    names: &FormulaNames<'_>,
    member: &RawType,
) -> Result<Option<Ty>, NoMemory>
    ensures { IfOk result (λ o. o ≡ option_map pow (type_of_raw names.now.0 (known_of names.now.1) member.now)) }
{
    match resolve_type(alloc, names, member)? {
        Some(member) => Ok(Some(Ty::Pow(Shared::new(alloc, member)?))),
        None => Ok(None),
    }
}

#[cycle(types)]
#[tactic(auto, using(crate::proofs::TypeSteps::forms))]
fn resolve_prod(
    alloc: Global,
    names: &FormulaNames<'_>,
    first: &RawType,
    second: &RawType,
) -> Result<Option<Ty>, NoMemory>
    ensures { IfOk result (λ o. o ≡ both prod (type_of_raw names.now.0 (known_of names.now.1) first.now) (type_of_raw names.now.0 (known_of names.now.1) second.now)) }
{
    let Some(first) = resolve_type(alloc, names, first)? else {
        return Ok(None)
    };
    let Some(second) = resolve_type(alloc, names, second)? else {
        return Ok(None)
    };
    let first = Shared::new(alloc, first)?;
    Ok(Some(Ty::Prod(first, Shared::new(alloc, second)?)))
}

#[cycle(types)]
#[tactic(auto, using(crate::proofs::TypeSteps::forms))]
fn resolve_named(
    alloc: Global,
    names: &FormulaNames<'_>,
    name: &Name,
    types: &[RawType],
) -> Result<Option<Ty>, NoMemory>
    ensures { IfOk result (λ o. o ≡ option_and_then (named (position (bytes_eq name.now) names.now.0) (is_some (find_data names.now.1 name.now)) name.now) (types_of_raw names.now.0 (known_of names.now.1) (raw_types types.now))) }
{
    let Some(types) = resolve_types(alloc, names, types)? else {
        return Ok(None)
    };
    match names.parameter(name) {
        Some(i) => Ok(parameter_type(i, &types)),
        None => datatype(alloc, names, name, types),
    }
}

/// A type parameter, which has no types.
fn parameter_type(i: u32, types: &Tys) -> Option<Ty>
    ensures { (datatype : Boolean) → (n : List ℕ) → result ≡ named (Some i) datatype n types.now }
{
    match types {
        Tys::Empty => Some(Ty::Param(i)),
        Tys::More(_, _) => None,
    }
}

fn datatype(
    alloc: Global,
    names: &FormulaNames<'_>,
    name: &Name,
    types: Tys,
) -> Result<Option<Ty>, NoMemory>
    ensures { IfOk result (λ o. o ≡ named None (is_some (find_data names.now.1 name.now)) name.now types) }
{
    match names.datatype(name) {
        Some(_) => Ok(Some(Ty::Data(name.try_copy(alloc)?, types))),
        None => Ok(None),
    }
}

/// The types of a list, made from its end.
#[cycle(types)]
#[tactic(auto, using(crate::proofs::TypeSteps::forms))]
fn resolve_types(
    alloc: Global,
    names: &FormulaNames<'_>,
    types: &[RawType],
) -> Result<Option<Tys>, NoMemory>
    ensures { IfOk result (λ o. o ≡ types_of_raw names.now.0 (known_of names.now.1) (raw_types types.now)) }
{
    let mut list = Tys::Empty;
    let mut left = types.len();
    'types: while left > 0 {
        left -= 1;
        let Some(ty) = resolve_type(alloc, names, &types[left])? else {
            return Ok(None)
        };
        list = before(alloc, ty, list)?;
    }
    Ok(Some(list))
}

/// A list with a type before it.
#[tactic(auto, using(crate::proofs::TypeSteps::forms))]
fn before(alloc: Global, first: Ty, rest: Tys) -> Result<Tys, NoMemory>
    ensures { IfOk result (λ types. types ≡ more first rest) }
{
    let rest = Shared::new(alloc, rest)?;
    Ok(Tys::More(Shared::new(alloc, first)?, rest))
}

/// The type that is written, where one is.
pub fn resolve_written(
    alloc: Global,
    names: &FormulaNames<'_>,
    written: &Option<RawType>,
) -> Result<Option<Option<Ty>>, NoMemory>
    ensures { IfOk result (λ o. o ≡ written_type names.now.0 (known_of names.now.1) written.now) }
{
    match written {
        None => Ok(Some(None)),
        Some(written) => match resolve_type(alloc, names, written)? {
            Some(ty) => Ok(Some(Some(ty))),
            None => Ok(None),
        },
    }
}
