//! Names with and without arguments.
ghost use Rattle.std.specs.Prelude.{◌≡◌, ℕ, List, IfOk};
ghost use Rattle.ev_resolve.specs.Bare.{Bares};
ghost use Rattle.ev_resolve.specs.Reading.{variable as a_variable, predicate as a_predicate, parameter as a_parameter, symbol as a_symbol};
ghost use Rattle.ev_resolve.specs.inner.BareView.{bares};
ghost use Rattle.ev_resolve.specs.Resolve.{call_bare};
ghost use Rattle.ev_resolve.specs.inner.Scopes.{meaning_told};

use crate::bare::{Bare, BareTerms, bare_symbol, bare_variable};
use crate::makers::{application, leaf, two, whole};
use crate::names::Meant;
use ev_terms::symbols::{EQUAL, TRUE_VALUE};
use ev_terms::{Name, NoMemory, Sym, TryCopy, Ty};
use std::alloc::Global;

/// A name by what it means, with so many arguments. None where it cannot stand with them.
pub fn call(
    alloc: Global,
    meant: Meant,
    name: &Name,
    count: usize,
    args: BareTerms,
) -> Result<Option<Bare>, NoMemory>
    ensures { IfOk result (λ o. o ≡ call_bare (meaning_told meant) name.now count (bares args)) }
{
    match meant {
        Meant::Variable(i) => call_variable(alloc, i, count, args),
        Meant::Predicate(i) => call_predicate(alloc, i, count),
        Meant::Parameter(i) => Ok(call_parameter(alloc, i, count)),
        Meant::Symbol(wanted) => call_symbol(alloc, name, wanted, count, args),
        Meant::Nothing => Ok(None),
    }
}

fn call_variable(
    alloc: Global,
    i: usize,
    count: usize,
    args: BareTerms,
) -> Result<Option<Bare>, NoMemory>
    ensures { IfOk result (λ o. (n : List ℕ) → o ≡ call_bare (a_variable i) n count (bares args)) }
{
    match count {
        0 => Ok(Some(bare_variable(i))),
        1 => Ok(Some(application(alloc, bare_variable(i), args)?)),
        _ => Ok(None),
    }
}

/// A predicate variable P is `P = TRUE`.
fn call_predicate(alloc: Global, i: usize, count: usize) -> Result<Option<Bare>, NoMemory>
    ensures { IfOk result (λ o. (n : List ℕ) (bs : Bares) → o ≡ call_bare (a_predicate i) n count bs) }
{
    if count > 0 {
        return Ok(None);
    }
    let value = leaf(alloc, TRUE_VALUE, None);
    Ok(Some(two(alloc, EQUAL, Some(Ty::Bool), bare_variable(i), value)?))
}

/// A type parameter is the set of all of it.
fn call_parameter(alloc: Global, i: u32, count: usize) -> Option<Bare>
    ensures { (n : List ℕ) (bs : Bares) → result ≡ call_bare (a_parameter i) n count bs }
{
    if count > 0 {
        None
    } else {
        Some(whole(alloc, Ty::Param(i)))
    }
}

/// A symbol with its arguments, or one without arguments that is applied.
fn call_symbol(
    alloc: Global,
    name: &Name,
    wanted: usize,
    count: usize,
    args: BareTerms,
) -> Result<Option<Bare>, NoMemory>
    ensures { IfOk result (λ o. o ≡ call_bare (a_symbol wanted) name.now count (bares args)) }
{
    let sym = Sym::User(name.try_copy(alloc)?);
    if count == wanted {
        return Ok(Some(bare_symbol(sym, None, args)));
    }
    if wanted > 0 || count != 1 {
        return Ok(None);
    }
    let constant = bare_symbol(sym, None, BareTerms::new(alloc));
    Ok(Some(application(alloc, constant, args)?))
}
