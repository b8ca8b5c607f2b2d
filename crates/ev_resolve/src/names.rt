//! What names mean: variables, type parameters and declared symbols.
ghost use Rattle.std.specs.Prelude.{◌≡◌, IfOk};
ghost use Rattle.ev_resolve.specs.Reading.{meaning, formula_meaning};
ghost use Rattle.ev_resolve.specs.Resolve.{known_of};
ghost use Rattle.ev_resolve.specs.inner.Scopes.{scope_of, meaning_told};

use crate::formula_names::FormulaNames;
use crate::scope::Scope;
use ev_terms::{Name, NoMemory};
use std::alloc::Global;

/// What a name means: a variable or a predicate variable by the number of those inside it, a type parameter by its number, a symbol
/// with so many arguments, or nothing that a formula may name.
#[derive(Drop)]
pub enum Meant {
    Variable(usize),
    Predicate(usize),
    Parameter(u32),
    Symbol(usize),
    Nothing,
}

/// What a name means that names no variable.
fn formula_meant(alloc: Global, names: &FormulaNames<'_>, name: &Name) -> Result<Meant, NoMemory>
    ensures { IfOk result (λ m. meaning_told m ≡ formula_meaning names.now.0 (known_of names.now.1) name.now) }
{
    if let Some(i) = names.parameter(name) {
        return Ok(Meant::Parameter(i));
    }
    match names.argument_count(alloc, name)? {
        Some(count) => Ok(Meant::Symbol(count)),
        None => Ok(Meant::Nothing),
    }
}

/// What a name means in a scope.
pub fn meaning_of(
    alloc: Global,
    names: &FormulaNames<'_>,
    scope: &Scope,
    name: &Name,
) -> Result<Meant, NoMemory>
    ensures { IfOk result (λ m. meaning_told m ≡ meaning names.now.0 (known_of names.now.1) name.now (scope_of scope.now) 0) }
{
    match scope.variable(name) {
        Some(meant) => Ok(meant),
        None => formula_meant(alloc, names, name),
    }
}
