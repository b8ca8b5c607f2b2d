//! Bound names, and what stands under them.
ghost use Rattle.std.specs.Prelude.{◌≡◌, ◌≤◌, ◌++◌, ◌∷◌, [], map, length, take, option_map, IfOk, OnOk};
ghost use Rattle.ev_terms.specs.declared.types.Sym.TheVariants.{Base};
ghost use Rattle.ev_syntax.specs.Raw.{pattern_binders};
ghost use Rattle.ev_resolve.specs.Resolve.{known_of};
ghost use Rattle.ev_resolve.specs.inner.Inners.{binders_told, written_types, bound_vars, wrap};
ghost use Rattle.ev_resolve.specs.inner.Scopes.{scope_of};

use crate::bare::Bare;
use crate::formula_names::FormulaNames;
use crate::makers::one;
use crate::scope::{Scope, ScopeVariable};
use crate::types::resolve_written;
use ev_syntax::{Binder, Pattern, PatternForm, Raw};
use ev_terms::{NoMemory, TryCopy, Ty};
use std::alloc::Global;

/// What stands under bound names: a formula; the condition and the value of a set, and how many names bind; or those of a function,
/// with its pattern.
#[derive(Drop)]
pub enum Inner<'a> {
    Body(&'a Raw),
    Collected(&'a Raw, &'a Raw, usize),
    Lambda(&'a Pattern, &'a Raw, &'a Raw, usize),
}

/// The binders of a list.
pub fn binders_of(alloc: Global, binders: &[Binder]) -> Result<Vec<&Binder>, NoMemory>
    ensures { IfOk result (λ bs. binders_told bs.items ≡ binders.now) }
{
    let mut found = Vec::new(alloc);
    for binder in binders {
        found.push(binder)?;
    }
    Ok(found)
}

/// Appends the binders of a pattern, from left to right.
pub fn push_pattern<'a>(
    alloc: Global,
    pattern: &'a Pattern,
    found: &mut Vec<&'a Binder>,
) -> Result<(), NoMemory>
    ensures { OnOk result (binders_told found.new.items ≡ binders_told found.old.items ++ pattern_binders pattern.now) }
{
    match pattern.form() {
        PatternForm::Bound(binder) => {
            found.push(binder)?;
            Ok(())
        }
        PatternForm::Pair(first, second) => {
            push_pattern(alloc, first, found)?;
            push_pattern(alloc, second, found)
        }
    }
}

/// The types that are written at binders.
#[tactic(auto, using(crate::proofs::BindSteps::types))]
pub fn written_types(
    alloc: Global,
    names: &FormulaNames<'_>,
    binders: &[&Binder],
) -> Result<Option<Vec<Option<Ty>>>, NoMemory>
    ensures { IfOk result (λ o. option_map (λ ts. ts.items) o ≡ written_types names.now.0 (known_of names.now.1) (binders_told binders.now)) }
{
    let mut types = Vec::new(alloc);
    for binder in binders {
        match resolve_written(alloc, names, &binder.written)? {
            Some(written) => types.push(written)?,
            None => return Ok(None),
        }
    }
    Ok(Some(types))
}

/// Puts the names of binders into the scope, the last the innermost.
#[tactic(auto, using(crate::proofs::BindSteps::scopes))]
pub fn push_binders(alloc: Global, scope: &mut Scope, binders: &[&Binder]) -> Result<(), NoMemory>
    ensures told { OnOk result (scope_of scope.new ≡ bound_vars (binders_told binders.now) (scope_of scope.old)) }
    ensures longer { OnOk result (length scope.old ≤ length scope.new) }
    ensures kept { OnOk result (take (length scope.old) scope.new ≡ scope.old) }
{
    for binder in binders {
        let name = Some(binder.name.try_copy(alloc)?);
        scope.push(
            alloc,
            ScopeVariable {
                name,
                is_predicate: false,
            },
        )?;
    }
    Ok(())
}

/// A symbol that binds, once for each of the types, around a bare term.
#[tactic(auto, using(crate::proofs::BindSteps::wraps))]
pub fn wrap(alloc: Global, row: u16, types: Vec<Option<Ty>>, body: Bare) -> Result<Bare, NoMemory>
    ensures { IfOk result (λ b. b ≡ wrap (Base row) types.items body) }
{
    let mut left = types;
    let mut bare = body;
    while let Some(written) = left.pop() {
        bare = one(alloc, row, written, bare)?;
    }
    Ok(bare)
}
