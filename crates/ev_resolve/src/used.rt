//! Names that are not in scope.
ghost use Rattle.std.specs.Prelude.{◌≡◌, ◌+◌, ◌||◌, ◌++◌, ◌∷◌, [], reverse, take, length, bytes_eq, IfOk, OnOk};
ghost use Rattle.std.specs.List.{list_any};
ghost use Rattle.ev_syntax.specs.Raw.{pattern_binders};
ghost use Rattle.ev_syntax.specs.inner.RawView.{raws};
ghost use Rattle.ev_syntax.specs.inner.TypeView.{raw_types};
ghost use Rattle.ev_resolve.specs.UsedNames.{type_names, types_names, binders_types_names, written_names, without_bound, names_of, all_used_names, variable_names};
ghost use Rattle.ev_resolve.specs.inner.Inners.{binders_told};
ghost use Rattle.ev_resolve.specs.inner.Scopes.{scope_of};
ghost use Rattle.ev_resolve.specs.inner.Unknown.{is_unknown, uses_unknown};

use crate::bound::{binders_of, push_pattern};
use crate::formula_names::FormulaNames;
use crate::scope::{Scope, ScopeVariable};
use ev_syntax::{Binder, FormulaForm, Raw, RawType, RawTypeForm};
use ev_terms::{Name, NoMemory, TryCopy};
use std::alloc::Global;

/// Whether some name of a raw tree is not in scope, where these are the names of the variables, the innermost last. Linear in the tree
/// and in the number of variables.
pub fn has_unknown_name(
    alloc: Global,
    names: &FormulaNames<'_>,
    variables: &[Name],
    raw: &Raw,
) -> Result<bool, NoMemory>
    ensures { IfOk result (λ b. b ≡ uses_unknown names.now.1 names.now.0 raw.now (reverse variables.now)) }
{
    let mut scope = scope_of_names(alloc, variables)?;
    uses(alloc, names, &mut scope, raw)
}

#[tactic(auto, using(crate::proofs::Using::scopes))]
fn scope_of_names(alloc: Global, variables: &[Name]) -> Result<Scope, NoMemory>
    ensures { IfOk result (λ scope. variable_names (scope_of scope) ≡ reverse variables.now) }
{
    let mut scope = Scope::new(alloc);
    for name in variables {
        push_name(alloc, &mut scope, name)?;
    }
    Ok(scope)
}

/// A new innermost variable of this name.
#[tactic(auto, using(crate::proofs::Using::scopes))]
fn push_name(alloc: Global, scope: &mut Scope, name: &Name) -> Result<(), NoMemory>
    ensures names { OnOk result (variable_names (scope_of scope.new) ≡ name.now ∷ variable_names (scope_of scope.old)) }
    ensures longer { OnOk result (length scope.new ≡ length scope.old + 1) }
    ensures kept { OnOk result (take (length scope.old) scope.new ≡ scope.old) }
{
    let name = Some(name.try_copy(alloc)?);
    scope.push(
        alloc,
        ScopeVariable {
            name,
            is_predicate: false,
        },
    )
}

/// Whether a written type has a name that is no formula name. Linear in the type.
#[cycle(types)]
#[tactic(auto, using(crate::proofs::Using::types))]
pub fn has_unknown_type(names: &FormulaNames<'_>, ty: &RawType) -> bool
    ensures { result ≡ list_any (is_unknown names.now.1 names.now.0) (type_names ty.now) }
{
    match ty.form() {
        RawTypeForm::Int | RawTypeForm::Bool | RawTypeForm::Param(_) => false,
        RawTypeForm::Named(name, types) => {
            if !names.has(name) {
                return true;
            }
            types_use(names, types.as_slice())
        }
        RawTypeForm::Pow(a) => has_unknown_type(names, a),
        RawTypeForm::Prod(a, b) => {
            if has_unknown_type(names, a) {
                return true;
            }
            has_unknown_type(names, b)
        }
    }
}

#[cycle(types)]
#[tactic(auto, using(crate::proofs::Using::types))]
fn types_use(names: &FormulaNames<'_>, types: &[RawType]) -> bool
    ensures { result ≡ list_any (is_unknown names.now.1 names.now.0) (types_names (raw_types types.now)) }
{
    for ty in types {
        if has_unknown_type(names, ty) {
            return true;
        }
    }
    false
}

#[tactic(auto, using(crate::proofs::Using::binders))]
fn binder_uses(names: &FormulaNames<'_>, binder: &Binder) -> bool
    ensures { result ≡ list_any (is_unknown names.now.1 names.now.0) (written_names binder.now.type) }
{
    match &binder.written {
        Some(ty) => has_unknown_type(names, ty),
        None => false,
    }
}

#[tactic(auto, using(crate::proofs::Using::binders))]
fn binders_use(names: &FormulaNames<'_>, binders: &[&Binder]) -> bool
    ensures { result ≡ list_any (is_unknown names.now.1 names.now.0) (binders_types_names (binders_told binders.now)) }
{
    for binder in binders {
        if binder_uses(names, binder) {
            return true;
        }
    }
    false
}

/// Puts the names into the scope, the first the innermost. They are told apart by no order.
#[tactic(auto, using(crate::proofs::Using::scopes))]
fn push_names(alloc: Global, scope: &mut Scope, binders: &[&Binder]) -> Result<(), NoMemory>
    ensures names { OnOk result (variable_names (scope_of scope.new) ≡ names_of (binders_told binders.now) ++ variable_names (scope_of scope.old)) }
    ensures kept { OnOk result (take (length scope.old) scope.new ≡ scope.old) }
{
    let mut left = binders.len();
    'names: while left > 0 {
        left -= 1;
        let binder: &Binder = binders[left];
        push_name(alloc, scope, &binder.name)?;
    }
    Ok(())
}

#[tactic(auto, using(crate::proofs::Using::calls))]
fn is_unknown_here(names: &FormulaNames<'_>, scope: &Scope, name: &Name) -> bool
    ensures { result ≡ list_any (is_unknown names.now.1 names.now.0) (without_bound (variable_names (scope_of scope.now)) (name.now ∷ [])) }
{
    if scope.has(name) {
        return false;
    }
    !names.has(name)
}

#[cycle(uses)]
#[tactic(auto, using(crate::proofs::Using::walk))]
fn uses(
    alloc: Global,
    names: &FormulaNames<'_>,
    scope: &mut Scope,
    raw: &Raw,
) -> Result<bool, NoMemory>
    ensures unknown { IfOk result (λ b. b ≡ uses_unknown names.now.1 names.now.0 raw.now (variable_names (scope_of scope.old))) }
    ensures kept { OnOk result (scope.new ≡ scope.old) }
{
    match raw.form() {
        FormulaForm::Word(_) | FormulaForm::Literal(_) | FormulaForm::Param(_) => Ok(false),
        FormulaForm::TypeSet(ty) => Ok(has_unknown_type(names, ty)),
        FormulaForm::Written(ty) => Ok(has_unknown_type(names, ty)),
        FormulaForm::Call(name, es) => {
            if is_unknown_here(names, scope, name) {
                return Ok(true);
            }
            uses_any(alloc, names, scope, es.as_slice())
        }
        FormulaForm::Members(es) => uses_any(alloc, names, scope, es.as_slice()),
        FormulaForm::Around(_, e) => uses(alloc, names, scope, e),
        FormulaForm::Unary(_, e) => uses(alloc, names, scope, e),
        FormulaForm::Inverse(e) => uses(alloc, names, scope, e),
        FormulaForm::OfType(e, ty) => {
            if uses(alloc, names, scope, e)? {
                return Ok(true);
            }
            Ok(has_unknown_type(names, ty))
        }
        FormulaForm::Binary(_, e, f) => uses_either(alloc, names, scope, e, f),
        FormulaForm::Apply(e, f) => uses_either(alloc, names, scope, e, f),
        FormulaForm::Image(e, f) => uses_either(alloc, names, scope, e, f),
        FormulaForm::Quantified(_, bs, e) => {
            let binders = binders_of(alloc, bs.as_slice())?;
            uses_under(alloc, names, scope, binders.as_slice(), e)
        }
        FormulaForm::SetOf(b, e) => uses_under(alloc, names, scope, &[b], e),
        FormulaForm::Collected(_, bs, e, f) => {
            let binders = binders_of(alloc, bs.as_slice())?;
            uses_both_under(alloc, names, scope, binders.as_slice(), e, f)
        }
        FormulaForm::Lambda(pattern, e, f) => {
            let mut binders = Vec::new(alloc);
            push_pattern(alloc, pattern, &mut binders)?;
            uses_both_under(alloc, names, scope, binders.as_slice(), e, f)
        }
    }
}

#[cycle(uses)]
#[tactic(auto, using(crate::proofs::Using::walk))]
fn uses_either(
    alloc: Global,
    names: &FormulaNames<'_>,
    scope: &mut Scope,
    e: &Raw,
    f: &Raw,
) -> Result<bool, NoMemory>
    ensures unknown { IfOk result (λ b. b ≡ (uses_unknown names.now.1 names.now.0 e.now (variable_names (scope_of scope.old)) || uses_unknown names.now.1 names.now.0 f.now (variable_names (scope_of scope.old)))) }
    ensures kept { OnOk result (scope.new ≡ scope.old) }
{
    if uses(alloc, names, scope, e)? {
        return Ok(true);
    }
    uses(alloc, names, scope, f)
}

#[cycle(uses)]
#[tactic(auto, using(crate::proofs::Using::walk))]
fn uses_any(
    alloc: Global,
    names: &FormulaNames<'_>,
    scope: &mut Scope,
    es: &[Raw],
) -> Result<bool, NoMemory>
    ensures unknown { IfOk result (λ b. b ≡ list_any (is_unknown names.now.1 names.now.0) (all_used_names (raws es.now) (variable_names (scope_of scope.old)))) }
    ensures kept { OnOk result (scope.new ≡ scope.old) }
{
    for e in es {
        if uses(alloc, names, scope, e)? {
            return Ok(true);
        }
    }
    Ok(false)
}

/// A formula under bound names.
#[cycle(uses)]
#[tactic(auto, using(crate::proofs::Using::walk))]
fn uses_under(
    alloc: Global,
    names: &FormulaNames<'_>,
    scope: &mut Scope,
    binders: &[&Binder],
    e: &Raw,
) -> Result<bool, NoMemory>
    ensures unknown { IfOk result (λ b. b ≡ (list_any (is_unknown names.now.1 names.now.0) (binders_types_names (binders_told binders.now)) || uses_unknown names.now.1 names.now.0 e.now (names_of (binders_told binders.now) ++ variable_names (scope_of scope.old)))) }
    ensures kept { OnOk result (scope.new ≡ scope.old) }
{
    if binders_use(names, binders) {
        return Ok(true);
    }
    let count = scope.len();
    push_names(alloc, scope, binders)?;
    let found = uses(alloc, names, scope, e)?;
    scope.truncate(count);
    Ok(found)
}

/// The two parts of a set or a function under bound names.
#[cycle(uses)]
#[tactic(auto, using(crate::proofs::Using::walk))]
fn uses_both_under(
    alloc: Global,
    names: &FormulaNames<'_>,
    scope: &mut Scope,
    binders: &[&Binder],
    e: &Raw,
    f: &Raw,
) -> Result<bool, NoMemory>
    ensures unknown { IfOk result (λ b. b ≡ (list_any (is_unknown names.now.1 names.now.0) (binders_types_names (binders_told binders.now))
        || (uses_unknown names.now.1 names.now.0 e.now (names_of (binders_told binders.now) ++ variable_names (scope_of scope.old)) || uses_unknown names.now.1 names.now.0 f.now (names_of (binders_told binders.now) ++ variable_names (scope_of scope.old))))) }
    ensures kept { OnOk result (scope.new ≡ scope.old) }
{
    if binders_use(names, binders) {
        return Ok(true);
    }
    let count = scope.len();
    push_names(alloc, scope, binders)?;
    let found = uses_either(alloc, names, scope, e, f)?;
    scope.truncate(count);
    Ok(found)
}
