//! Raw trees, with their names looked up and their forms spelled out.
ghost use Rattle.std.specs.Prelude.{◌≡◌, ◌∷◌, ◌++◌, [], List, Some, None, option_map, option_and_then, length, IfOk, OnOk};
ghost use Rattle.ev_terms.specs.declared.types.Ty.{Int};
ghost use Rattle.ev_terms.specs.declared.types.Sym.TheVariants.{Base};
ghost use Rattle.ev_forms.specs.Base as base;
ghost use Rattle.ev_syntax.specs.Raw.{call as raw_call, quantified, collected as raw_collected, lambda as raw_lambda, members as raw_members};
ghost use Rattle.ev_syntax.specs.inner.RawView.{raws};
ghost use Rattle.ev_resolve.specs.Reading.{unnamed, quantifier, both, swaps, type_of_raw, entry_of, word_symbols};
ghost use Rattle.ev_resolve.specs.Bare.{bare_of, bare_more, bare_none};
ghost use Rattle.ev_resolve.specs.inner.BareView.{bares};
ghost use Rattle.ev_resolve.specs.Resolve.{known_of, resolve, resolve_all, resolve_members, plain_bare, two_bares, word_bare, bare_one, bare_two, bare_z, type_bare, pattern_bare, bind_all, over_bare, collected_bare};
ghost use Rattle.ev_resolve.specs.declared.scope.ScopeVariable.{ScopeVariable};
ghost use Rattle.ev_resolve.specs.inner.Scopes.{scope_of};
ghost use Rattle.ev_resolve.specs.inner.Marked.{plain_of};
ghost use Rattle.ev_resolve.specs.inner.Inners.{binders_told, inner_bare};

use crate::bare::{Bare, BareTerms, bare_literal, bare_symbol, bare_typed};
use crate::bound::{Inner, binders_of, push_binders, push_pattern, wrap, written_types};
use crate::calls::call;
use crate::formula_names::FormulaNames;
use crate::makers::{and_not, collected, is_member, leaf, one, over, two, whole};
use crate::marks::{Marked, around_symbol, infix_symbol, prefix_symbol, word_symbol};
use crate::names::meaning_of;
use crate::scope::{Scope, ScopeVariable};
use crate::types::resolve_type;
use ev_syntax::mark_names::{BOOL_SET_WORD, FOR_ALL_SIGN, INT_WORD};
use ev_syntax::{Binder, FormulaForm, Pattern, PatternForm, Raw, RawType};
use ev_terms::symbols::{APPLY, EMPTY, FOR_ALL, FOR_SOME, IMAGE, INVERSE, MAPS_TO, OR, SET};
use ev_terms::{Name, NoMemory, Sym, Ty};
use std::alloc::Global;

/// A raw tree as a term before its types are inferred, in a scope. None where a name or a written type has no meaning there, or a name
/// stands with another number of arguments. Linear in the raw tree.
pub fn resolve(
    alloc: Global,
    names: &FormulaNames<'_>,
    raw: &Raw,
    scope: Scope,
) -> Result<Option<Bare>, NoMemory>
    ensures { IfOk result (λ o. o ≡ resolve names.now.0 (known_of names.now.1) raw.now (scope_of scope)) }
{
    let mut scope = scope;
    resolve_raw(alloc, names, raw, &mut scope)
}

#[cycle(resolve)]
#[tactic(auto, using(crate::proofs::ResolveSteps::walk))]
fn resolve_raw(
    alloc: Global,
    names: &FormulaNames<'_>,
    raw: &Raw,
    scope: &mut Scope,
) -> Result<Option<Bare>, NoMemory>
    ensures told { IfOk result (λ o. o ≡ resolve names.now.0 (known_of names.now.1) raw.now (scope_of scope.old)) }
    ensures kept { OnOk result (scope.new ≡ scope.old) }
{
    match raw.form() {
        FormulaForm::Word(mark) => resolve_word(alloc, *mark),
        FormulaForm::Literal(n) => Ok(Some(bare_literal(*n))),
        FormulaForm::Param(i) => Ok(Some(whole(alloc, Ty::Param(*i)))),
        FormulaForm::TypeSet(ty) => resolve_type_set(alloc, names, ty),
        FormulaForm::Call(name, args) => {
            resolve_call(alloc, names, name, args.as_slice(), scope)
        }
        FormulaForm::Around(mark, e) => {
            resolve_marked(alloc, names, around_symbol(*mark), e, scope)
        }
        FormulaForm::Unary(mark, e) => {
            resolve_marked(alloc, names, prefix_symbol(*mark), e, scope)
        }
        FormulaForm::Binary(mark, e, f) => {
            resolve_binary(alloc, names, infix_symbol(*mark), e, f, scope)
        }
        FormulaForm::Inverse(e) => resolve_inverse(alloc, names, e, scope),
        FormulaForm::Apply(f, e) => resolve_pair(alloc, names, APPLY, f, e, scope),
        FormulaForm::Image(r, e) => resolve_pair(alloc, names, IMAGE, r, e, scope),
        FormulaForm::OfType(e, ty) => resolve_typed(alloc, names, e, ty, scope),
        FormulaForm::Quantified(mark, binders, e) => {
            resolve_quantified(alloc, names, *mark, binders.as_slice(), e, scope)
        }
        FormulaForm::SetOf(binder, e) => {
            bind(alloc, names, SET, &[binder], &Inner::Body(e), scope)
        }
        FormulaForm::Collected(mark, binders, e, f) => {
            resolve_collected(alloc, names, *mark, binders.as_slice(), e, f, scope)
        }
        FormulaForm::Lambda(pattern, e, f) => { resolve_lambda(alloc, names, pattern, e, f, scope) }
        FormulaForm::Members(members) => { resolve_set(alloc, names, members.as_slice(), scope) }
        FormulaForm::Written(_) => Ok(None),
    }
}

/// A word alone; `INT` and `BOOL` are the sets of all of these types.
fn resolve_word(alloc: Global, mark: u16) -> Result<Option<Bare>, NoMemory>
    ensures { IfOk result (λ o. o ≡ word_bare (entry_of word_symbols mark) mark) }
{
    if let Some(entry) = word_symbol(mark) {
        return with_entry(alloc, Some(entry), BareTerms::new(alloc));
    }
    if mark == INT_WORD {
        return Ok(Some(whole(alloc, Ty::Int)));
    }
    if mark == BOOL_SET_WORD {
        return Ok(Some(whole(alloc, Ty::Bool)));
    }
    Ok(None)
}

/// The symbol of a mark over its operands, with `not` before it where the mark says so.
fn with_entry(
    alloc: Global,
    entry: Option<Marked>,
    children: BareTerms,
) -> Result<Option<Bare>, NoMemory>
    ensures { IfOk result (λ o. o ≡ plain_bare (option_map plain_of entry) (bares children)) }
{
    match entry {
        None => Ok(None),
        Some(entry) => {
            let bare = bare_symbol(Sym::Base(entry.row), None, children);
            Ok(Some(and_not(alloc, entry.negated, bare)?))
        }
    }
}

fn resolve_type_set(
    alloc: Global,
    names: &FormulaNames<'_>,
    ty: &RawType,
) -> Result<Option<Bare>, NoMemory>
    ensures { IfOk result (λ o. o ≡ option_map type_bare (type_of_raw names.now.0 (known_of names.now.1) ty.now)) }
{
    match resolve_type(alloc, names, ty)? {
        Some(ty) => Ok(Some(whole(alloc, ty))),
        None => Ok(None),
    }
}

#[cycle(resolve)]
#[tactic(auto, using(crate::proofs::ResolveSteps::walk))]
fn resolve_call(
    alloc: Global,
    names: &FormulaNames<'_>,
    name: &Name,
    args: &[Raw],
    scope: &mut Scope,
) -> Result<Option<Bare>, NoMemory>
    ensures told { IfOk result (λ o. o ≡ resolve names.now.0 (known_of names.now.1) (raw_call name.now (raws args.now)) (scope_of scope.old)) }
    ensures kept { OnOk result (scope.new ≡ scope.old) }
{
    let count = args.len();
    let Some(args) = resolve_all(alloc, names, args, scope)? else {
        return Ok(None)
    };
    let meant = meaning_of(alloc, names, scope, name)?;
    call(alloc, meant, name, count, args)
}

#[cycle(resolve)]
#[tactic(auto, using(crate::proofs::ResolveSteps::walk))]
fn resolve_all(
    alloc: Global,
    names: &FormulaNames<'_>,
    list: &[Raw],
    scope: &mut Scope,
) -> Result<Option<BareTerms>, NoMemory>
    ensures told { IfOk result (λ o. option_map bares o ≡ resolve_all names.now.0 (known_of names.now.1) (raws list.now) (scope_of scope.old)) }
    ensures kept { OnOk result (scope.new ≡ scope.old) }
{
    let mut bares = BareTerms::new(alloc);
    for raw in list {
        match resolve_raw(alloc, names, raw, scope)? {
            Some(bare) => bares.push(alloc, bare)?,
            None => return Ok(None),
        }
    }
    Ok(Some(bares))
}

/// A mark before or around its operand.
#[cycle(resolve)]
#[tactic(auto, using(crate::proofs::ResolveSteps::walk))]
fn resolve_marked(
    alloc: Global,
    names: &FormulaNames<'_>,
    entry: Option<Marked>,
    operand: &Raw,
    scope: &mut Scope,
) -> Result<Option<Bare>, NoMemory>
    ensures told { IfOk result (λ o. o ≡ option_and_then (λ b. plain_bare (option_map plain_of entry) (bare_more b bare_none)) (resolve names.now.0 (known_of names.now.1) operand.now (scope_of scope.old))) }
    ensures kept { OnOk result (scope.new ≡ scope.old) }
{
    let Some(operand) = resolve_raw(alloc, names, operand, scope)? else {
        return Ok(None)
    };
    let mut children = BareTerms::new(alloc);
    children.push(alloc, operand)?;
    with_entry(alloc, entry, children)
}

#[cycle(resolve)]
#[tactic(auto, using(crate::proofs::ResolveSteps::walk))]
fn resolve_binary(
    alloc: Global,
    names: &FormulaNames<'_>,
    entry: Option<Marked>,
    left: &Raw,
    right: &Raw,
    scope: &mut Scope,
) -> Result<Option<Bare>, NoMemory>
    ensures told { IfOk result (λ o. o ≡ option_and_then (plain_bare (option_map plain_of entry)) (both (two_bares (swaps (option_map plain_of entry)))
        (resolve names.now.0 (known_of names.now.1) left.now (scope_of scope.old)) (resolve names.now.0 (known_of names.now.1) right.now (scope_of scope.old)))) }
    ensures kept { OnOk result (scope.new ≡ scope.old) }
{
    let Some(left) = resolve_raw(alloc, names, left, scope)? else {
        return Ok(None)
    };
    let Some(right) = resolve_raw(alloc, names, right, scope)? else {
        return Ok(None)
    };
    let children = operands(alloc, entry, left, right)?;
    with_entry(alloc, entry, children)
}

/// The operands in the order in which the symbol takes them.
fn operands(
    alloc: Global,
    entry: Option<Marked>,
    left: Bare,
    right: Bare,
) -> Result<BareTerms, NoMemory>
    ensures { IfOk result (λ bs. bares bs ≡ two_bares (swaps (option_map plain_of entry)) left right) }
{
    if is_swapped(entry) {
        in_order(alloc, right, left)
    } else {
        in_order(alloc, left, right)
    }
}

fn is_swapped(entry: Option<Marked>) -> bool
    ensures { result ≡ swaps (option_map plain_of entry) }
{
    match entry {
        Some(entry) => entry.swapped,
        None => false,
    }
}

fn in_order(alloc: Global, first: Bare, second: Bare) -> Result<BareTerms, NoMemory>
    ensures { IfOk result (λ bs. bares bs ≡ bare_more first (bare_more second bare_none)) }
{
    let mut children = BareTerms::new(alloc);
    children.push(alloc, first)?;
    children.push(alloc, second)?;
    Ok(children)
}

#[cycle(resolve)]
#[tactic(auto, using(crate::proofs::ResolveSteps::walk))]
fn resolve_inverse(
    alloc: Global,
    names: &FormulaNames<'_>,
    relation: &Raw,
    scope: &mut Scope,
) -> Result<Option<Bare>, NoMemory>
    ensures told { IfOk result (λ o. o ≡ option_map (bare_one base.inverse_sym None) (resolve names.now.0 (known_of names.now.1) relation.now (scope_of scope.old))) }
    ensures kept { OnOk result (scope.new ≡ scope.old) }
{
    match resolve_raw(alloc, names, relation, scope)? {
        Some(relation) => Ok(Some(one(alloc, INVERSE, None, relation)?)),
        None => Ok(None),
    }
}

/// An application or an image.
#[cycle(resolve)]
#[tactic(auto, using(crate::proofs::ResolveSteps::walk))]
fn resolve_pair(
    alloc: Global,
    names: &FormulaNames<'_>,
    row: u16,
    left: &Raw,
    right: &Raw,
    scope: &mut Scope,
) -> Result<Option<Bare>, NoMemory>
    ensures told { IfOk result (λ o. o ≡ both (bare_two (Base row) None) (resolve names.now.0 (known_of names.now.1) left.now (scope_of scope.old)) (resolve names.now.0 (known_of names.now.1) right.now (scope_of scope.old))) }
    ensures kept { OnOk result (scope.new ≡ scope.old) }
{
    let Some(left) = resolve_raw(alloc, names, left, scope)? else {
        return Ok(None)
    };
    let Some(right) = resolve_raw(alloc, names, right, scope)? else {
        return Ok(None)
    };
    Ok(Some(two(alloc, row, None, left, right)?))
}

#[cycle(resolve)]
#[tactic(auto, using(crate::proofs::ResolveSteps::walk))]
fn resolve_typed(
    alloc: Global,
    names: &FormulaNames<'_>,
    raw: &Raw,
    ty: &RawType,
    scope: &mut Scope,
) -> Result<Option<Bare>, NoMemory>
    ensures told { IfOk result (λ o. o ≡ both bare_of (resolve names.now.0 (known_of names.now.1) raw.now (scope_of scope.old)) (type_of_raw names.now.0 (known_of names.now.1) ty.now)) }
    ensures kept { OnOk result (scope.new ≡ scope.old) }
{
    let Some(bare) = resolve_raw(alloc, names, raw, scope)? else {
        return Ok(None)
    };
    let Some(ty) = resolve_type(alloc, names, ty)? else {
        return Ok(None)
    };
    Ok(Some(bare_typed(alloc, bare, ty)?))
}

#[cycle(resolve)]
#[tactic(auto, using(crate::proofs::ResolveSteps::walk))]
fn resolve_quantified(
    alloc: Global,
    names: &FormulaNames<'_>,
    mark: u16,
    binders: &[Binder],
    body: &Raw,
    scope: &mut Scope,
) -> Result<Option<Bare>, NoMemory>
    ensures told { IfOk result (λ o. o ≡ resolve names.now.0 (known_of names.now.1) (quantified mark binders.now body.now) (scope_of scope.old)) }
    ensures kept { OnOk result (scope.new ≡ scope.old) }
{
    let row = quantifier_row(mark);
    let binders = binders_of(alloc, binders)?;
    bind(
        alloc,
        names,
        row,
        binders.as_slice(),
        &Inner::Body(body),
        scope,
    )
}

/// The row of `!`, or of `#`.
fn quantifier_row(mark: u16) -> u16
    ensures { Base result ≡ quantifier mark }
{
    if mark == FOR_ALL_SIGN {
        FOR_ALL
    } else {
        FOR_SOME
    }
}

/// Bound names, the first the outermost, around what stands under them.
#[cycle(resolve)]
#[tactic(auto, using(crate::proofs::ResolveSteps::walk))]
fn bind(
    alloc: Global,
    names: &FormulaNames<'_>,
    row: u16,
    binders: &[&Binder],
    inner: &Inner<'_>,
    scope: &mut Scope,
) -> Result<Option<Bare>, NoMemory>
    ensures told { IfOk result (λ o. o ≡ bind_all names.now.0 (known_of names.now.1) (Base row) (binders_told binders.now) (inner_bare names.now.0 (known_of names.now.1) inner.now) (scope_of scope.old)) }
    ensures kept { OnOk result (scope.new ≡ scope.old) }
{
    let Some(types) = written_types(alloc, names, binders)? else {
        return Ok(None)
    };
    let count = scope.len();
    push_binders(alloc, scope, binders)?;
    let body = resolve_inner(alloc, names, inner, scope)?;
    scope.truncate(count);
    match body {
        Some(body) => Ok(Some(wrap(alloc, row, types, body)?)),
        None => Ok(None),
    }
}

#[cycle(resolve)]
#[tactic(auto, using(crate::proofs::ResolveSteps::walk))]
fn resolve_inner(
    alloc: Global,
    names: &FormulaNames<'_>,
    inner: &Inner<'_>,
    scope: &mut Scope,
) -> Result<Option<Bare>, NoMemory>
    ensures told { IfOk result (λ o. o ≡ inner_bare names.now.0 (known_of names.now.1) inner.now (scope_of scope.old)) }
    ensures kept { OnOk result (scope.new ≡ scope.old) }
{
    match inner {
        Inner::Body(body) => resolve_raw(alloc, names, body, scope),
        Inner::Collected(condition, value, bound) => {
            resolve_condition(alloc, names, condition, value, *bound, scope)
        }
        Inner::Lambda(pattern, condition, value, bound) => {
            resolve_mapping(alloc, names, pattern, condition, value, *bound, scope)
        }
    }
}

/// The condition and the value of a set.
#[cycle(resolve)]
#[tactic(auto, using(crate::proofs::ResolveSteps::walk))]
fn resolve_condition(
    alloc: Global,
    names: &FormulaNames<'_>,
    condition: &Raw,
    value: &Raw,
    bound: usize,
    scope: &mut Scope,
) -> Result<Option<Bare>, NoMemory>
    ensures told { IfOk result (λ o. o ≡ both (collected_bare bound) (resolve names.now.0 (known_of names.now.1) condition.now (scope_of scope.old)) (resolve names.now.0 (known_of names.now.1) value.now (scope_of scope.old))) }
    ensures kept { OnOk result (scope.new ≡ scope.old) }
{
    let Some(condition) = resolve_raw(alloc, names, condition, scope)? else {
        return Ok(None)
    };
    let Some(value) = resolve_raw(alloc, names, value, scope)? else {
        return Ok(None)
    };
    Ok(Some(collected(alloc, bound, condition, value)?))
}

/// The condition of a function, and the pairs of its pattern with its value.
#[cycle(resolve)]
#[tactic(auto, using(crate::proofs::ResolveSteps::walk))]
fn resolve_mapping(
    alloc: Global,
    names: &FormulaNames<'_>,
    pattern: &Pattern,
    condition: &Raw,
    value: &Raw,
    bound: usize,
    scope: &mut Scope,
) -> Result<Option<Bare>, NoMemory>
    ensures told { IfOk result (λ o. o ≡ both (collected_bare bound) (resolve names.now.0 (known_of names.now.1) condition.now (scope_of scope.old))
        (both (bare_two base.maps_to_sym None) (pattern_bare names.now.0 (known_of names.now.1) pattern.now (scope_of scope.old)) (resolve names.now.0 (known_of names.now.1) value.now (scope_of scope.old)))) }
    ensures kept { OnOk result (scope.new ≡ scope.old) }
{
    let Some(condition) = resolve_raw(alloc, names, condition, scope)? else {
        return Ok(None)
    };
    let Some(argument) = resolve_pattern(alloc, names, pattern, scope)? else {
        return Ok(None)
    };
    let Some(value) = resolve_raw(alloc, names, value, scope)? else {
        return Ok(None)
    };
    let mapping = two(alloc, MAPS_TO, None, argument, value)?;
    Ok(Some(collected(alloc, bound, condition, mapping)?))
}

#[cycle(resolve)]
#[tactic(auto, using(crate::proofs::ResolveSteps::walk))]
fn resolve_collected(
    alloc: Global,
    names: &FormulaNames<'_>,
    mark: u16,
    binders: &[Binder],
    condition: &Raw,
    value: &Raw,
    scope: &mut Scope,
) -> Result<Option<Bare>, NoMemory>
    ensures told { IfOk result (λ o. o ≡ resolve names.now.0 (known_of names.now.1) (raw_collected mark binders.now condition.now value.now) (scope_of scope.old)) }
    ensures kept { OnOk result (scope.new ≡ scope.old) }
{
    let bound = binders.len();
    let binders = binders_of(alloc, binders)?;
    let inner = Inner::Collected(condition, value, bound);
    match resolve_members_of(alloc, names, binders.as_slice(), &inner, scope)? {
        Some(set) => Ok(Some(over(alloc, mark, set)?)),
        None => Ok(None),
    }
}

#[cycle(resolve)]
#[tactic(auto, using(crate::proofs::ResolveSteps::walk))]
fn resolve_lambda(
    alloc: Global,
    names: &FormulaNames<'_>,
    pattern: &Pattern,
    condition: &Raw,
    value: &Raw,
    scope: &mut Scope,
) -> Result<Option<Bare>, NoMemory>
    ensures told { IfOk result (λ o. o ≡ resolve names.now.0 (known_of names.now.1) (raw_lambda pattern.now condition.now value.now) (scope_of scope.old)) }
    ensures kept { OnOk result (scope.new ≡ scope.old) }
{
    let mut binders = Vec::new(alloc);
    push_pattern(alloc, pattern, &mut binders)?;
    let bound = binders.len();
    let inner = Inner::Lambda(pattern, condition, value, bound);
    resolve_members_of(alloc, names, binders.as_slice(), &inner, scope)
}

/// The set of all z that are values for some bound names.
#[cycle(resolve)]
#[tactic(auto, using(crate::proofs::ResolveSteps::walk))]
fn resolve_members_of(
    alloc: Global,
    names: &FormulaNames<'_>,
    binders: &[&Binder],
    inner: &Inner<'_>,
    scope: &mut Scope,
) -> Result<Option<Bare>, NoMemory>
    ensures told { IfOk result (λ o. o ≡ option_map (bare_one base.set_sym None) (bind_all names.now.0 (known_of names.now.1) base.for_some_sym (binders_told binders.now) (inner_bare names.now.0 (known_of names.now.1) inner.now) (unnamed Int ∷ scope_of scope.old))) }
    ensures kept { OnOk result (scope.new ≡ scope.old) }
{
    push_unnamed(alloc, scope)?;
    let body = bind(alloc, names, FOR_SOME, binders, inner, scope)?;
    scope.pop();
    match body {
        Some(body) => Ok(Some(one(alloc, SET, None, body)?)),
        None => Ok(None),
    }
}

/// A new variable, which no text can name.
#[tactic(auto, using(crate::proofs::ResolveSteps::walk))]
fn push_unnamed(alloc: Global, scope: &mut Scope) -> Result<(), NoMemory>
    ensures told { OnOk result (scope_of scope.new ≡ unnamed Int ∷ scope_of scope.old) }
    ensures back { OnOk result ((v : ScopeVariable) → (vs : List ScopeVariable) → scope.new ≡ vs ++ v ∷ [] → vs ≡ scope.old) }
{
    scope.push(
        alloc,
        ScopeVariable {
            name: None,
            is_predicate: false,
        },
    )
}

/// A pattern as an expression over its names.
fn resolve_pattern(
    alloc: Global,
    names: &FormulaNames<'_>,
    pattern: &Pattern,
    scope: &Scope,
) -> Result<Option<Bare>, NoMemory>
    ensures { IfOk result (λ o. o ≡ pattern_bare names.now.0 (known_of names.now.1) pattern.now (scope_of scope.now)) }
{
    match pattern.form() {
        PatternForm::Bound(binder) => {
            let meant = meaning_of(alloc, names, scope, &binder.name)?;
            call(alloc, meant, &binder.name, 0, BareTerms::new(alloc))
        }
        PatternForm::Pair(first, second) => {
            let Some(first) = resolve_pattern(alloc, names, first, scope)? else {
                return Ok(None)
            };
            let Some(second) = resolve_pattern(alloc, names, second, scope)? else {
                return Ok(None)
            };
            Ok(Some(two(alloc, MAPS_TO, None, first, second)?))
        }
    }
}

/// `{e, .., e}`: the set of all z that are one of them.
#[cycle(resolve)]
#[tactic(auto, using(crate::proofs::ResolveSteps::walk))]
fn resolve_set(
    alloc: Global,
    names: &FormulaNames<'_>,
    members: &[Raw],
    scope: &mut Scope,
) -> Result<Option<Bare>, NoMemory>
    ensures told { IfOk result (λ o. o ≡ resolve names.now.0 (known_of names.now.1) (raw_members (raws members.now)) (scope_of scope.old)) }
    ensures kept { OnOk result (scope.new ≡ scope.old) }
{
    match members {
        [] => Ok(Some(leaf(alloc, EMPTY, None))),
        [first, rest @ ..] => resolve_some(alloc, names, first, rest, scope),
    }
}

/// The set of one member or more.
#[cycle(resolve)]
#[tactic(auto, using(crate::proofs::ResolveSteps::walk))]
fn resolve_some(
    alloc: Global,
    names: &FormulaNames<'_>,
    first: &Raw,
    rest: &[Raw],
    scope: &mut Scope,
) -> Result<Option<Bare>, NoMemory>
    ensures told { IfOk result (λ o. o ≡ option_map (bare_one base.set_sym None) (option_and_then (λ b. resolve_members names.now.0 (known_of names.now.1) (raws rest.now) (unnamed Int ∷ scope_of scope.old) (bare_z b)) (resolve names.now.0 (known_of names.now.1) first.now (unnamed Int ∷ scope_of scope.old)))) }
    ensures kept { OnOk result (scope.new ≡ scope.old) }
{
    push_unnamed(alloc, scope)?;
    let body = resolve_members(alloc, names, first, rest, scope)?;
    scope.pop();
    match body {
        Some(body) => Ok(Some(one(alloc, SET, None, body)?)),
        None => Ok(None),
    }
}

/// `z = a or z = b or ..`, where z is the innermost variable.
#[cycle(resolve)]
#[tactic(auto, using(crate::proofs::ResolveSteps::walk))]
fn resolve_members(
    alloc: Global,
    names: &FormulaNames<'_>,
    first: &Raw,
    rest: &[Raw],
    scope: &mut Scope,
) -> Result<Option<Bare>, NoMemory>
    ensures told { IfOk result (λ o. o ≡ option_and_then (λ b. resolve_members names.now.0 (known_of names.now.1) (raws rest.now) (scope_of scope.old) (bare_z b)) (resolve names.now.0 (known_of names.now.1) first.now (scope_of scope.old))) }
    ensures kept { OnOk result (scope.new ≡ scope.old) }
{
    let Some(member) = resolve_raw(alloc, names, first, scope)? else {
        return Ok(None)
    };
    let mut front = is_member(alloc, member)?;
    for raw in rest {
        let Some(member) = resolve_raw(alloc, names, raw, scope)? else {
            return Ok(None)
        };
        let member = is_member(alloc, member)?;
        front = two(alloc, OR, None, front, member)?;
    }
    Ok(Some(front))
}
