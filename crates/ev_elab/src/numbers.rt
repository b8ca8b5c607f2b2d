//! Numbers of type parameters that a theory does not have.
ghost use Rattle.std.specs.Prelude.{◌≡◌, ◌||◌};
ghost use Rattle.std.specs.List.{list_any};
ghost use Rattle.ev_syntax.specs.Raw.{pattern_binders};
ghost use Rattle.ev_syntax.specs.inner.RawView.{raws};
ghost use Rattle.ev_syntax.specs.inner.TypeView.{raw_types};
ghost use Rattle.ev_resolve.specs.UsedNames.{type_params, types_params, written_params, binders_params, used_params, all_used_params};
ghost use Rattle.ev_elab.specs.Unknown.{is_no_number};

use ev_syntax::{Binder, FormulaForm, Pattern, PatternForm, Raw, RawType, RawTypeForm};

/// Whether none of so many type parameters has the number.
#[tactic(auto, using(crate::proofs::Numbering::numbers))]
fn is_past(count: usize, number: u32) -> bool
    ensures { result ≡ is_no_number count number }
{
    count <= number as usize
}

/// Whether a written type has a number that none of so many type parameters has. Linear in the type.
#[cycle(types)]
#[tactic(auto, using(crate::proofs::Numbering::types))]
pub(crate) fn type_passes(count: usize, ty: &RawType) -> bool
    ensures { result ≡ list_any (is_no_number count) (type_params ty.now) }
{
    match ty.form() {
        RawTypeForm::Int | RawTypeForm::Bool => false,
        RawTypeForm::Param(i) => is_past(count, *i),
        RawTypeForm::Named(_, types) => types_pass(count, types.as_slice()),
        RawTypeForm::Pow(a) => type_passes(count, a),
        RawTypeForm::Prod(a, b) => {
            if type_passes(count, a) {
                return true;
            }
            type_passes(count, b)
        }
    }
}

#[cycle(types)]
#[tactic(auto, using(crate::proofs::Numbering::types))]
fn types_pass(count: usize, types: &[RawType]) -> bool
    ensures { result ≡ list_any (is_no_number count) (types_params (raw_types types.now)) }
{
    for ty in types {
        if type_passes(count, ty) {
            return true;
        }
    }
    false
}

fn binder_passes(count: usize, binder: &Binder) -> bool
    ensures { result ≡ list_any (is_no_number count) (written_params binder.now.type) }
{
    match &binder.written {
        Some(ty) => type_passes(count, ty),
        None => false,
    }
}

#[tactic(auto, using(crate::proofs::Numbering::binders))]
fn binders_pass(count: usize, binders: &[Binder]) -> bool
    ensures { result ≡ list_any (is_no_number count) (binders_params binders.now) }
{
    for binder in binders {
        if binder_passes(count, binder) {
            return true;
        }
    }
    false
}

#[tactic(auto, using(crate::proofs::Numbering::patterns))]
fn pattern_passes(count: usize, pattern: &Pattern) -> bool
    ensures { result ≡ list_any (is_no_number count) (binders_params (pattern_binders pattern.now)) }
{
    match pattern.form() {
        PatternForm::Bound(binder) => binder_passes(count, binder),
        PatternForm::Pair(first, second) => {
            if pattern_passes(count, first) {
                return true;
            }
            pattern_passes(count, second)
        }
    }
}

/// The same of a formula. Linear in the formula.
#[cycle(formulas)]
#[tactic(auto, using(crate::proofs::Numbering::walk))]
pub(crate) fn formula_passes(count: usize, raw: &Raw) -> bool
    ensures { result ≡ list_any (is_no_number count) (used_params raw.now) }
{
    match raw.form() {
        FormulaForm::Word(_) | FormulaForm::Literal(_) => false,
        FormulaForm::Param(i) => is_past(count, *i),
        FormulaForm::TypeSet(ty) | FormulaForm::Written(ty) => type_passes(count, ty),
        FormulaForm::Call(_, es) | FormulaForm::Members(es) => any_passes(count, es.as_slice()),
        FormulaForm::Around(_, e) => formula_passes(count, e),
        FormulaForm::Unary(_, e) => formula_passes(count, e),
        FormulaForm::Inverse(e) => formula_passes(count, e),
        FormulaForm::OfType(e, ty) => {
            if formula_passes(count, e) {
                return true;
            }
            type_passes(count, ty)
        }
        FormulaForm::Binary(_, e, f) => either_passes(count, e, f),
        FormulaForm::Apply(e, f) => either_passes(count, e, f),
        FormulaForm::Image(e, f) => either_passes(count, e, f),
        FormulaForm::Quantified(_, bs, e) => {
            if binders_pass(count, bs.as_slice()) {
                return true;
            }
            formula_passes(count, e)
        }
        FormulaForm::SetOf(b, e) => {
            if binder_passes(count, b) {
                return true;
            }
            formula_passes(count, e)
        }
        FormulaForm::Collected(_, bs, e, f) => {
            if binders_pass(count, bs.as_slice()) {
                return true;
            }
            either_passes(count, e, f)
        }
        FormulaForm::Lambda(pattern, e, f) => {
            if pattern_passes(count, pattern) {
                return true;
            }
            either_passes(count, e, f)
        }
    }
}

#[cycle(formulas)]
#[tactic(auto, using(crate::proofs::Numbering::walk))]
fn either_passes(count: usize, e: &Raw, f: &Raw) -> bool
    ensures { result ≡ (list_any (is_no_number count) (used_params e.now) || list_any (is_no_number count) (used_params f.now)) }
{
    if formula_passes(count, e) {
        return true;
    }
    formula_passes(count, f)
}

#[cycle(formulas)]
#[tactic(auto, using(crate::proofs::Numbering::walk))]
fn any_passes(count: usize, es: &[Raw]) -> bool
    ensures { result ≡ list_any (is_no_number count) (all_used_params (raws es.now)) }
{
    for e in es {
        if formula_passes(count, e) {
            return true;
        }
    }
    false
}
