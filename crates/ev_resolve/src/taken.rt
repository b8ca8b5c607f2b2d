//! Binders that have formula names.
ghost use Rattle.std.specs.Prelude.{◌≡◌, ◌||◌};
ghost use Rattle.std.specs.List.{list_any};
ghost use Rattle.ev_syntax.specs.Raw.{pattern_binders};
ghost use Rattle.ev_syntax.specs.inner.RawView.{raws};
ghost use Rattle.ev_resolve.specs.UsedNames.{is_formula_name, names_of, all_binder_names};
ghost use Rattle.ev_resolve.specs.Resolve.{known_of};
ghost use Rattle.ev_resolve.specs.TakenNames.{takes_name};

use crate::formula_names::FormulaNames;
use ev_syntax::{Binder, FormulaForm, Pattern, PatternForm, Raw};

/// Whether some binder of a raw tree has a formula name. Linear in the tree.
#[cycle(taken)]
#[tactic(auto, using(crate::proofs::Taking::walk))]
pub fn has_taken_binder(names: &FormulaNames<'_>, raw: &Raw) -> bool
    ensures { result ≡ takes_name names.now.1 names.now.0 raw.now }
{
    match raw.form() {
        FormulaForm::Word(_) | FormulaForm::Literal(_) | FormulaForm::Param(_) => false,
        FormulaForm::TypeSet(_) | FormulaForm::Written(_) => false,
        FormulaForm::Call(_, es) => takes_any(names, es.as_slice()),
        FormulaForm::Members(es) => takes_any(names, es.as_slice()),
        FormulaForm::Around(_, e) => has_taken_binder(names, e),
        FormulaForm::Unary(_, e) => has_taken_binder(names, e),
        FormulaForm::Inverse(e) => has_taken_binder(names, e),
        FormulaForm::OfType(e, _) => has_taken_binder(names, e),
        FormulaForm::Binary(_, e, f) => takes_either(names, e, f),
        FormulaForm::Apply(e, f) => takes_either(names, e, f),
        FormulaForm::Image(e, f) => takes_either(names, e, f),
        FormulaForm::Quantified(_, bs, e) => {
            if binds_taken(names, bs.as_slice()) {
                return true;
            }
            has_taken_binder(names, e)
        }
        FormulaForm::SetOf(b, e) => {
            if names.has(&b.name) {
                return true;
            }
            has_taken_binder(names, e)
        }
        FormulaForm::Collected(_, bs, e, f) => {
            if binds_taken(names, bs.as_slice()) {
                return true;
            }
            takes_either(names, e, f)
        }
        FormulaForm::Lambda(pattern, e, f) => {
            if pattern_taken(names, pattern) {
                return true;
            }
            takes_either(names, e, f)
        }
    }
}

#[cycle(taken)]
#[tactic(auto, using(crate::proofs::Taking::walk))]
fn takes_either(names: &FormulaNames<'_>, e: &Raw, f: &Raw) -> bool
    ensures { result ≡ (takes_name names.now.1 names.now.0 e.now || takes_name names.now.1 names.now.0 f.now) }
{
    if has_taken_binder(names, e) {
        return true;
    }
    has_taken_binder(names, f)
}

#[cycle(taken)]
#[tactic(auto, using(crate::proofs::Taking::walk))]
fn takes_any(names: &FormulaNames<'_>, es: &[Raw]) -> bool
    ensures { result ≡ list_any (is_formula_name names.now.0 (known_of names.now.1)) (all_binder_names (raws es.now)) }
{
    for e in es {
        if has_taken_binder(names, e) {
            return true;
        }
    }
    false
}

#[tactic(auto, using(crate::proofs::Taking::binders))]
fn binds_taken(names: &FormulaNames<'_>, binders: &[Binder]) -> bool
    ensures { result ≡ list_any (is_formula_name names.now.0 (known_of names.now.1)) (names_of binders.now) }
{
    for binder in binders {
        if names.has(&binder.name) {
            return true;
        }
    }
    false
}

#[tactic(auto, using(crate::proofs::Taking::patterns))]
fn pattern_taken(names: &FormulaNames<'_>, pattern: &Pattern) -> bool
    ensures { result ≡ list_any (is_formula_name names.now.0 (known_of names.now.1)) (names_of (pattern_binders pattern.now)) }
{
    match pattern.form() {
        PatternForm::Bound(binder) => names.has(&binder.name),
        PatternForm::Pair(first, second) => {
            if pattern_taken(names, first) {
                return true;
            }
            pattern_taken(names, second)
        }
    }
}
