//! Names that stand alone for a variable.
ghost use Rattle.std.specs.Prelude.{◌≡◌, ◌↔◌, ℕ, IsTrue, IfSome, IfNone};
ghost use Rattle.std.specs.Option.{option_copied};
ghost use Rattle.ev_infer.specs.inner.Variables.{is_name, IsVariable, FitsAsked, IsVariableAnswer};

use crate::faults::InferFault;
use crate::filling::variable;
use ev_resolve::{Bare, BareForm};
use ev_syntax::{FormulaForm, Raw};
use ev_terms::{Extent, Same, Tree, Ty};
use std::alloc::Global;

/// Whether a raw tree is a name without arguments, or that with types that it is said to have.
#[tactic(auto, using(crate::proofs::VariableSteps::names))]
fn is_name(raw: &Raw) -> bool
    ensures { result ≡ is_name raw.now }
{
    match raw.form() {
        FormulaForm::Call(_, args) => args.len() == 0,
        FormulaForm::OfType(e, _) => is_name(e),
        FormulaForm::Quantified(_, binders, e) => binders.len() == 0 && is_name(e),
        _ => false,
    }
}

/// The annotation of a name that stands alone, where these are the types of the variables, the outermost variable's first.
#[tactic(auto, using(crate::proofs::VariableSteps::answers))]
pub fn variable_answer(
    alloc: Global,
    types: &[Ty],
    raw: &Raw,
    bare: &Bare,
    expected: Option<&Ty>,
    limit: &Extent,
) -> Result<Tree, InferFault>
    ensures { IsVariableAnswer raw.now bare.now types.now (option_copied expected.entry) limit.now result }
{
    if !is_name(raw) {
        return Err(InferFault::IllTyped);
    }
    let Some(i) = variable_of(types, bare) else {
        return Err(InferFault::IllTyped)
    };
    if !has_type(types, i, expected) {
        return Err(InferFault::IllTyped);
    }
    if limit.size < 1 || limit.depth < 1 {
        return Err(InferFault::TooLarge);
    }
    Ok(variable(alloc, i)?)
}

/// The variable, where each type that it is said to have is its own.
#[tactic(auto, using(crate::proofs::VariableSteps::variables))]
fn variable_of(types: &[Ty], bare: &Bare) -> Option<usize>
    ensures found { IfSome result (λ i. IsVariable bare.now types.now i) }
    ensures none { IfNone result ((i : ℕ) → ¬ IsVariable bare.now types.now i) }
{
    match bare.form() {
        BareForm::Var(i) => Some(*i),
        BareForm::Of(inner, ty) => {
            let i = variable_of(types, &**inner)?;
            if has_type(types, i, Some(ty)) {
                Some(i)
            } else {
                None
            }
        }
        _ => None,
    }
}

/// Whether the variable has a type, and it is the one that is asked, where one is.
#[tactic(auto, using(crate::proofs::VariableSteps::types))]
fn has_type(types: &[Ty], i: usize, asked: Option<&Ty>) -> bool
    ensures { IsTrue result ↔ FitsAsked types.now i (option_copied asked.entry) }
{
    if i >= types.len() {
        return false;
    }
    let own = &types[types.len() - 1 - i];
    match asked {
        Some(ty) => ty.same(own),
        None => true,
    }
}
