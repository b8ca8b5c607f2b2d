//! The variables of a call as names, as a scope and as a context.
ghost use Rattle.std.specs.Prelude.{◌≡◌, map, reverse, IfOk};
ghost use Rattle.ev_resolve.specs.Reading.{context_type};
ghost use Rattle.ev_resolve.specs.UsedNames.{variable_names};
ghost use Rattle.ev_infer.specs.Annotates.{variables_context};
ghost use Rattle.ev_resolve.specs.Resolve.{forget};
ghost use Rattle.ev_resolve.specs.inner.Scopes.{seen, scope_of};
ghost use Rattle.ev_infer.specs.Answers.{variable, variables};
ghost use Rattle.ev_infer.specs.inner.Improper.{marked, type_or_int, with_type_or_int};

use crate::patterns::is_result;
use ev_resolve::{Scope, ScopeVariable};
use ev_terms::{ListOf, Name, NoMemory, TryCopy, Ty};
use ev_typing::{Env, Var};
use std::alloc::Global;

/// The names of the variables, the innermost first.
#[tactic(auto, using(crate::proofs::ContextSteps::names))]
pub fn names_of(alloc: Global, vars: &[Var]) -> Result<Vec<Name>, NoMemory>
    ensures { IfOk result (λ ns. reverse ns.items ≡ variable_names (variables vars.now)) }
{
    let mut names = Vec::new(alloc);
    let mut i = vars.len();
    while i > 0 {
        i -= 1;
        names.push(vars[i].name.try_copy(alloc)?)?;
    }
    Ok(names)
}

/// The variables as names are looked up among them, the innermost last.
#[tactic(auto, using(crate::proofs::ContextSteps::scopes))]
pub fn scope_of(alloc: Global, vars: &[Var]) -> Result<Scope, NoMemory>
    ensures { IfOk result (λ scope. scope_of scope ≡ map forget (reverse (variables vars.now))) }
{
    let mut scope = Scope::new(alloc);
    for var in vars {
        scope.push(alloc, scope_variable(alloc, var)?)?;
    }
    Ok(scope)
}

#[tactic(auto, using(crate::proofs::ContextSteps::variables))]
fn scope_variable(alloc: Global, var: &Var) -> Result<ScopeVariable, NoMemory>
    ensures { IfOk result (λ v. seen v ≡ forget (variable var.now)) }
{
    Ok(ScopeVariable {
        name: Some(var.name.try_copy(alloc)?),
        is_predicate: matches!(var.ty, Ty::Prop),
    })
}

/// The types of the variables in a context, the outermost first. INT stands for a type that is none of the environment.
#[tactic(auto, using(crate::proofs::ContextSteps::contexts))]
pub fn context_of(alloc: Global, env: &Env, vars: &[Var]) -> Result<Vec<Ty>, NoMemory>
    ensures { IfOk result (λ types. types.items ≡ variables_context (variables (map (with_type_or_int env.now) vars.now))) }
{
    let mut context = Vec::new(alloc);
    for var in vars {
        context.push(context_type(alloc, env, &var.ty)?)?;
    }
    Ok(context)
}

/// A predicate variable stands in the context with BOOL.
#[tactic(auto, using(crate::proofs::ContextSteps::patterns))]
fn context_type(alloc: Global, env: &Env, ty: &Ty) -> Result<Ty, NoMemory>
    ensures { IfOk result (λ a. a ≡ context_type (type_or_int env.now ty.now)) }
{
    if !is_result(env, ty) {
        return Ok(Ty::Int);
    }
    type_in_context(alloc, ty)
}

/// A mark for each variable, the outermost first, where its type is none of the environment.
#[tactic(auto, using(crate::proofs::ContextSteps::contexts))]
pub fn marks_of(alloc: Global, env: &Env, vars: &[Var]) -> Result<Vec<bool>, NoMemory>
    ensures { IfOk result (λ ms. ms.items ≡ map (marked env.now) vars.now) }
{
    let mut marks = Vec::new(alloc);
    for var in vars {
        marks.push(!is_result(env, &var.ty))?;
    }
    Ok(marks)
}

/// The types of the variables in a context, the outermost first.
#[tactic(auto, using(crate::proofs::ContextSteps::contexts))]
pub fn types_of(alloc: Global, vars: &[Var]) -> Result<ListOf<Ty>, NoMemory>
    ensures { IfOk result (λ types. types ≡ variables_context (variables vars.now)) }
{
    let mut types = ListOf::new(alloc);
    for var in vars {
        types.push(alloc, type_in_context(alloc, &var.ty)?)?;
    }
    Ok(types)
}

#[tactic(auto, using(crate::proofs::ContextSteps::patterns))]
fn type_in_context(alloc: Global, ty: &Ty) -> Result<Ty, NoMemory>
    ensures { IfOk result (λ a. a ≡ context_type ty.now) }
{
    match ty {
        Ty::Prop => Ok(Ty::Bool),
        _ => ty.try_copy(alloc),
    }
}
