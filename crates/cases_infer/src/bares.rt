//! Bare terms: those that formulas mean, their annotations, and their texts. A variable is `x` and the number of binders between, a base
//! symbol is `#` and its number.
use crate::formulas::{extent_text, formula_names, raw_of};
use crate::refusals::Refusal;
use crate::settings::Setting;
use ev_infer::annotate;
use ev_print::print_type;
use ev_resolve::{
    Bare, BareForm, BareTerms, Scope, ScopeVariable, bare_literal, bare_symbol, bare_variable,
    resolve,
};
use ev_syntax::Sort;
use ev_terms::{NoMemory, Sym, Tree, TryCopy, Ty};
use ev_typing::Vars;
use std::alloc::Global;

/// The variables in scope, the innermost last.
fn scope_of(alloc: Global, vars: &Vars) -> Result<Scope, NoMemory> {
    let mut scope = Scope::new(alloc);
    for var in vars.as_slice() {
        scope.push(
            alloc,
            ScopeVariable {
                name: Some(var.name.try_copy(alloc)?),
                is_predicate: matches!(var.ty, Ty::Prop),
            },
        )?;
    }
    Ok(scope)
}

/// The bare term that a text means.
fn bare_of(alloc: Global, setting: &Setting, sort: Sort, text: &[u8]) -> Result<Bare, Refusal> {
    let raw = raw_of(alloc, text, sort, setting.nesting)?;
    let scope = scope_of(alloc, &setting.vars)?;
    let known = formula_names(alloc, setting)?;
    match resolve(alloc, &known, &raw, scope)? {
        Some(bare) => Ok(bare),
        None => Err(Refusal::NoTerm),
    }
}

/// The type of a variable. A predicate variable stands in the context with BOOL.
fn type_of(alloc: Global, ty: &Ty) -> Result<Ty, NoMemory> {
    match ty {
        Ty::Prop => Ok(Ty::Bool),
        _ => ty.try_copy(alloc),
    }
}

/// The types of the variables, the outermost first.
fn context_of(alloc: Global, vars: &Vars) -> Result<Vec<Ty>, NoMemory> {
    let mut context = Vec::new(alloc);
    for var in vars.as_slice() {
        context.push(type_of(alloc, &var.ty)?)?;
    }
    Ok(context)
}

/// The size and the depth of the annotation of a bare term.
fn annotated(
    alloc: Global,
    setting: &Setting,
    asked: Option<&Ty>,
    bare: &Bare,
) -> Result<Vec<u8>, Refusal> {
    let context = context_of(alloc, &setting.vars)?;
    let tree = annotate(
        alloc,
        &setting.env,
        context.as_slice(),
        bare,
        asked,
        &setting.limit,
    )?;
    extent_text(alloc, &tree)
}

/// The size and the depth of the annotation of what a text means.
pub fn annotated_extent(
    alloc: Global,
    setting: &Setting,
    asked: Option<&Ty>,
    text: &[u8],
) -> Result<Vec<u8>, Refusal> {
    let bare = bare_of(alloc, setting, Sort::Either, text)?;
    annotated(alloc, setting, asked, &bare)
}

/// The bare term of a term.
#[cycle(forgotten)]
#[tactic(auto, using(ev_typing::proofs::BaseSequents::walk))]
fn forgotten(alloc: Global, tree: &Tree) -> Result<Bare, NoMemory> {
    if let Some(i) = tree.var() {
        return Ok(bare_variable(i as usize));
    }
    if let Some(n) = tree.lit() {
        return Ok(bare_literal(n));
    }
    match tree.sym() {
        Some(sym) => {
            let children = all_forgotten(alloc, tree.children())?;
            Ok(bare_symbol(sym.try_copy(alloc)?, None, children))
        }
        None => Ok(bare_literal(0)),
    }
}

#[cycle(forgotten)]
#[tactic(auto, using(ev_typing::proofs::BaseSequents::walk))]
fn all_forgotten(alloc: Global, trees: &[Tree]) -> Result<BareTerms, NoMemory> {
    let mut terms = BareTerms::new(alloc);
    for tree in trees {
        terms.push(alloc, forgotten(alloc, tree)?)?;
    }
    Ok(terms)
}

/// The size and the depth of the annotation of a term without its types.
pub fn annotated_again(
    alloc: Global,
    setting: &Setting,
    asked: Option<&Ty>,
    tree: &Tree,
) -> Result<Vec<u8>, Refusal> {
    let bare = forgotten(alloc, tree)?;
    annotated(alloc, setting, asked, &bare)
}

fn push_number(alloc: Global, line: &mut Vec<u8>, sign: &str, n: u128) -> Result<(), NoMemory> {
    let text = format!(in alloc; "{sign}{n}")?;
    line.extend_from_slice(text.as_bytes())?;
    Ok(())
}

fn push_sym(alloc: Global, line: &mut Vec<u8>, sym: &Sym) -> Result<(), NoMemory> {
    match sym {
        Sym::Base(row) => push_number(alloc, line, "#", u128::from(*row)),
        Sym::User(name) => {
            line.extend_from_slice(name.as_slice())?;
            Ok(())
        }
    }
}

fn push_type(alloc: Global, line: &mut Vec<u8>, before: &str, ty: &Ty) -> Result<(), NoMemory> {
    line.extend_from_slice(before.as_bytes())?;
    let text = print_type(alloc, ty)?;
    line.extend_from_slice(text.as_slice())?;
    Ok(())
}

#[cycle(texts)]
#[tactic(auto, using(crate::proofs::Heights::bare_terms))]
fn push_children(alloc: Global, line: &mut Vec<u8>, children: &[Bare]) -> Result<(), NoMemory> {
    line.push(b'(')?;
    let mut is_first = true;
    for child in children {
        if !is_first {
            line.extend_from_slice(b", ")?;
        }
        push_bare(alloc, line, child)?;
        is_first = false;
    }
    line.push(b')')?;
    Ok(())
}

#[cycle(texts)]
#[tactic(auto, using(crate::proofs::Heights::bare_terms))]
fn push_node(
    alloc: Global,
    line: &mut Vec<u8>,
    sym: &Sym,
    written: &Option<Ty>,
    children: &[Bare],
) -> Result<(), NoMemory> {
    push_sym(alloc, line, sym)?;
    if let Some(ty) = written {
        push_type(alloc, line, "<", ty)?;
        line.push(b'>')?;
    }
    if children.is_empty() {
        return Ok(());
    }
    push_children(alloc, line, children)
}

#[cycle(texts)]
#[tactic(auto, using(crate::proofs::Heights::bare_terms))]
fn push_bare(alloc: Global, line: &mut Vec<u8>, bare: &Bare) -> Result<(), NoMemory> {
    match bare.form() {
        BareForm::Var(i) => push_number(alloc, line, "x", *i as u128),
        BareForm::Lit(n) => push_number(alloc, line, "", *n),
        BareForm::Node(sym, written, children) => {
            push_node(alloc, line, sym, written, children.as_slice())
        }
        BareForm::Of(bare, ty) => {
            line.push(b'(')?;
            push_bare(alloc, line, &**bare)?;
            push_type(alloc, line, " oftype ", ty)?;
            Ok(line.push(b')')?)
        }
    }
}

/// The bare term that a text means, as a text.
pub fn bare_text(
    alloc: Global,
    setting: &Setting,
    sort: Sort,
    text: &[u8],
) -> Result<Vec<u8>, Refusal> {
    let bare = bare_of(alloc, setting, sort, text)?;
    let mut line = Vec::new(alloc);
    push_bare(alloc, &mut line, &bare)?;
    Ok(line)
}
