//! Bare terms over one child and two.
ghost use Rattle.std.specs.Prelude.{◌≡◌, IfOk, Some, None};
ghost use Rattle.ev_terms.specs.declared.types.Ty.{Bool};
ghost use Rattle.ev_terms.specs.declared.types.Sym.TheVariants.{Base};
ghost use Rattle.ev_forms.specs.Base as base;
ghost use Rattle.ev_resolve.specs.inner.BareView.{bares};
ghost use Rattle.ev_resolve.specs.Resolve.{bare_one, bare_two, bare_leaf, type_bare, bare_and_not, bare_z, collected_bare, over_bare, application_bare};

use crate::bare::{Bare, BareTerms, bare_symbol, bare_variable};
use ev_syntax::mark_names::{OPEN_BRACE, UNION_OVER_WORD};
use ev_terms::symbols::{AND, APPLY, BIG_INTER, BIG_UNION, EQUAL, NOT, TYPE};
use ev_terms::{NoMemory, Sym, Ty};
use std::alloc::Global;

/// A base symbol without children.
pub fn leaf(alloc: Global, row: u16, written: Option<Ty>) -> Bare
    ensures { result ≡ bare_leaf (Base row) written }
{
    bare_symbol(Sym::Base(row), written, BareTerms::new(alloc))
}

/// A base symbol over one child.
pub fn one(alloc: Global, row: u16, written: Option<Ty>, child: Bare) -> Result<Bare, NoMemory>
    ensures { IfOk result (λ b. b ≡ bare_one (Base row) written child) }
{
    let mut children = BareTerms::new(alloc);
    children.push(alloc, child)?;
    Ok(bare_symbol(Sym::Base(row), written, children))
}

/// A base symbol over two children.
pub fn two(
    alloc: Global,
    row: u16,
    written: Option<Ty>,
    left: Bare,
    right: Bare,
) -> Result<Bare, NoMemory>
    ensures { IfOk result (λ b. b ≡ bare_two (Base row) written left right) }
{
    let mut children = BareTerms::new(alloc);
    children.push(alloc, left)?;
    children.push(alloc, right)?;
    Ok(bare_symbol(Sym::Base(row), written, children))
}

/// The set of all of a type.
pub fn whole(alloc: Global, ty: Ty) -> Bare
    ensures { result ≡ type_bare ty }
{
    leaf(alloc, TYPE, Some(ty))
}

/// The bare term, or its negation.
pub fn and_not(alloc: Global, negated: bool, bare: Bare) -> Result<Bare, NoMemory>
    ensures { IfOk result (λ b. b ≡ bare_and_not negated bare) }
{
    if negated {
        one(alloc, NOT, None, bare)
    } else {
        Ok(bare)
    }
}

/// `z = E`, where z is the innermost variable.
pub fn is_member(alloc: Global, value: Bare) -> Result<Bare, NoMemory>
    ensures { IfOk result (λ b. b ≡ bare_z value) }
{
    two(alloc, EQUAL, None, bare_variable(0), value)
}

/// `P & z = E`, where z is the variable that bounds so many others.
pub fn collected(
    alloc: Global,
    bound: usize,
    condition: Bare,
    value: Bare,
) -> Result<Bare, NoMemory>
    ensures { IfOk result (λ b. b ≡ collected_bare bound condition value) }
{
    let equation = two(alloc, EQUAL, None, bare_variable(bound), value)?;
    two(alloc, AND, None, condition, equation)
}

/// The set, or its union or intersection, by the mark that begins it.
pub fn over(alloc: Global, mark: u16, set: Bare) -> Result<Bare, NoMemory>
    ensures { IfOk result (λ b. b ≡ over_bare mark set) }
{
    if mark == OPEN_BRACE {
        return Ok(set);
    }
    let row = if mark == UNION_OVER_WORD {
        BIG_UNION
    } else {
        BIG_INTER
    };
    one(alloc, row, None, set)
}

/// The application of a bare term to arguments.
pub fn application(alloc: Global, function: Bare, args: BareTerms) -> Result<Bare, NoMemory>
    ensures { IfOk result (λ b. b ≡ application_bare function (bares args)) }
{
    let mut children = args.into_vec();
    match children.insert(0, function) {
        Ok(()) => Ok(bare_symbol(Sym::Base(APPLY), None, BareTerms::from_vec(children))),
        Err(_) => Err(NoMemory),
    }
}
