//! Terms at base symbols that only conditions are made of.
ghost use Rattle.std.specs.Prelude.{◌≡◌, IfOk, Err};
ghost use Rattle.ev_terms.specs.Term.{node, nil, cons};
ghost use Rattle.ev_terms.specs.declared.types.Sym.TheVariants.{Base};
ghost use Rattle.ev_terms.specs.declared.types.Ty.{Int};
ghost use Rattle.ev_terms.specs.Substitution.{type_at};
ghost use Rattle.ev_forms.specs.Forms.{finite, whole, empty, domain, partial_functions, at_most, less, neg, eq};
ghost use Rattle.ev_terms.specs.Term.{lit};
ghost use Rattle.ev_wd.specs.Limits.{IsSmall};
ghost use Rattle.ev_wd.specs.Demands.{is_not_empty, is_bounded, is_in_domain, is_partial_function};
ghost use Rattle.ev_wd.specs.declared.faults.WdFault.TheVariants.{TooLarge};

use crate::faults::WdFault;
use crate::limits::is_small;
use crate::type_nodes::{one_type, two_types, type_at};
use ev_forms::{
    Binder, Connective, Relation, make_bound, make_joined, make_negation, make_related,
};
use ev_terms::symbols::{AT_MOST, DOM, EMPTY, FINITE, LESS, PARTIAL_FUNCTION, TYPE};
use ev_terms::{
    NoMemory, Sym, Tree, Trees, TryCopy, Ty, Tys, make_lit, make_node, make_var, shift, shift_fits,
};
use ev_typing::{pair_of, set_of};
use std::alloc::Global;

fn leaf(alloc: Global, row: u16, types: Tys) -> Result<Tree, NoMemory>
    ensures { IfOk result (λ t. t ≡ node (Base row) types nil) }
{
    make_node(alloc, Sym::Base(row), types, Trees::new(alloc))
}

fn with_one(alloc: Global, row: u16, types: Tys, child: Tree) -> Result<Tree, NoMemory>
    ensures { IfOk result (λ t. t ≡ node (Base row) types (cons child nil)) }
{
    let mut children = Trees::new(alloc);
    children.push(alloc, child)?;
    make_node(alloc, Sym::Base(row), types, children)
}

fn with_two(alloc: Global, row: u16, types: Tys, left: Tree, right: Tree) -> Result<Tree, NoMemory>
    ensures { IfOk result (λ t. t ≡ node (Base row) types (cons left (cons right nil))) }
{
    let mut children = Trees::new(alloc);
    children.push(alloc, left)?;
    children.push(alloc, right)?;
    make_node(alloc, Sym::Base(row), types, children)
}

/// `finite(S)`
pub(crate) fn make_finite(alloc: Global, ty: Ty, set: &Tree) -> Result<Tree, NoMemory>
    ensures { IfOk result (λ t. t ≡ finite ty set.now) }
{
    let types = one_type(alloc, ty)?;
    with_one(alloc, FINITE, types, set.try_copy(alloc)?)
}

/// `TYPE(A)`
fn make_whole(alloc: Global, ty: Ty) -> Result<Tree, NoMemory>
    ensures { IfOk result (λ t. t ≡ whole ty) }
{
    leaf(alloc, TYPE, one_type(alloc, ty)?)
}

/// `{}`
fn make_empty(alloc: Global, ty: Ty) -> Result<Tree, NoMemory>
    ensures { IfOk result (λ t. t ≡ empty ty) }
{
    leaf(alloc, EMPTY, one_type(alloc, ty)?)
}

/// `m <= n`
pub(crate) fn make_at_most(alloc: Global, left: Tree, right: Tree) -> Result<Tree, NoMemory>
    ensures { IfOk result (λ t. t ≡ at_most left right) }
{
    with_two(alloc, AT_MOST, Tys::Empty, left, right)
}

/// `0 <= n`
pub(crate) fn is_natural(alloc: Global, number: &Tree) -> Result<Tree, NoMemory>
    ensures { IfOk result (λ t. t ≡ at_most (lit 0) number.now) }
{
    let number = number.try_copy(alloc)?;
    make_at_most(alloc, make_lit(alloc, 0)?, number)
}

/// `0 < n`
pub(crate) fn is_positive(alloc: Global, number: &Tree) -> Result<Tree, NoMemory>
    ensures { IfOk result (λ t. t ≡ less (lit 0) number.now) }
{
    let number = number.try_copy(alloc)?;
    with_two(alloc, LESS, Tys::Empty, make_lit(alloc, 0)?, number)
}

/// `not n = 0`
pub(crate) fn is_not_zero(alloc: Global, number: &Tree) -> Result<Tree, NoMemory>
    ensures { IfOk result (λ t. t ≡ neg (eq Int number.now (lit 0))) }
{
    let number = number.try_copy(alloc)?;
    let zero = make_lit(alloc, 0)?;
    make_negation(
        alloc,
        make_related(alloc, Relation::Equal, Ty::Int, number, zero)?,
    )
}

/// `not S = {}`, for a set of members of the type.
pub(crate) fn is_not_empty(alloc: Global, ty: Ty, set: &Tree) -> Result<Tree, NoMemory>
    ensures { IfOk result (λ t. t ≡ is_not_empty ty set.now) }
{
    let sets = set_of(alloc, ty.try_copy(alloc)?)?;
    let empty = make_empty(alloc, ty)?;
    let set = set.try_copy(alloc)?;
    make_negation(
        alloc,
        make_related(alloc, Relation::Equal, sets, set, empty)?,
    )
}

/// `x : dom(f)`, for type arguments of an application.
pub(crate) fn is_in_domain(
    alloc: Global,
    types: &Tys,
    function: &Tree,
    argument: &Tree,
) -> Result<Tree, NoMemory>
    ensures { IfOk result (λ t. t ≡ is_in_domain (type_at types.now 0) (type_at types.now 1) function.now argument.now) }
{
    let both = two_types(alloc, type_at(alloc, types, 0)?, type_at(alloc, types, 1)?)?;
    let domain = with_one(alloc, DOM, both, function.try_copy(alloc)?)?;
    let argument = argument.try_copy(alloc)?;
    make_related(
        alloc,
        Relation::In,
        type_at(alloc, types, 0)?,
        argument,
        domain,
    )
}

/// `TYPE(A) +-> TYPE(B)`
fn make_functions(alloc: Global, from: Ty, to: Ty) -> Result<Tree, NoMemory>
    ensures { IfOk result (λ t. t ≡ partial_functions from to (whole from) (whole to)) }
{
    let both = two_types(alloc, from.try_copy(alloc)?, to.try_copy(alloc)?)?;
    let all = make_whole(alloc, from)?;
    with_two(alloc, PARTIAL_FUNCTION, both, all, make_whole(alloc, to)?)
}

/// `f : TYPE(A) +-> TYPE(B)`, for type arguments of an application.
pub(crate) fn is_partial_function(
    alloc: Global,
    types: &Tys,
    function: &Tree,
) -> Result<Tree, NoMemory>
    ensures { IfOk result (λ t. t ≡ is_partial_function (type_at types.now 0) (type_at types.now 1) function.now) }
{
    let (from, to) = (type_at(alloc, types, 0)?, type_at(alloc, types, 1)?);
    let pairs = pair_of(alloc, from.try_copy(alloc)?, to.try_copy(alloc)?)?;
    let functions = make_functions(alloc, from, to)?;
    let function = function.try_copy(alloc)?;
    make_related(
        alloc,
        Relation::In,
        set_of(alloc, pairs)?,
        function,
        functions,
    )
}

/// `#k. !m. m : S => P`, where k is the variable 1 of P and m the variable 0. A set with a variable too near 2^32 to be raised by 2 is
/// answered as want of memory.
#[tactic(auto, using(crate::proofs::Bounding::bounds))]
pub(crate) fn is_bounded(alloc: Global, predicate: Tree, set: &Tree) -> Result<Tree, WdFault>
    ensures found { IfOk result (λ t. t ≡ is_bounded predicate set.now) }
    ensures large { result ≡ Err TooLarge → ¬ IsSmall (is_bounded predicate set.now) }
{
    if !is_small(set) {
        return Err(WdFault::TooLarge);
    }
    if !shift_fits(set, 0, 2) {
        return Err(WdFault::NoMemory);
    }
    let set = shift(alloc, set, 0, 2)?;
    let member = make_related(alloc, Relation::In, Ty::Int, make_var(alloc, 0)?, set)?;
    let implied = make_joined(alloc, Connective::Implies, member, predicate)?;
    let all = make_bound(alloc, Binder::ForAll, Ty::Int, implied)?;
    Ok(make_bound(alloc, Binder::ForSome, Ty::Int, all)?)
}
