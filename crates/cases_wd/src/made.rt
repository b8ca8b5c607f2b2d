//! Terms that no short text is.
use crate::refusals::Refusal;
use crate::samples::Setting;
use ev_forms::{
    Binder, Connective, Relation, make_bound, make_joined, make_negation, make_related,
};
use ev_terms::symbols::OVER;
use ev_terms::{NoMemory, Sym, Tree, Trees, TryCopy, Ty, Tys, make_lit, make_node, make_var, same};
use ev_wd::well_defined;
use std::alloc::Global;

/// `FIRST or P`, where P is a predicate, joined so many times with itself.
pub fn doubled(alloc: Global, count: u32, first: Tree, tree: Tree) -> Result<Tree, NoMemory> {
    let mut tree = tree;
    for _ in 0..count {
        let copy = tree.try_copy(alloc)?;
        tree = make_joined(alloc, Connective::And, copy, tree)?;
    }
    make_joined(alloc, Connective::Or, first, tree)
}

/// `1 / x = 1`
fn quotient(alloc: Global, x: u32) -> Result<Tree, NoMemory> {
    let mut children = Trees::new(alloc);
    children.push(alloc, make_lit(alloc, 1)?)?;
    children.push(alloc, make_var(alloc, x)?)?;
    let divided = make_node(alloc, Sym::Base(OVER), Tys::Empty, children)?;
    make_related(
        alloc,
        Relation::Equal,
        Ty::Int,
        divided,
        make_lit(alloc, 1)?,
    )
}

/// `not x = 0`
fn not_zero(alloc: Global, x: u32) -> Result<Tree, NoMemory> {
    let zero = make_lit(alloc, 0)?;
    let x = make_var(alloc, x)?;
    make_negation(
        alloc,
        make_related(alloc, Relation::Equal, Ty::Int, x, zero)?,
    )
}

/// Whether the condition of `!u. !w. 1 / x = 1` is `not x = 0`, for the variable x of the number.
pub fn is_far_kept(alloc: Global, setting: &Setting, x: u32) -> Result<bool, Refusal> {
    let Some(inner) = x.checked_add(2) else {
        return Err(Refusal::Case);
    };
    let tree = make_bound(alloc, Binder::ForAll, Ty::Bool, quotient(alloc, inner)?)?;
    let tree = make_bound(alloc, Binder::ForAll, Ty::Bool, tree)?;
    let condition = well_defined(alloc, &setting.env, &tree)?;
    Ok(same(&condition, &not_zero(alloc, x)?))
}
