//! Large cases. `comb WIDTH LEVELS` is a tree of so many levels, each a binder over a node with so many leaves before the next level.
//! All leaves are one variable from outside, whose number rises by one under each binder.
use crate::words::two_numbers;
use cases_notation::fault::Fault;
use cases_notation::text::Text;
use cases_notation::writing::{write_extent, write_tree};
use ev_rewrite::{match_pattern, node_at, path_types, replace_at};
use ev_terms::symbols::FOR_ALL;
use ev_terms::{
    Name, Place, Sym, Tree, Trees, TryCopy, Ty, Tys, extent, loose, make_lit, make_node, make_var,
    same,
};
use std::alloc::Global;

/// The greatest width, and the greatest number of levels.
const LIMIT: u32 = 1_000;

fn level(alloc: Global, width: u32, leaf: u32, inner: Tree) -> Result<Tree, Fault> {
    let mut children = Trees::new(alloc);
    for _ in 0..width {
        children.push(alloc, make_var(alloc, leaf)?)?;
    }
    children.push(alloc, inner)?;
    let name = Name::from_slice(alloc, b"row")?;
    let row = make_node(alloc, Sym::User(name), Tys::new(alloc), children)?;
    let mut types = Tys::new(alloc);
    types.push(alloc, Ty::Int)?;
    let mut body = Trees::new(alloc);
    body.push(alloc, row)?;
    Ok(make_node(alloc, Sym::Base(FOR_ALL), types, body)?)
}

/// The comb whose leaves are this variable of the outside.
fn comb(alloc: Global, width: u32, levels: u32, variable: u32) -> Result<Tree, Fault> {
    let mut tree = make_lit(alloc, 0)?;
    for i in 0..levels {
        let leaf = (levels - i).saturating_add(variable);
        tree = level(alloc, width, leaf, tree)?;
    }
    Ok(tree)
}

/// The place of the innermost part.
fn innermost(alloc: Global, width: u32, levels: u32) -> Result<Place, Fault> {
    let mut place = Place::new(alloc);
    for _ in 0..levels {
        place.push(alloc, 1)?;
        place.push(alloc, width.saturating_add(1))?;
    }
    Ok(place)
}

fn counts(text: &str) -> Result<(u32, u32), Fault> {
    let (width, levels) = two_numbers(text)?;
    if width <= LIMIT && levels <= LIMIT {
        Ok((width, levels))
    } else {
        Err(Fault::NoCase)
    }
}

/// A comb of the pattern's variable 0 against a comb of variable 5: each leaf is the same term, under as many binders as there are.
pub fn match_comb(alloc: Global, out: &mut Text, text: &str) -> Result<(), Fault> {
    let (width, levels) = counts(text)?;
    let pattern = comb(alloc, width, levels, 0)?;
    let tree = comb(alloc, width, levels, 5)?;
    write_extent(out, extent(&tree));
    if loose(&pattern) > 1 {
        return Err(Fault::NoCase);
    }
    match match_pattern(alloc, &pattern, 0, 1, &tree)? {
        Some(found) => match found.terms.get(0) {
            Some(Some(term)) => {
                out.label("v0");
                write_tree(alloc, out, term);
            }
            _ => out.label("v0 -"),
        },
        None => out.label("none"),
    }
    Ok(())
}

/// How many types there are.
fn count_of(types: &Tys) -> u64 {
    let mut count = 0u64;
    let mut left = types;
    while let Tys::More(_, rest) = left {
        count = count.saturating_add(1);
        left = rest.get();
    }
    count
}

/// The innermost part of a comb replaced.
pub fn replace_comb(alloc: Global, out: &mut Text, text: &str) -> Result<(), Fault> {
    let (width, levels) = counts(text)?;
    let tree = comb(alloc, width, levels, 5)?;
    let place = innermost(alloc, width, levels)?;
    let new = make_lit(alloc, 9)?;
    let Some(replaced) = replace_at(alloc, &tree, &place, &new)? else {
        return Err(Fault::NoCase);
    };
    write_extent(out, extent(&replaced));
    out.label("there");
    if let Some(node) = node_at(&replaced, &place) {
        write_tree(alloc, out, node);
    }
    let Some(back) = replace_at(
        alloc,
        &replaced,
        &place,
        &make_lit(alloc, 0)?.try_copy(alloc)?,
    )?
    else {
        return Err(Fault::NoCase);
    };
    out.test("back", same(&back, &tree));
    if let Some(types) = path_types(alloc, &tree, &place)? {
        out.named("under", count_of(&types));
    }
    Ok(())
}
