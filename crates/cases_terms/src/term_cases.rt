//! Cases of terms: what they are made of, their measures, and whether two are the same.
use cases_notation::fault::Fault;
use cases_notation::reading::{read_tree, read_trees};
use cases_notation::text::Text;
use cases_notation::words::{number, place};
use cases_notation::writing::{write_extent, write_tree, write_types};
use ev_terms::symbols::{FOR_ALL, FOR_SOME, SET};
use ev_terms::{
    Bounds, NoMemory, Same, Sym, Tree, TryCopy, binds, bounds_of, extent, loose, same, same_all,
    shift_fits, substitute_fits, trees_extent,
};
use std::alloc::Global;

fn copied(alloc: Global, out: &mut Text, text: &str) -> Result<(), Fault> {
    let tree = read_tree(alloc, text)?.try_copy(alloc)?;
    write_tree(alloc, out, &tree);
    Ok(())
}

fn write_bounds(out: &mut Text, bounds: Bounds) {
    out.named("loose", bounds.loose);
    out.named("size", bounds.size);
    out.named("depth", bounds.depth);
    out.named("parameters", bounds.params);
}

fn bounds(alloc: Global, out: &mut Text, text: &str) -> Result<(), Fault> {
    let tree = read_tree(alloc, text)?;
    write_bounds(out, bounds_of(&tree));
    Ok(())
}

fn write_measures(out: &mut Text, tree: &Tree) {
    write_extent(out, extent(tree));
    out.named("loose", loose(tree));
}

fn measures(alloc: Global, out: &mut Text, text: &str) -> Result<(), Fault> {
    let tree = read_tree(alloc, text)?;
    write_measures(out, &tree);
    Ok(())
}

fn extent_of_all(alloc: Global, out: &mut Text, text: &str) -> Result<(), Fault> {
    let trees = read_trees(alloc, text)?;
    write_extent(out, trees_extent(trees.as_slice()));
    Ok(())
}

/// The variable or the literal that a term is.
fn write_leaf_parts(out: &mut Text, tree: &Tree) {
    out.label("variable");
    match tree.var() {
        Some(i) => out.number(u64::from(i)),
        None => out.word("none"),
    }
    out.label("literal");
    match tree.lit() {
        Some(n) => {
            out.digits(n);
        }
        None => out.word("none"),
    }
}

fn write_type_parts(alloc: Global, out: &mut Text, tree: &Tree) {
    out.test("symbol", tree.sym().is_some());
    out.label("types");
    match tree.types() {
        Some(types) => write_types(alloc, out, types),
        None => out.word("none"),
    }
}

/// What a term is made of.
fn parts(alloc: Global, out: &mut Text, text: &str) -> Result<(), Fault> {
    let tree = read_tree(alloc, text)?;
    write_leaf_parts(out, &tree);
    write_type_parts(alloc, out, &tree);
    out.named("children", tree.child_count() as u64);
    out.named("listed", tree.children().len() as u64);
    Ok(())
}

fn write_child(alloc: Global, out: &mut Text, tree: &Tree, at: usize) {
    if at < tree.child_count() {
        write_tree(alloc, out, tree.child(at));
    } else {
        out.word("none");
    }
}

/// The child at a place from 0.
fn child(alloc: Global, out: &mut Text, at: &str, text: &str) -> Result<(), Fault> {
    let at = place(at)?;
    let tree = read_tree(alloc, text)?;
    write_child(alloc, out, &tree, at);
    Ok(())
}

/// How many variables a symbol binds, and whether its copy is the same.
fn write_binds(alloc: Global, out: &mut Text, sym: &Sym) -> Result<(), NoMemory> {
    out.named("binds", u64::from(binds(sym)));
    let copy = sym.try_copy(alloc)?;
    out.test("copied", copy.same(sym));
    Ok(())
}

fn bound(alloc: Global, out: &mut Text, text: &str) -> Result<(), Fault> {
    let tree = read_tree(alloc, text)?;
    match tree.sym() {
        Some(sym) => Ok(write_binds(alloc, out, sym)?),
        None => Err(Fault::NoCase),
    }
}

/// The rows of the symbols that bind.
fn binders(out: &mut Text) {
    out.number(u64::from(FOR_ALL));
    out.number(u64::from(FOR_SOME));
    out.number(u64::from(SET));
}

fn same_trees(alloc: Global, out: &mut Text, first: &str, second: &str) -> Result<(), Fault> {
    let (first, second) = (read_tree(alloc, first)?, read_tree(alloc, second)?);
    out.test("same", same(&first, &second));
    out.test("as values", first.same(&second));
    Ok(())
}

fn all_same(alloc: Global, out: &mut Text, first: &str, second: &str) -> Result<(), Fault> {
    let first = read_trees(alloc, first)?.try_copy(alloc)?;
    let second = read_trees(alloc, second)?;
    out.test("same", same_all(first.as_slice(), second.as_slice()));
    out.test("as values", first.same(&second));
    Ok(())
}

fn can_put(alloc: Global, out: &mut Text, tree: &str, terms: &str) -> Result<(), Fault> {
    let (tree, terms) = (read_tree(alloc, tree)?, read_trees(alloc, terms)?);
    out.test("fits", substitute_fits(&tree, &terms));
    Ok(())
}

fn can_shift(alloc: Global, out: &mut Text, from: &str, by: &str, tree: &str) -> Result<(), Fault> {
    let (from, by) = (number(from)?, number(by)?);
    let tree = read_tree(alloc, tree)?;
    out.test("fits", shift_fits(&tree, from, by));
    Ok(())
}

fn answer_one(alloc: Global, out: &mut Text, case: &str, text: &str) -> Result<(), Fault> {
    match case {
        "copied" => copied(alloc, out, text),
        "bounds" => bounds(alloc, out, text),
        "extent" => measures(alloc, out, text),
        "extents" => extent_of_all(alloc, out, text),
        "parts" => parts(alloc, out, text),
        "binds" => bound(alloc, out, text),
        "binders" => {
            binders(out);
            Ok(())
        }
        _ => Err(Fault::NoCase),
    }
}

fn answer_two(
    alloc: Global,
    out: &mut Text,
    case: &str,
    first: &str,
    second: &str,
) -> Result<(), Fault> {
    match case {
        "child" => child(alloc, out, first, second),
        "same" => same_trees(alloc, out, first, second),
        "all-same" => all_same(alloc, out, first, second),
        "put-fits" => can_put(alloc, out, first, second),
        _ => Err(Fault::NoCase),
    }
}

/// The answer of a case of terms.
pub fn answer(alloc: Global, out: &mut Text, case: &str, fields: &[&str]) -> Result<(), Fault> {
    match fields {
        [only] => answer_one(alloc, out, case, *only),
        [first, second] => answer_two(alloc, out, case, *first, *second),
        [from, by, tree] => match case {
            "shift-fits" => can_shift(alloc, out, *from, *by, *tree),
            _ => Err(Fault::NoCase),
        },
        _ => Err(Fault::NoCase),
    }
}
