//! Cases of places: the node at one, the types of the variables bound on the way, and a new node there.
use crate::words::place_of;
use cases_notation::fault::Fault;
use cases_notation::reading::read_tree;
use cases_notation::text::Text;
use cases_notation::writing::{write_tree, write_types};
use ev_rewrite::{node_at, path_types, replace_at};
use ev_terms::{Tree, Tys};
use std::alloc::Global;

fn write_node(alloc: Global, out: &mut Text, found: Option<&Tree>) {
    match found {
        Some(tree) => write_tree(alloc, out, tree),
        None => out.word("none"),
    }
}

/// The node at the place, and the types on the way.
pub fn look(alloc: Global, out: &mut Text, place: &str, tree: &str) -> Result<(), Fault> {
    let (place, tree) = (place_of(alloc, place)?, read_tree(alloc, tree)?);
    write_node(alloc, out, node_at(&tree, &place));
    let under = path_types(alloc, &tree, &place)?;
    match &under {
        Some(Tys::Empty) => out.label("under nothing"),
        Some(types) => {
            out.label("under");
            write_types(alloc, out, types);
        }
        None => out.label("no way"),
    }
    Ok(())
}

/// The tree with a new node at the place.
pub fn replace(
    alloc: Global,
    out: &mut Text,
    place: &str,
    tree: &str,
    new: &str,
) -> Result<(), Fault> {
    let (place, tree) = (place_of(alloc, place)?, read_tree(alloc, tree)?);
    let new = read_tree(alloc, new)?;
    let replaced = replace_at(alloc, &tree, &place, &new)?;
    write_node(alloc, out, replaced.as_ref());
    Ok(())
}
