//! Places in terms.
ghost use Rattle.std.specs.Prelude.{◌≡◌, ◌∷◌, ◌++◌, ◌<◌, ◌-◌, length, take, option_map, IfOk};
ghost use Rattle.std.specs.Option.{option_copied};
ghost use Rattle.ev_terms.specs.Types.{type_list};
ghost use Rattle.ev_terms.specs.Term.{children};
ghost use Rattle.ev_rewrite.specs.Places.{child_at, node_at, bound_types, path_types, with_child, replace_at};

use ev_terms::{NoMemory, Place, Shared, Tree, Trees, TryCopy, Ty, Tys, binds, make_node};
use std::alloc::Global;

/// The child with a number from 1.
fn child_at(tree: &Tree, number: u32) -> Option<&Tree>
    ensures { option_copied result ≡ child_at tree.now number }
{
    if number == 0 {
        return None;
    }
    tree.children().get(number as usize - 1)
}

/// The node at a place, or none where the tree has no such place. Linear in the place.
pub fn node_at<'a>(tree: &'a Tree, place: &Place) -> Option<&'a Tree>
    ensures { option_copied result ≡ node_at tree.now place.now }
{
    node_from(tree, place.as_slice())
}

fn node_from<'a>(tree: &'a Tree, place: &[u32]) -> Option<&'a Tree>
    ensures { option_copied result ≡ node_at tree.now place.now }
{
    let Some((number, rest)) = place.split_first() else {
        return Some(tree);
    };
    match child_at(tree, *number) {
        None => None,
        Some(child) => node_from(child, rest),
    }
}

/// The types of the variables bound on the way to a place, the outermost first, or none where the tree has no such place. Linear in the
/// place.
pub fn path_types(alloc: Global, tree: &Tree, place: &Place) -> Result<Option<Tys>, NoMemory>
    ensures { IfOk result (λ o. option_map type_list o ≡ path_types tree.now place.now) }
{
    types_from(alloc, tree, place.as_slice())
}

fn types_from(alloc: Global, tree: &Tree, place: &[u32]) -> Result<Option<Tys>, NoMemory>
    ensures { IfOk result (λ o. option_map type_list o ≡ path_types tree.now place.now) }
{
    let Some((number, rest)) = place.split_first() else {
        return Ok(Some(Tys::Empty));
    };
    let Some(child) = child_at(tree, *number) else {
        return Ok(None);
    };
    match types_from(alloc, child, rest)? {
        None => Ok(None),
        Some(inner) => Ok(Some(with_bound(alloc, tree, inner)?)),
    }
}

/// The types of the variables that a node binds in its children, before further ones.
fn with_bound(alloc: Global, tree: &Tree, inner: Tys) -> Result<Tys, NoMemory>
    ensures { IfOk result (λ list. type_list list ≡ bound_types tree.now ++ type_list inner) }
{
    let (Some(sym), Some(types)) = (tree.sym(), tree.types()) else {
        return Ok(inner);
    };
    with_first(alloc, binds(sym), types, inner)
}

/// So many first types of a list, before further ones.
fn with_first(alloc: Global, count: u32, list: &Tys, inner: Tys) -> Result<Tys, NoMemory>
    ensures { IfOk result (λ types. type_list types ≡ take count (type_list list.now) ++ type_list inner) }
{
    if count == 0 {
        return Ok(inner);
    }
    match list {
        Tys::Empty => Ok(inner),
        Tys::More(first, rest) => {
            let rest = with_first(alloc, count - 1, rest.get(), inner)?;
            before(alloc, first.share()?, rest)
        }
    }
}

#[tactic(auto, using(crate::proofs::PlaceSteps::lists))]
fn before(alloc: Global, first: Shared<Ty>, rest: Tys) -> Result<Tys, NoMemory>
    ensures { IfOk result (λ types. type_list types ≡ first ∷ type_list rest) }
{
    Ok(Tys::More(first, Shared::new(alloc, rest)?))
}

/// The tree with a new node at a place, which stands in the context extended by the binders on the way, or none where the tree has no
/// such place. All beside the way is shared. Linear in the nodes on the way and their children.
pub fn replace_at(
    alloc: Global,
    tree: &Tree,
    place: &Place,
    new: &Tree,
) -> Result<Option<Tree>, NoMemory>
    ensures { IfOk result (λ o. o ≡ replace_at tree.now place.now new.now) }
{
    replace_from(alloc, tree, place.as_slice(), new)
}

fn replace_from(
    alloc: Global,
    tree: &Tree,
    place: &[u32],
    new: &Tree,
) -> Result<Option<Tree>, NoMemory>
    ensures { IfOk result (λ o. o ≡ replace_at tree.now place.now new.now) }
{
    let Some((number, rest)) = place.split_first() else {
        return Ok(Some(new.try_copy(alloc)?));
    };
    let Some(child) = child_at(tree, *number) else {
        return Ok(None);
    };
    match replace_from(alloc, child, rest, new)? {
        None => Ok(None),
        Some(changed) => Ok(Some(with_child(alloc, tree, *number, changed)?)),
    }
}

/// The node with another child at a number from 1.
fn with_child(alloc: Global, tree: &Tree, number: u32, child: Tree) -> Result<Tree, NoMemory>
    requires counted { 0 < number }
    requires within { number - 1 < length (children tree.now) }
    ensures { IfOk result (λ t. t ≡ with_child tree.now number child) }
{
    let (Some(sym), Some(types)) = (tree.sym(), tree.types()) else {
        return tree.try_copy(alloc);
    };
    let mut children = copied(alloc, tree.children())?;
    children[number as usize - 1] = child;
    let sym = sym.try_copy(alloc)?;
    let types = types.try_copy(alloc)?;
    make_node(alloc, sym, types, Trees::from_vec(children))
}

fn copied(alloc: Global, trees: &[Tree]) -> Result<Vec<Tree>, NoMemory>
    ensures { IfOk result (λ copy. copy.items ≡ trees.now) }
{
    let mut copy = Vec::with_capacity(alloc, trees.len())?;
    for tree in trees {
        copy.push(tree.try_copy(alloc)?)?;
    }
    Ok(copy)
}
