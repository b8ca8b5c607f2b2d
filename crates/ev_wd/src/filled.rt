//! How large a term becomes with arguments put in, found without building it.
ghost use Rattle.std.specs.Prelude.{◌≡◌, ◌≤◌, ◌^◌};
ghost use Rattle.ev_terms.specs.Term.{terms};
ghost use Rattle.ev_terms.specs.Measures.{size, sizes, depth, depths, capped};
ghost use Rattle.ev_terms.specs.Substitution.{inst, insts, lifts, entry};

use ev_forms::node_parts;
use ev_terms::{Extent, Tree, binds, extent, loose, types_extent};

/// Size and depth of the term under so many binders, with the terms for the variables outside. Linear in the term.
#[cycle(filled)]
#[tactic(auto, using(crate::proofs::Filling::walk))]
pub(crate) fn filled_extent(tree: &Tree, under: u64, entries: &[Tree]) -> Extent
    ensures { result ≡ record { size = capped (size (inst (lifts under (entry entries.now)) tree.now)); depth = capped (depth (inst (lifts under (entry entries.now)) tree.now)) } }
{
    if loose(tree) <= under {
        return extent(tree);
    }
    match node_parts(tree) {
        Some((sym, types, children)) => {
            let own = types_extent(types);
            let all = filled_extents(children, under + u64::from(binds(sym)), entries);
            Extent {
                size: all.size.saturating_add(own.size).saturating_add(1),
                depth: all.depth.max(own.depth).saturating_add(1),
            }
        }
        None => match tree.var() {
            Some(i) => entry_extent(u64::from(i) - under, entries),
            None => extent(tree),
        },
    }
}

/// Those of the entry, or of the variable that stands where there is none.
#[tactic(auto, using(crate::proofs::Filling::entries))]
fn entry_extent(i: u64, entries: &[Tree]) -> Extent
    ensures { result ≡ record { size = capped (size (entry entries.now i)); depth = capped (depth (entry entries.now i)) } }
{
    if i < entries.len() as u64 {
        extent(&entries[i as usize])
    } else {
        Extent { size: 1, depth: 1 }
    }
}

/// The sum of the sizes and the greatest depth.
#[cycle(filled)]
#[tactic(auto, using(crate::proofs::Filling::walk))]
fn filled_extents(trees: &[Tree], under: u64, entries: &[Tree]) -> Extent
    ensures { result ≡ record { size = capped (sizes (insts (lifts under (entry entries.now)) (terms trees.now))); depth = capped (depths (insts (lifts under (entry entries.now)) (terms trees.now))) } }
{
    let mut all = Extent { size: 0, depth: 0 };
    for tree in trees {
        let one = filled_extent(tree, under, entries);
        all = Extent {
            size: all.size.saturating_add(one.size),
            depth: all.depth.max(one.depth),
        };
    }
    all
}
