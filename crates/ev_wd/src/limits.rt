//! The limits of formulas.
ghost use Rattle.std.specs.Prelude.{◌≡◌, ◌↔◌, ◌≤◌, IsTrue, IfOk, Err};
ghost use Rattle.ev_terms.specs.Measures.{size, depth, capped};
ghost use Rattle.ev_wd.specs.Limits.{IsSmall, greatest_size, greatest_depth};
ghost use Rattle.ev_wd.specs.declared.faults.WdFault.TheVariants.{TooLarge};

use crate::drafts::Draft;
use crate::faults::WdFault;
use ev_terms::limits::{DEPTH_LIMIT, SIZE_LIMIT};
use ev_terms::{Extent, Tree, extent};

/// Whether size and depth are within the limits.
pub(crate) fn is_within(extent: Extent) -> bool
    ensures { IsTrue result ↔ ((extent.size ≤ greatest_size) × (extent.depth ≤ greatest_depth)) }
{
    extent.size <= SIZE_LIMIT && extent.depth <= DEPTH_LIMIT
}

/// Whether a term is within the limits, in constant time.
#[tactic(auto, using(crate::proofs::Small::limits))]
pub(crate) fn is_small(tree: &Tree) -> bool
    ensures { IsTrue result ↔ IsSmall tree.now }
{
    is_within(extent(tree))
}

/// The condition, where it is within the limits.
#[tactic(auto, using(crate::proofs::Small::limits))]
pub(crate) fn kept(draft: Draft) -> Result<Draft, WdFault>
    ensures found { IfOk result (λ t. (t ≡ draft) × IsSmall t) }
    ensures large { result ≡ Err TooLarge → ¬ IsSmall draft }
{
    if is_within(draft.extent()) {
        Ok(draft)
    } else {
        Err(WdFault::TooLarge)
    }
}
