//! Conditions as they are put together. A quantifier that is dropped lowers nothing yet: that is done once, when the condition is built.
ghost use Rattle.std.specs.Prelude.{◌≡◌, ◌∷◌, ◌↔◌, IsTrue, IfOk};
ghost use Rattle.ev_terms.specs.Substitution.{inst};
ghost use Rattle.ev_forms.specs.Forms.{truth, conj, forall};
ghost use Rattle.ev_forms.specs.Connectives.{joined};
ghost use Rattle.ev_wd.specs.Makers.{lowered};
ghost use Rattle.ev_wd.specs.inner.Renaming.{renaming};
ghost use Rattle.ev_wd.specs.inner.Sketches.{meaning};

use crate::renaming::renamed;
use ev_forms::{Binder, Connective, is_truth, make_bound, make_joined};
use ev_terms::{NoMemory, Shared, Tree, TryCopy, Ty};
use std::alloc::Global;

/// How a condition is put together. `Shared` stands where Rust would have a box.
#[derive(Drop)]
pub(crate) enum Sketch {
    /// A predicate as it stands.
    Part(Tree),
    /// `P & Q`
    Both(Shared<Sketch>, Shared<Sketch>),
    /// `P => Q` or `P or Q`, where the predicate P guards Q.
    Guarded(Connective, Tree, Shared<Sketch>),
    /// `!x. P`, for x of the type.
    Bound(Ty, Shared<Sketch>),
    /// P, over a variable that does not occur in it.
    Lowered(Shared<Sketch>),
}

/// `P & Q`
#[tactic(auto, using(crate::proofs::Sketching::forms))]
pub(crate) fn both(alloc: Global, left: Sketch, right: Sketch) -> Result<Sketch, NoMemory>
    ensures { IfOk result (λ s. meaning s ≡ conj (meaning left) (meaning right)) }
{
    let left = Shared::new(alloc, left)?;
    Ok(Sketch::Both(left, Shared::new(alloc, right)?))
}

/// `P => Q` or `P or Q`, where P guards Q.
#[tactic(auto, using(crate::proofs::Sketching::forms))]
pub(crate) fn guarded(
    alloc: Global,
    connective: Connective,
    guard: Tree,
    body: Sketch,
) -> Result<Sketch, NoMemory>
    ensures { IfOk result (λ s. meaning s ≡ joined connective guard (meaning body)) }
{
    Ok(Sketch::Guarded(connective, guard, Shared::new(alloc, body)?))
}

/// `!x. P`, for x of the type.
#[tactic(auto, using(crate::proofs::Sketching::forms))]
pub(crate) fn bound(alloc: Global, ty: Ty, body: Sketch) -> Result<Sketch, NoMemory>
    ensures { IfOk result (λ s. meaning s ≡ forall ty (meaning body)) }
{
    Ok(Sketch::Bound(ty, Shared::new(alloc, body)?))
}

/// P alone, over a variable that does not occur in it.
#[tactic(auto, using(crate::proofs::Sketching::forms))]
pub(crate) fn lowered(alloc: Global, body: Sketch) -> Result<Sketch, NoMemory>
    ensures { IfOk result (λ s. meaning s ≡ lowered (meaning body)) }
{
    Ok(Sketch::Lowered(Shared::new(alloc, body)?))
}

/// Whether it is one of `true`.
#[tactic(auto, using(crate::proofs::Sketching::truths))]
pub(crate) fn is_of_truth(sketch: &Sketch) -> bool
    ensures { IsTrue result ↔ (meaning sketch.now ≡ truth) }
{
    match sketch {
        Sketch::Part(tree) => is_truth(tree),
        Sketch::Lowered(body) => is_of_truth(body.get()),
        Sketch::Both(_, _) | Sketch::Guarded(_, _, _) | Sketch::Bound(_, _) => false,
    }
}

/// The binders with one more inside them.
fn inside(alloc: Global, is_kept: bool, kept: &[bool]) -> Result<Vec<bool>, NoMemory>
    ensures { IfOk result (λ v. v.items ≡ is_kept ∷ kept.now) }
{
    let mut all = Vec::with_capacity(alloc, kept.len().saturating_add(1))?;
    all.push(is_kept)?;
    all.extend_from_slice(kept)?;
    Ok(all)
}

/// The condition without the binders around it that are not kept. The innermost of them comes first.
#[tactic(auto, using(crate::proofs::Sketching::building))]
pub(crate) fn built(alloc: Global, sketch: &Sketch, kept: &[bool]) -> Result<Tree, NoMemory>
    ensures { IfOk result (λ t. t ≡ inst (renaming kept.now) (meaning sketch.now)) }
{
    match sketch {
        Sketch::Part(tree) => renamed(alloc, tree, kept),
        Sketch::Both(left, right) => {
            let left = built(alloc, left.get(), kept)?;
            let right = built(alloc, right.get(), kept)?;
            make_joined(alloc, Connective::And, left, right)
        }
        Sketch::Guarded(connective, guard, body) => {
            let guard = renamed(alloc, guard, kept)?;
            let body = built(alloc, body.get(), kept)?;
            make_joined(alloc, *connective, guard, body)
        }
        Sketch::Bound(ty, body) => {
            let inner = inside(alloc, true, kept)?;
            let body = built(alloc, body.get(), inner.as_slice())?;
            make_bound(alloc, Binder::ForAll, ty.try_copy(alloc)?, body)
        }
        Sketch::Lowered(body) => {
            let inner = inside(alloc, false, kept)?;
            built(alloc, body.get(), inner.as_slice())
        }
    }
}
