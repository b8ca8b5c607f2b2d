//! Conditions that are being made.
ghost use Rattle.std.specs.Prelude.{◌≡◌, ◌↔◌, ◌+◌, max, false, IsTrue, IfOk, IfSome};
ghost use Rattle.ev_terms.specs.Measures.{size, depth, capped};
ghost use Rattle.ev_typing.specs.Occurs.{has_var};
ghost use Rattle.ev_forms.specs.Forms.{truth, conj, forall};
ghost use Rattle.ev_forms.specs.Connectives.{joined};
ghost use Rattle.ev_wd.specs.Makers.{lowered};

use crate::marks::{joined_marks, marked, occurring, outer_marks};
use crate::occurs::has_var;
use crate::sketches::{Sketch, both, bound, built, guarded, is_of_truth, lowered};
use ev_forms::{Connective, make_truth};
use ev_terms::{Extent, NoMemory, Tree, TryCopy, Ty, extent, type_extent};
use std::alloc::Global;
use std::marker::Model;

/// A condition that is being made: how it is put together, how large it is, and of its first variables, the innermost first, whether
/// they occur in it.
#[derive(Drop)]
pub(crate) struct Draft {
    sketch: Sketch,
    extent: Extent,
    marks: Vec<bool>,
}

impl Model for Draft {
    ghost use Rattle.ev_terms.specs.Term.{Term};
    ghost use Rattle.ev_terms.specs.contracts.tree.Tree as tree;
    ghost use Rattle.ev_wd.specs.inner.Sketches.{meaning};
    ghost use Rattle.ev_wd.specs.inner.Marks.{IsMeasured};

    ghost Value = { Term };

    ghost coded = { tree.the_row.coded };

    ghost view = { λ d. meaning d.sketch };

    ghost invariant = { λ d. IsMeasured d.extent d.marks.items (meaning d.sketch) };
}

/// Size and depth of a node over two parts.
fn above(left: Extent, right: Extent) -> Extent
    ensures { result ≡ record { size = capped (capped (left.size + right.size) + 1); depth = capped (max left.depth right.depth + 1) } }
{
    Extent {
        size: left.size.saturating_add(right.size).saturating_add(1),
        depth: left.depth.max(right.depth).saturating_add(1),
    }
}

impl Draft {
    /// `true`, of which nothing is looked up.
    pub(crate) fn truth(alloc: Global) -> Result<Draft, NoMemory>
        ensures { IfOk result (λ d. d ≡ truth) }
    {
        Ok(Draft {
            sketch: Sketch::Part(make_truth(alloc)?),
            extent: Extent { size: 1, depth: 1 },
            marks: Vec::new(alloc),
        })
    }

    /// A predicate as it stands. Linear in it.
    pub(crate) fn of(alloc: Global, tree: Tree) -> Result<Draft, NoMemory>
        ensures { IfOk result (λ d. d ≡ tree) }
    {
        let marks = occurring(alloc, &tree)?;
        let extent = extent(&tree);
        Ok(Draft {
            sketch: Sketch::Part(tree),
            extent,
            marks,
        })
    }

    pub(crate) fn is_truth(&self) -> bool
        ensures { IsTrue result ↔ (self.now ≡ truth) }
    {
        is_of_truth(&self.sketch)
    }

    /// Size and depth, in constant time.
    pub(crate) fn extent(&self) -> Extent
        ensures { result ≡ record { size = capped (size self.now); depth = capped (depth self.now) } }
    {
        self.extent
    }

    /// The condition itself. Linear in its size.
    pub(crate) fn tree(&self, alloc: Global) -> Result<Tree, NoMemory>
        ensures { IfOk result (λ t. t ≡ self.now) }
    {
        built(alloc, &self.sketch, &[])
    }

    /// `P & Q`
    pub(crate) fn both(alloc: Global, left: Draft, right: Draft) -> Result<Draft, NoMemory>
        ensures { IfOk result (λ d. d ≡ conj left right) }
    {
        let extent = above(left.extent, right.extent);
        let marks = joined_marks(alloc, left.marks.as_slice(), right.marks.as_slice())?;
        let sketch = both(alloc, left.sketch, right.sketch)?;
        Ok(Draft {
            sketch,
            extent,
            marks,
        })
    }

    /// `P => Q` or `P or Q`, where P guards Q. Linear in P.
    pub(crate) fn guarded(
        alloc: Global,
        connective: Connective,
        guard: &Tree,
        body: Draft,
    ) -> Result<Draft, NoMemory>
        ensures { IfOk result (λ d. d ≡ joined connective guard.now body) }
    {
        let extent = above(extent(guard), body.extent);
        let marks = marked(body.marks, guard);
        let sketch = guarded(alloc, connective, guard.try_copy(alloc)?, body.sketch)?;
        Ok(Draft {
            sketch,
            extent,
            marks,
        })
    }

    /// `!x. P`, for x of the type.
    pub(crate) fn bound(alloc: Global, ty: Ty, body: Draft) -> Result<Draft, NoMemory>
        ensures { IfOk result (λ d. d ≡ forall ty body) }
    {
        let extent = above(type_extent(&ty), body.extent);
        let marks = outer_marks(body.marks);
        let sketch = bound(alloc, ty, body.sketch)?;
        Ok(Draft {
            sketch,
            extent,
            marks,
        })
    }

    /// P alone, over a variable that does not occur in it.
    pub(crate) fn lowered(alloc: Global, body: Draft) -> Result<Draft, NoMemory>
        requires { has_var 0 body ≡ false }
        ensures { IfOk result (λ d. d ≡ lowered body) }
    {
        let extent = body.extent;
        let marks = outer_marks(body.marks);
        let sketch = lowered(alloc, body.sketch)?;
        Ok(Draft {
            sketch,
            extent,
            marks,
        })
    }

    /// Whether the innermost variable occurs, where that is kept.
    fn kept_mark(&self) -> Option<bool>
        ensures { IfSome result (λ b. b ≡ has_var 0 self.now) }
    {
        self.marks.first().copied()
    }
}

/// Whether the innermost variable occurs, with the condition. Where that is no longer kept the condition is built, and looked through.
pub(crate) fn asked(alloc: Global, draft: Draft) -> Result<(Draft, bool), NoMemory>
    ensures { IfOk result (λ p. (p.0 ≡ draft) × (p.1 ≡ has_var 0 draft)) }
{
    match draft.kept_mark() {
        Some(occurs) => Ok((draft, occurs)),
        None => {
            let tree = draft.tree(alloc)?;
            let occurs = has_var(&tree, 0);
            Ok((Draft::of(alloc, tree)?, occurs))
        }
    }
}
