ghost use Rattle.std.specs.Prelude.{◌≡◌, ◌≢◌, ℕ, ◌+◌, ◌<◌, ◌≤◌, true, false, ◌++◌, length, slice_index, IfOk, IfErr, OnOk};
ghost use Rattle.ev_unify.specs.inner.Parts.{head, children_of, is_unknown};
ghost use Rattle.ev_unify.specs.inner.Numbered.{part, type_of, Joined, IsFlat, HasHomes, AllBelow};
ghost use Rattle.ev_terms.specs.declared.types.Ty.{Ty};
ghost use Rattle.ev_unify.specs.inner.Links.{height, IsForest, IsRoot, Shortens, IsRootOf, paired, Joins, NeverSame, NeverLinked, IsMerging, IsMerged, NeverJoined, RootsAre, IsPartition};
ghost use Rattle.ev_unify.specs.inner.Clashes.{OnClash, SameForm};

use crate::cells::{Cells, Couple, append, is_unknown, same_head};
use crate::patterns::UnifyFault;
use ev_terms::NoMemory;
use std::alloc::Global;

impl Cells {
    /// The part at the end of the links from a part. Each link on the way is halved, so that later walks are short.
    #[tactic(auto, using(crate::proofs::Forest::walk))]
    fn root(&self, links: &mut [usize], part: usize) -> usize
        requires forest { IsForest self.now.pats.items links.old }
        requires inside { part < length links.old }
        ensures shortens { Shortens self.now.pats.items self.now.firsts.items links.old links.new }
        ensures root { IsRootOf links.new part result }
    {
        let mut i = part;
        while links[i] != i {
            let next = links[links[i]];
            links[i] = next;
            i = next;
        }
        i
    }

    /// The first part is linked to the second, and not the second to the first: unknowns to others, later parts to earlier ones.
    #[tactic(auto, using(crate::proofs::Heights::walk))]
    fn goes_under(&self, a: usize, b: usize) -> bool
        requires left { a < length self.now.pats.items }
        requires right { b < length self.now.pats.items }
        ensures under { result ≡ true → a ≢ b → height self.now.pats.items b < height self.now.pats.items a }
        ensures over { result ≡ false → a ≢ b → height self.now.pats.items a < height self.now.pats.items b }
    {
        let free = is_unknown(self.pat(a));
        if free != is_unknown(self.pat(b)) {
            return free;
        }
        b < a
    }

    /// Adds the pairs of the children of two parts to the work, where the parts are of one form.
    #[tactic(auto, using(crate::proofs::Pairing::walk))]
    fn pair_children(
        &self,
        work: &mut Vec<Couple>,
        from: usize,
        to: usize,
    ) -> Result<(), UnifyFault>
        requires flat { IsFlat self.now.pats.items self.now.firsts.items }
        requires left { from < length self.now.pats.items }
        requires right { to < length self.now.pats.items }
        ensures ok { OnOk result (work.new.items ≡ work.old.items ++ paired (slice_index self.now.firsts.items from) (slice_index self.now.firsts.items to) (length (children_of (part self.now.pats.items from)))) }
        ensures form { OnOk result (SameForm self.now.pats.items from to) }
        ensures err { IfErr result (OnClash (SameForm self.now.pats.items from to → ⊥)) }
    {
        let start = self.firsts[from];
        let count = self.firsts[from + 1] - start;
        let other = self.firsts[to];
        if self.firsts[to + 1] - other != count {
            return Err(UnifyFault::Clash);
        }
        if !same_head(self.pat(from), self.pat(to)) {
            return Err(UnifyFault::Clash);
        }
        for k in 0..count {
            append(
                work,
                Couple {
                    left: start + k,
                    right: other + k,
                },
            )?;
        }
        Ok(())
    }

    /// Links a root to another that is lower, and adds the pairs of their children to the work.
    #[tactic(auto, using(crate::proofs::Joining::walk))]
    fn link(
        &self,
        links: &mut [usize],
        work: &mut Vec<Couple>,
        from: usize,
        to: usize,
    ) -> Result<(), UnifyFault>
        requires flat { IsFlat self.now.pats.items self.now.firsts.items }
        requires forest { IsForest self.now.pats.items links.old }
        requires from_root { IsRoot links.old from }
        requires to_root { IsRoot links.old to }
        requires lower { height self.now.pats.items to < height self.now.pats.items from }
        ensures ok { OnOk result (Joins self.now.pats.items self.now.firsts.items links.old work.old.items links.new work.new.items from to) }
        ensures err { IfErr result (OnClash (NeverSame self.now.pats.items from to)) }
    {
        if is_unknown(self.pat(from)) {
            links[from] = to;
            return Ok(());
        }
        self.pair_children(work, from, to)?;
        links[from] = to;
        Ok(())
    }

    /// Makes two roots one class.
    #[tactic(auto, using(crate::proofs::Joining::walk))]
    fn join_roots(
        &self,
        links: &mut [usize],
        work: &mut Vec<Couple>,
        a: usize,
        b: usize,
    ) -> Result<(), UnifyFault>
        requires flat { IsFlat self.now.pats.items self.now.firsts.items }
        requires forest { IsForest self.now.pats.items links.old }
        requires a_root { IsRoot links.old a }
        requires b_root { IsRoot links.old b }
        ensures ok { OnOk result (Joins self.now.pats.items self.now.firsts.items links.old work.old.items links.new work.new.items a b) }
        ensures err { IfErr result (OnClash (NeverSame self.now.pats.items a b)) }
    {
        if a == b {
            return Ok(());
        }
        if self.goes_under(a, b) {
            self.link(links, work, a, b)?;
            return Ok(());
        }
        self.link(links, work, b, a)?;
        Ok(())
    }

    /// Makes the classes of the two parts of a couple one.
    #[tactic(auto, using(crate::proofs::Joining::walk))]
    fn join(
        &self,
        links: &mut [usize],
        work: &mut Vec<Couple>,
        couple: Couple,
    ) -> Result<(), UnifyFault>
        requires flat { IsFlat self.now.pats.items self.now.firsts.items }
        requires forest { IsForest self.now.pats.items links.old }
        requires left { couple.left < length self.now.pats.items }
        requires right { couple.right < length self.now.pats.items }
        ensures ok { OnOk result (Joins self.now.pats.items self.now.firsts.items links.old work.old.items links.new work.new.items couple.left couple.right) }
        ensures err { IfErr result (OnClash (NeverLinked self.now.pats.items links.old couple.left couple.right)) }
    {
        let a = self.root(links, couple.left);
        let b = self.root(links, couple.right);
        self.join_roots(links, work, a, b)?;
        Ok(())
    }

    /// Links all parts that the couples make one type.

    fn merge(&self, links: &mut [usize], mut work: Vec<Couple>) -> Result<(), UnifyFault>
        requires flat { IsFlat self.now.pats.items self.now.firsts.items }
        requires merging { IsMerging self.now.pats.items self.now.firsts.items links.old work.items links.old work.items }
        ensures ok { OnOk result (IsMerged self.now.pats.items self.now.firsts.items links.old work.items links.new) }
        ensures err { IfErr result (OnClash (NeverJoined self.now.pats.items links.old work.items)) }
    {
        while let Some(couple) = work.pop() {
            self.join(links, &mut work, couple)?;
        }
        Ok(())
    }

    /// The roots of all parts.

    fn roots(&self, alloc: Global, links: &mut [usize]) -> Result<Vec<usize>, NoMemory>
        requires { IsForest self.now.pats.items links.old }
        ensures { IfOk result (λ roots. RootsAre self.now.pats.items self.now.firsts.items links.old links.new roots.items (length links.old)) }
    {
        let mut roots = Vec::new(alloc);
        for i in 0..links.len() {
            append(&mut roots, self.root(links, i))?;
        }
        Ok(roots)
    }

    /// For each part the one part of its class that stands for all.

    pub(crate) fn classes(&self, alloc: Global, work: Vec<Couple>) -> Result<Vec<usize>, UnifyFault>
        requires flat { IsFlat self.now.pats.items self.now.firsts.items }
        requires homes { HasHomes self.now.pats.items self.now.homes.items }
        requires below { AllBelow (length self.now.pats.items) work.items }
        ensures ok { IfOk result (λ roots. IsPartition self.now.pats.items self.now.firsts.items self.now.homes.items work.items roots.items) }
        ensures err { IfErr result (OnClash ((σ : ℕ → Ty) → Joined (type_of σ self.now.pats.items) work.items → ⊥)) }
    {
        let mut links = copied(alloc, self.homes.as_slice())?;
        let slots = links.as_mut_slice();
        self.merge(slots, work)?;
        Ok(self.roots(alloc, slots)?)
    }
}

fn copied(alloc: Global, items: &[usize]) -> Result<Vec<usize>, NoMemory>
    ensures { IfOk result (λ copy. copy.items ≡ items.now) }
{
    Ok(items.to_vec(alloc)?)
}
