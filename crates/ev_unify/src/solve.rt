ghost use Rattle.std.specs.Prelude.{◌≡◌, ◌<◌, ◌+◌, length, IfOk, IfErr, OnOk, slice_index};
ghost use Rattle.ev_unify.specs.inner.Parts.{is_at};
ghost use Rattle.ev_unify.specs.inner.Numbered.{HasHomes};
ghost use Rattle.ev_unify.specs.inner.Links.{AreClasses};
ghost use Rattle.ev_unify.specs.inner.Binding.{HasBinds};
ghost use Rattle.ev_unify.specs.inner.Clashes.{OnClash};
ghost use Rattle.ev_unify.specs.Solutions.{HasSolution, IsUnifier, BindsOnce, FollowsToGeneral};

use crate::cells::{Cells, sides};
use crate::patterns::{Bind, Pat, PatPairs, Solution, UnifyFault};
use ev_terms::{NoMemory, TryCopy};
use std::alloc::Global;

/// The most general solution of the pairs. Time and memory are near linear in the sizes of the pairs, however large the solved types
/// are: patterns are numbered once, parts that are one type are linked, and no bind is put into another.
#[tactic(auto, using(crate::proofs::Solving::walk))]
pub fn unify(alloc: Global, pairs: &PatPairs) -> Result<Solution, UnifyFault>
    ensures unifier { IfOk result (λ s. IsUnifier s pairs.now) }
    ensures general { IfOk result (λ s. FollowsToGeneral s pairs.now) }
    ensures once { IfOk result BindsOnce }
    ensures solvable { OnOk result (HasSolution pairs.now) }
    ensures clash { IfErr result (OnClash (¬ HasSolution pairs.now)) }
{
    let (pats, couples) = sides(alloc, pairs)?;
    let cells = Cells::new(alloc, pats)?;
    let roots = cells.classes(alloc, couples)?;
    cells.check_ranks(alloc, roots.as_slice())?;
    Ok(cells.solution(alloc, roots.as_slice())?)
}

#[tactic(auto, using(crate::proofs::Parts::walk))]
fn is_at(pat: &Pat, unknown: u128) -> bool
    ensures { result ≡ is_at unknown pat.now }
{
    match pat {
        Pat::Unknown(u) => *u == unknown,
        _ => false,
    }
}

impl Cells {
    /// Binds each unknown to the pattern that stands for its class, unless that is the unknown itself.
    #[tactic(auto, using(crate::proofs::Binding::walk))]
    fn solution(&self, alloc: Global, roots: &[usize]) -> Result<Solution, NoMemory>
        requires homes { HasHomes self.now.pats.items self.now.homes.items }
        requires classes { AreClasses self.now.pats.items self.now.homes.items roots.now }
        ensures { IfOk result (λ s. HasBinds self.now.pats.items roots.now s (length self.now.pats.items)) }
    {
        let mut binds = Solution::new(alloc);
        for i in 0..roots.len() {
            self.bind(alloc, roots, &mut binds, i)?;
        }
        Ok(binds)
    }

    #[tactic(auto, using(crate::proofs::Binding::walk))]
    fn bind(
        &self,
        alloc: Global,
        roots: &[usize],
        binds: &mut Solution,
        i: usize,
    ) -> Result<(), NoMemory>
        requires homes { HasHomes self.now.pats.items self.now.homes.items }
        requires classes { AreClasses self.now.pats.items self.now.homes.items roots.now }
        requires inside { i < length self.now.pats.items }
        requires before { HasBinds self.now.pats.items roots.now binds.old i }
        ensures { OnOk result (HasBinds self.now.pats.items roots.now binds.new (i + 1)) }
    {
        if self.homes[i] != i {
            return Ok(());
        }
        let Pat::Unknown(unknown) = self.pat(i) else {
            return Ok(())
        };
        let value = self.pat(roots[i]);
        if is_at(value, *unknown) {
            return Ok(());
        }
        let value = value.try_copy(alloc)?;
        binds.push(
            alloc,
            Bind {
                unknown: *unknown,
                value,
            },
        )?;
        Ok(())
    }
}
