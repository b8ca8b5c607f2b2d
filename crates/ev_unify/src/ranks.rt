ghost use Rattle.std.specs.Prelude.{◌≡◌, ℕ, ◌+◌, ◌<◌, [], ◌∷◌, ◌++◌, length, slice_index, slice_set, IfOk, IfErr, OnOk};
ghost use Rattle.ev_unify.specs.declared.ranks.Mark.TheVariants.{New, Open};
ghost use Rattle.ev_unify.specs.inner.Numbered.{IsFlat};
ghost use Rattle.ev_unify.specs.inner.Ranks.{IsRanked, IsWalking, IsResting, GoesOn, IsDone, labor, mark, NeverRanked, AreNew};
ghost use Rattle.ev_unify.specs.inner.Clashes.{OnClash};
ghost use Rattle.ev_unify.specs.inner.Links.{IsClosed};

use crate::cells::{Cells, append};
use crate::patterns::UnifyFault;
use ev_terms::NoMemory;
use std::alloc::Global;

/// How far the walk is with a class.
#[derive(Clone, Copy, Drop)]
enum Mark {
    New,
    Open,
    Done,
}

/// A class on the walk's way down, and the next of its children to look at.
#[derive(Clone, Copy, Drop)]
struct Visit {
    part: usize,
    next: usize,
}

impl Cells {
    /// No class is a part of itself, or `Clash`. One walk into the depth, which looks at each child once.
    #[tactic(auto, using(crate::proofs::Ranking::walk))]
    pub(crate) fn check_ranks(&self, alloc: Global, roots: &[usize]) -> Result<(), UnifyFault>
        requires flat { IsFlat self.now.pats.items self.now.firsts.items }
        requires closed { IsClosed self.now.pats.items roots.now }
        ensures ok { OnOk result (IsRanked self.now.pats.items self.now.firsts.items roots.now) }
        ensures err { IfErr result (OnClash (NeverRanked self.now.pats.items roots.now)) }
    {
        let mut marks = unmarked(alloc, roots.len())?;
        let slots = marks.as_mut_slice();
        let mut path = Vec::new(alloc);
        for i in 0..roots.len() {
            self.settle(roots, slots, &mut path, roots[i])?;
        }
        Ok(())
    }

    /// Walks down from a class, unless that was done.
    #[tactic(auto, using(crate::proofs::Ranking::walk))]
    fn settle(
        &self,
        roots: &[usize],
        marks: &mut [Mark],
        path: &mut Vec<Visit>,
        start: usize,
    ) -> Result<(), UnifyFault>
        requires flat { IsFlat self.now.pats.items self.now.firsts.items }
        requires closed { IsClosed self.now.pats.items roots.now }
        requires inside { start < length self.now.pats.items }
        requires resting { IsResting self.now.pats.items self.now.firsts.items roots.now marks.old }
        requires empty { path.old.items ≡ [] }
        ensures resting { OnOk result (IsResting self.now.pats.items self.now.firsts.items roots.now marks.new) }
        ensures done { OnOk result (IsDone marks.new start) }
        ensures goes_on { OnOk result (GoesOn marks.old marks.new) }
        ensures empty { OnOk result (path.new.items ≡ []) }
        ensures err { IfErr result (OnClash (NeverRanked self.now.pats.items roots.now)) }
    {
        match marks[start] {
            Mark::New => self.visit(roots, marks, path, start),
            Mark::Open | Mark::Done => Ok(()),
        }
    }

    /// Walks down from a new class, and up again.
    #[tactic(auto, using(crate::proofs::Ranking::walk))]
    fn visit(
        &self,
        roots: &[usize],
        marks: &mut [Mark],
        path: &mut Vec<Visit>,
        start: usize,
    ) -> Result<(), UnifyFault>
        requires flat { IsFlat self.now.pats.items self.now.firsts.items }
        requires closed { IsClosed self.now.pats.items roots.now }
        requires inside { start < length self.now.pats.items }
        requires resting { IsResting self.now.pats.items self.now.firsts.items roots.now marks.old }
        requires new { mark marks.old start ≡ New }
        requires empty { path.old.items ≡ [] }
        ensures resting { OnOk result (IsResting self.now.pats.items self.now.firsts.items roots.now marks.new) }
        ensures done { OnOk result (IsDone marks.new start) }
        ensures goes_on { OnOk result (GoesOn marks.old marks.new) }
        ensures empty { OnOk result (path.new.items ≡ []) }
        ensures err { IfErr result (OnClash (NeverRanked self.now.pats.items roots.now)) }
    {
        self.enter(marks, path, start)?;
        while let Some(visit) = path.pop() {
            self.step(roots, marks, path, visit)?;
        }
        Ok(())
    }

    /// Looks at the next child of the class at the end of the path, or leaves the class.
    #[tactic(auto, using(crate::proofs::Ranking::walk))]
    fn step(
        &self,
        roots: &[usize],
        marks: &mut [Mark],
        path: &mut Vec<Visit>,
        visit: Visit,
    ) -> Result<(), UnifyFault>
        requires flat { IsFlat self.now.pats.items self.now.firsts.items }
        requires closed { IsClosed self.now.pats.items roots.now }
        requires walking { IsWalking self.now.pats.items self.now.firsts.items roots.now marks.old (path.old.items ++ visit ∷ []) }
        ensures walking { OnOk result (IsWalking self.now.pats.items self.now.firsts.items roots.now marks.new path.new.items) }
        ensures goes_on { OnOk result (GoesOn marks.old marks.new) }
        ensures less { OnOk result (labor self.now.pats.items self.now.firsts.items marks.new path.new.items < labor self.now.pats.items self.now.firsts.items marks.old (path.old.items ++ visit ∷ [])) }
        ensures err { IfErr result (OnClash (NeverRanked self.now.pats.items roots.now)) }
    {
        if visit.next == self.end(visit.part) {
            marks[visit.part] = Mark::Done;
            return Ok(());
        }
        let child = roots[visit.next];
        match marks[child] {
            Mark::Done => {
                append(
                    path,
                    Visit {
                        part: visit.part,
                        next: visit.next + 1,
                    },
                )?;
                Ok(())
            }
            Mark::Open => Err(UnifyFault::Clash),
            Mark::New => {
                append(path, visit)?;
                self.enter(marks, path, child)?;
                Ok(())
            }
        }
    }

    fn enter(&self, marks: &mut [Mark], path: &mut Vec<Visit>, start: usize) -> Result<(), NoMemory>
        requires mark { start < length marks.old }
        requires inside { start < length self.now.firsts.items }
        ensures marks { OnOk result (marks.new ≡ slice_set marks.old start Open) }
        ensures path { OnOk result (path.new.items ≡ path.old.items ++ record { part = start; next = slice_index self.now.firsts.items start } ∷ []) }
    {
        marks[start] = Mark::Open;
        append(
            path,
            Visit {
                part: start,
                next: self.firsts[start],
            },
        )
    }
}

fn unmarked(alloc: Global, count: usize) -> Result<Vec<Mark>, NoMemory>
    ensures { IfOk result (λ marks. AreNew count marks.items) }
{
    Ok(vec![in alloc; Mark::New; count]?)
}
