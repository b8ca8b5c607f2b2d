//! The walk over the unknowns of a solution.
ghost use Rattle.std.specs.Prelude.{◌≡◌, ◌↔◌, ◌<◌, ◌+◌, ◌∷◌, ◌++◌, [], ℕ, true, false, length, slice_get, slice_set, Some, IsTrue, IfOk, OnOk, MatchOption};
ghost use Rattle.ev_infer.specs.declared.solving.Mark.TheVariants.{Done};
ghost use Rattle.ev_unify.specs.Patterns.{value};
ghost use Rattle.ev_infer.specs.inner.Bulks.{IsWithin, type_at_unknown};
ghost use Rattle.ev_infer.specs.inner.Solving.{AreMarks, AreVisits, AreOrdered, IsWay, NoneOpen, AreKept, IsWalked, IsFirstMark, IsBoundBy, IsLeftFree, LeavesFree, AreSolved, AreFree, AreKnown, IsBoundTo, mark, labor};

use crate::bulks::{Bulk, NOTHING, is_within, pat_bulk};
use crate::solving::{Mark, Scan, Table, Visit, look_at, pat_type};
use ev_terms::{Extent, NoMemory, Ty};
use ev_unify::{Bind, Pat};
use std::alloc::Global;

/// The types of the unknowns below a number, by a solution in which no unknown is followed back to itself; none where a free unknown is
/// left in one of them. One walk into the depth for all, which looks at each bind as often as it has unknowns.
#[tactic(auto, using(crate::proofs::UnknownSteps::walk))]
pub(crate) fn solve_all(
    alloc: Global,
    binds: &[Bind],
    count: usize,
    limit: &Extent,
) -> Result<Option<Table>, NoMemory>
    requires { AreOrdered binds.now count }
    ensures { IfOk result (λ o. MatchOption o (LeavesFree binds.now count) (λ t. AreSolved binds.now limit.now count t.bulks.items t.types.items)) }
{
    let mut first = first_marks(alloc, binds, count)?;
    let mut measured = vec![in alloc; NOTHING; count]?;
    let mut built = integers(alloc, count)?;
    let marks = first.as_mut_slice();
    let bulks = measured.as_mut_slice();
    let types = built.as_mut_slice();
    for unknown in 0..count {
        if !settle(alloc, binds, marks, bulks, types, unknown, limit)? {
            return Ok(None);
        }
    }
    Ok(Some(Table {
        bulks: measured,
        types: built,
    }))
}

/// The marks before any walk.
fn first_marks(alloc: Global, binds: &[Bind], count: usize) -> Result<Vec<Mark>, NoMemory>
    requires { AreOrdered binds.now count }
    ensures marks { IfOk result (λ m. length m.items ≡ count) }
    ensures first { IfOk result (λ m. (u : ℕ) → u < count → IsFirstMark binds.now binds.now u (mark m.items u)) }
{
    let mut marks = free_marks(alloc, count)?;
    let mut i = binds.len();
    while i > 0 {
        i -= 1;
        let unknown = binds[i].unknown as usize;
        marks[unknown] = Mark::Bound(i);
    }
    Ok(marks)
}

fn free_marks(alloc: Global, count: usize) -> Result<Vec<Mark>, NoMemory>
    ensures { IfOk result (λ m. AreFree count m.items) }
{
    Ok(vec![in alloc; Mark::Free; count]?)
}

/// So many integer types.
fn integers(alloc: Global, count: usize) -> Result<Vec<Ty>, NoMemory>
    ensures { IfOk result (λ types. length types.items ≡ count) }
{
    let mut types = Vec::new(alloc);
    for _ in 0..count {
        types.push(Ty::Int)?;
    }
    Ok(types)
}

/// Walks down from an unknown, unless that was done. False where a free unknown is left in it.
#[tactic(auto, using(crate::proofs::UnknownSteps::walk))]
fn settle(
    alloc: Global,
    binds: &[Bind],
    marks: &mut [Mark],
    bulks: &mut [Bulk],
    types: &mut [Ty],
    unknown: usize,
    limit: &Extent,
) -> Result<bool, NoMemory>
    requires inside { unknown < length marks.old }
    requires ordered { AreOrdered binds.now (length marks.old) }
    requires known { AreMarks binds.now limit.now (length marks.old) marks.old bulks.old types.old }
    requires ended { NoneOpen marks.old }
    ensures known { OnOk result (AreMarks binds.now limit.now (length marks.old) marks.new bulks.new types.new) }
    ensures walked { IfOk result (λ b. b ≡ true → IsWalked marks.old marks.new unknown) }
    ensures free { IfOk result (λ b. b ≡ false → IsLeftFree binds.now unknown) }
{
    match marks[unknown] {
        Mark::Free => Ok(false),
        Mark::Bound(bind) => {
            let start = Visit { unknown, bind };
            visit(alloc, binds, marks, bulks, types, start, limit)
        }
        Mark::Open => Ok(true),
        Mark::Done => Ok(true),
    }
}

/// Walks down from an unknown that no walk has come to, and up again.
#[tactic(auto, using(crate::proofs::UnknownSteps::walk))]
fn visit(
    alloc: Global,
    binds: &[Bind],
    marks: &mut [Mark],
    bulks: &mut [Bulk],
    types: &mut [Ty],
    start: Visit,
    limit: &Extent,
) -> Result<bool, NoMemory>
    requires inside { start.unknown < length marks.old }
    requires bound { IsBoundBy binds.now start.unknown start.bind }
    requires ordered { AreOrdered binds.now (length marks.old) }
    requires known { AreMarks binds.now limit.now (length marks.old) marks.old bulks.old types.old }
    requires ended { NoneOpen marks.old }
    ensures known { OnOk result (AreMarks binds.now limit.now (length marks.old) marks.new bulks.new types.new) }
    ensures walked { IfOk result (λ b. b ≡ true → IsWalked marks.old marks.new start.unknown) }
    ensures free { IfOk result (λ b. b ≡ false → IsLeftFree binds.now start.unknown) }
{
    let mut path = Vec::new(alloc);
    marks[start.unknown] = Mark::Open;
    path.push(start)?;
    while let Some(visit) = path.pop() {
        if !step(
            alloc,
            binds,
            marks,
            bulks,
            types,
            &mut path,
            visit,
            start.unknown,
            limit,
        )? {
            return Ok(false);
        }
    }
    Ok(true)
}

/// Looks at the unknowns in the bind at the end of the path: goes down to one, or leaves the bind. False where one is free.
#[tactic(auto, using(crate::proofs::UnknownSteps::walk))]
fn step(
    alloc: Global,
    binds: &[Bind],
    marks: &mut [Mark],
    bulks: &mut [Bulk],
    types: &mut [Ty],
    path: &mut Vec<Visit>,
    visit: Visit,
    _start: usize,
    limit: &Extent,
) -> Result<bool, NoMemory>
    requires ordered { AreOrdered binds.now (length marks.old) }
    requires known { AreMarks binds.now limit.now (length marks.old) marks.old bulks.old types.old }
    requires way { IsWay binds.now marks.old (path.old.items ++ visit ∷ []) }
    requires path { AreVisits binds.now (length marks.old) _start (path.old.items ++ visit ∷ []) }
    ensures known { OnOk result (AreMarks binds.now limit.now (length marks.old) marks.new bulks.new types.new) }
    ensures path { OnOk result (AreVisits binds.now (length marks.old) _start path.new.items) }
    ensures way { IfOk result (λ b. b ≡ true → IsWay binds.now marks.new path.new.items) }
    ensures kept { OnOk result (AreKept marks.old marks.new) }
    ensures less { OnOk result (labor marks.new path.new.items < labor marks.old (path.old.items ++ visit ∷ [])) }
    ensures free { IfOk result (λ b. b ≡ false → IsLeftFree binds.now _start) }
{
    let pat = &binds[visit.bind].value;
    match look_at(pat, marks) {
        Scan::Free => Ok(false),
        Scan::Next(next) => {
            path.push(visit)?;
            marks[next.unknown] = Mark::Open;
            path.push(next)?;
            Ok(true)
        }
        Scan::Visited => {
            leave(alloc, binds, marks, bulks, types, visit, pat, limit)?;
            Ok(true)
        }
    }
}

/// Keeps the type of a bound unknown, whose unknowns are all known. It is not built where it is too large.
#[tactic(auto, using(crate::proofs::UnknownSteps::walk))]
fn leave(
    alloc: Global,
    _binds: &[Bind],
    marks: &mut [Mark],
    bulks: &mut [Bulk],
    types: &mut [Ty],
    visit: Visit,
    pat: &Pat,
    limit: &Extent,
) -> Result<(), NoMemory>
    requires inside { visit.unknown < length marks.old }
    requires bound { IsBoundTo _binds.now visit.unknown pat.now }
    requires parts { AreKnown pat.now marks.old }
    requires known { AreMarks _binds.now limit.now (length marks.old) marks.old bulks.old types.old }
    ensures known { OnOk result (AreMarks _binds.now limit.now (length marks.old) marks.new bulks.new types.new) }
    ensures marks { OnOk result (marks.new ≡ slice_set marks.old visit.unknown Done) }
{
    let bulk = pat_bulk(pat, bulks);
    let ty = built_type(alloc, pat, bulk, types, limit)?;
    marks[visit.unknown] = Mark::Done;
    bulks[visit.unknown] = bulk;
    types[visit.unknown] = ty;
    Ok(())
}

/// The type of a pattern that is so large, or another where that is too large.
fn built_type(
    alloc: Global,
    pat: &Pat,
    bulk: Bulk,
    types: &[Ty],
    limit: &Extent,
) -> Result<Ty, NoMemory>
    ensures { IfOk result (λ a. IsWithin bulk limit.now → a ≡ value (type_at_unknown types.now) pat.now) }
{
    if is_within(bulk, limit) {
        pat_type(alloc, pat, types)
    } else {
        Ok(Ty::Int)
    }
}
