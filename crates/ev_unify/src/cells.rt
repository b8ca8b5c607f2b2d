ghost use Rattle.std.specs.Prelude.{◌≡◌, ◌↔◌, ◌+◌, ◌<◌, ℕ, [], ◌∷◌, ◌++◌, length, slice_index, nat_eq, IsTrue, IfOk, OnOk, OnErr};
ghost use Rattle.std.specs.HashMap.{get};
ghost use Rattle.ev_unify.specs.Patterns.{pat_list};
ghost use Rattle.ev_unify.specs.inner.Parts.{head, children_of, is_unknown};
ghost use Rattle.ev_unify.specs.inner.Numbered.{part, IsFlat, home_of, place_with};
ghost use Rattle.ev_unify.specs.inner.Sides.{HasSides};
ghost use Rattle.ev_unify.specs.inner.Cells.{IsCells};

use crate::patterns::{Pat, PatPairs, Pats};
use ev_terms::{NoMemory, Same, Shared, TryCopy};
use std::alloc::Global;
use std::collections::HashMap;

/// Two numbers of parts that are to be one type.
#[derive(Clone, Copy, Drop)]
pub(crate) struct Couple {
    pub(crate) left: usize,
    pub(crate) right: usize,
}

/// All parts of some patterns by number: first the patterns, then the children of the first one, and so on. A part that stands in two
/// places has two numbers.
#[derive(Drop)]
pub(crate) struct Cells {
    pub(crate) pats: Vec<Shared<Pat>>,
    /// Where the children of each part begin. They end where those of the next part begin.
    pub(crate) firsts: Vec<usize>,
    /// Of each unknown the first place where it stands, and of all other parts their own.
    pub(crate) homes: Vec<usize>,
}

/// Appends an item. After `NoMemory` the items are as they were.
pub(crate) fn append<T: Drop>(items: &mut Vec<T>, item: T) -> Result<(), NoMemory>
    ensures ok { OnOk result (items.new.items ≡ items.old.items ++ item ∷ []) }
    ensures err { OnErr result (items.new.items ≡ items.old.items) }
{
    match items.push(item) {
        Ok(()) => Ok(()),
        Err(_) => Err(NoMemory),
    }
}

/// The two sides of each pair, left before right, and their numbers.
#[tactic(auto, using(crate::proofs::Siding::walk))]
pub(crate) fn sides(
    alloc: Global,
    pairs: &PatPairs,
) -> Result<(Vec<Shared<Pat>>, Vec<Couple>), NoMemory>
    ensures { IfOk result (λ r. HasSides pairs.now r.0.items r.1.items) }
{
    let mut pats = Vec::new(alloc);
    let mut couples = Vec::new(alloc);
    for pair in pairs.as_slice() {
        let left = pats.len();
        append(&mut pats, Shared::new(alloc, pair.left.try_copy(alloc)?)?)?;
        let right = pats.len();
        append(&mut pats, Shared::new(alloc, pair.right.try_copy(alloc)?)?)?;
        append(&mut couples, Couple { left, right })?;
    }
    Ok((pats, couples))
}

/// The two patterns are unknowns of one number, or otherwise the same but for their children.
#[tactic(auto, using(crate::proofs::Parts::walk))]
pub(crate) fn same_head(a: &Pat, b: &Pat) -> bool
    ensures { IsTrue result ↔ (head a.now ≡ head b.now) }
{
    match (a, b) {
        (Pat::Int, Pat::Int) => true,
        (Pat::Bool, Pat::Bool) => true,
        (Pat::Param(i), Pat::Param(j)) => *i == *j,
        (Pat::Pow(_), Pat::Pow(_)) => true,
        (Pat::Prod(_, _), Pat::Prod(_, _)) => true,
        (Pat::Data(name, _), Pat::Data(other, _)) => name.same(other),
        (Pat::Unknown(u), Pat::Unknown(w)) => *u == *w,
        _ => false,
    }
}

#[tactic(auto, using(crate::proofs::Parts::walk))]
pub(crate) fn is_unknown(pat: &Pat) -> bool
    ensures { result ≡ is_unknown pat.now }
{
    match pat {
        Pat::Unknown(_) => true,
        _ => false,
    }
}

/// Appends the children of a pattern, which are shared.
#[tactic(auto, using(crate::proofs::Parts::walk))]
fn push_children(pats: &mut Vec<Shared<Pat>>, pat: &Pat) -> Result<(), NoMemory>
    ensures { OnOk result (pats.new.items ≡ pats.old.items ++ children_of pat.now) }
{
    match pat {
        Pat::Pow(a) => append(pats, a.share()?),
        Pat::Prod(a, b) => {
            append(pats, a.share()?)?;
            append(pats, b.share()?)?;
            Ok(())
        }
        Pat::Data(_, list) => push_all(pats, list),
        Pat::Int | Pat::Bool | Pat::Param(_) | Pat::Unknown(_) => Ok(()),
    }
}

#[tactic(auto, using(crate::proofs::Parts::walk))]
fn push_all(pats: &mut Vec<Shared<Pat>>, list: &Pats) -> Result<(), NoMemory>
    ensures { OnOk result (pats.new.items ≡ pats.old.items ++ pat_list list.now) }
{
    let mut left = list;
    while let Pats::More(a, rest) = left {
        append(pats, a.share()?)?;
        left = rest.get();
    }
    Ok(())
}

/// The first place where the pattern, an unknown, stands; of another pattern its own place.
#[tactic(auto, using(crate::proofs::Spread::walk))]
fn home(places: &mut HashMap<u128, usize>, pat: &Pat, place: usize) -> Result<usize, NoMemory>
    ensures home { IfOk result (λ h. h ≡ home_of (get nat_eq places.old) pat.now place) }
    ensures placed { IfOk result (λ h. (u : ℕ) → get nat_eq places.new u ≡ place_with (get nat_eq places.old) pat.now h u) }
{
    let Pat::Unknown(u) = pat else {
        return Ok(place)
    };
    if let Some(first) = places.get(u) {
        return Ok(*first);
    }
    match places.insert(*u, place) {
        Ok(_) => Ok(place),
        Err(_) => Err(NoMemory),
    }
}

impl Cells {
    /// The parts of the patterns, in time and memory linear in their sizes.
    #[tactic(auto, using(crate::proofs::Spread::walk))]
    pub(crate) fn new(alloc: Global, mut pats: Vec<Shared<Pat>>) -> Result<Cells, NoMemory>
        ensures { IfOk result (λ c. IsCells pats.items c.pats.items c.firsts.items c.homes.items) }
    {
        let mut firsts = Vec::new(alloc);
        let mut homes = Vec::new(alloc);
        let mut places = HashMap::new(alloc);
        append(&mut firsts, pats.len())?;
        let mut i = 0;
        while i < pats.len() {
            let pat = pats[i].share()?;
            append(&mut homes, home(&mut places, pat.get(), i)?)?;
            push_children(&mut pats, pat.get())?;
            append(&mut firsts, pats.len())?;
            i += 1;
        }
        Ok(Cells {
            pats,
            firsts,
            homes,
        })
    }

    pub(crate) fn pat(&self, i: usize) -> &Pat
        requires { i < length self.now.pats.items }
        ensures { result.now ≡ part self.now.pats.items i }
    {
        self.pats[i].get()
    }

    /// Where the children of a part end.
    pub(crate) fn end(&self, i: usize) -> usize
        requires flat { IsFlat self.now.pats.items self.now.firsts.items }
        requires inside { i < length self.now.pats.items }
        ensures { result ≡ slice_index self.now.firsts.items (i + 1) }
    {
        self.firsts[i + 1]
    }
}
