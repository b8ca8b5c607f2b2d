//! Derivations that grow, and their lines by what they conclude.
ghost use Rattle.std.specs.Prelude.{◌≡◌, ◌++◌, ◌∷◌, ◌+◌, [], Some, length, slice_get, IsTrue, IfOk, IfSome, OnOk, OnErr};
ghost use Rattle.std.specs.Option.{option_copied};
ghost use Rattle.ev_congruence.specs.Growing.{concluded};

use ev_kernel::{Line, Lines};
use ev_terms::{NoMemory, Same};
use ev_typing::Sequent;
use indexmap::IndexMap;
use std::alloc::Global;
use std::marker::Model;

/// Lines that grow at their end, which contracts see as the list of them. A table leads from what a line concludes to its place.
#[derive(Drop)]
pub struct Derivation {
    lines: Lines,
    places: IndexMap<u64, Vec<usize>>,
}

impl Model for Derivation {
    ghost use Rattle.std.specs.Prelude.{List};
    ghost use Rattle.std.specs.Coded.{coded_list};
    ghost use Rattle.ev_kernel.specs.declared.rules.Line.{Line};
    ghost use Rattle.ev_kernel.specs.contracts.rules.Line as line;

    ghost Value = { List Line };

    ghost coded = { coded_list line.the_row.coded };

    ghost view = { λ d. d.lines };
}

impl Derivation {
    /// No lines.
    pub fn new(alloc: Global) -> Derivation
        ensures { result ≡ [] }
    {
        Derivation {
            lines: Lines::new(alloc),
            places: IndexMap::new(alloc),
        }
    }

    pub fn len(&self) -> usize
        ensures { result ≡ length self.now }
    {
        self.lines.len()
    }

    pub fn as_slice(&self) -> &[Line]
        ensures { result.now ≡ self.now }
    {
        self.lines.as_slice()
    }

    /// The lines, which are not copied.
    pub fn into_lines(self) -> Lines
        ensures { result ≡ self }
    {
        self.lines
    }

    /// The number of a line that concludes the sequent, among those of its mark. Two lines of one mark are compared as terms are, so
    /// this costs as much as the sequent is large where the line is there, and mostly little where it is not.
    pub(crate) fn number_of(&self, mark: u64, sequent: &Sequent) -> Option<u128>
        ensures { IfSome result (λ n. concluded self.now n ≡ Some sequent.now) }
    {
        match self.places.get(&mark) {
            Some(places) => self.number_among(places.as_slice(), sequent),
            None => None,
        }
    }

    fn number_among(&self, places: &[usize], sequent: &Sequent) -> Option<u128>
        ensures { IfSome result (λ n. concluded self.now n ≡ Some sequent.now) }
    {
        for place in places {
            if self.is_concluded(*place, sequent) {
                return Some(*place as u128 + 1);
            }
        }
        None
    }

    /// Whether the line at the place, from 0, concludes the sequent.
    fn is_concluded(&self, place: usize, sequent: &Sequent) -> bool
        ensures { IsTrue result → concluded self.now (place + 1) ≡ Some sequent.now }
    {
        match self.lines.get(place) {
            Some(line) => line.sequent.same(sequent),
            None => false,
        }
    }

    /// Appends a line under its mark, and answers its number. After `NoMemory` the lines are as they were.
    pub(crate) fn add(&mut self, alloc: Global, mark: u64, line: Line) -> Result<u128, NoMemory>
        ensures lines { OnOk result (self.new ≡ self.old ++ line ∷ []) }
        ensures number { IfOk result (λ n. n ≡ length self.new) }
        ensures err { OnErr result (self.new ≡ self.old) }
    {
        let place = self.lines.len();
        note(alloc, &mut self.places, mark, place)?;
        self.lines.push(alloc, line)?;
        Ok(place as u128 + 1)
    }
}

/// One more place under the mark.
fn note(
    alloc: Global,
    places: &mut IndexMap<u64, Vec<usize>>,
    mark: u64,
    place: usize,
) -> Result<(), NoMemory> {
    if let Some(same) = places.get_mut(&mark) {
        same.push(place)?;
        return Ok(());
    }
    let mut first = Vec::new(alloc);
    first.push(place)?;
    places.insert(mark, first)?;
    Ok(())
}
