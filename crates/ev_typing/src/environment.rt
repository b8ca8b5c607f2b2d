ghost use Rattle.std.specs.Prelude.{◌≡◌, ◌++◌, ◌∷◌, [], length, slice_get, option_map, IfSome, IfNone, IfOk, OnOk, OnErr};
ghost use Rattle.std.specs.Option.{option_copied};
ghost use Rattle.ev_typing.specs.Env.{declaring, datatypes, look_up, find_data, find_symbol, DesOf};
ghost use Rattle.ev_typing.specs.Told.{declared_told};
ghost use Rattle.ev_typing.specs.inner.Places.{symbol_at, data_symbol_at};
ghost use Rattle.ev_typing.specs.WellFormed.{HasNewNames, IsGoodEntry, IsWellFormed};

mod places;

use crate::typing::{Con, DataDecl, Entry, Signature, Var};
use ev_terms::{Name, NoMemory, Tree, Trees, TryCopy};
use indexmap::IndexMap;
use places::{Part, Place, cut, first_name, places_of, put_all};
use std::alloc::Global;
use std::marker::Model;

/// What a name stands for: a constructor of a datatype; the destructor for a field of a constructor, with the field's place from 0; a
/// constant; a direct operator with its body; a recursive operator with its inductive place from 0 and its bodies. The option is the
/// condition for well-definedness.
#[derive(Clone, Copy)]
pub enum Declared<'a> {
    Constructor(&'a DataDecl, &'a Con),
    Destructor(&'a DataDecl, &'a Con, usize, &'a Var),
    Constant(&'a Signature, &'a Option<Tree>),
    Direct(&'a Signature, &'a Option<Tree>, &'a Tree),
    Recursive(&'a Signature, &'a Option<Tree>, u32, &'a Trees),
}

/// The datatypes and symbols that are declared, the oldest first. All names differ, and each entry is typed over those before it.
#[derive(Drop)]
pub struct Env {
    entries: Vec<Entry>,
    places: IndexMap<Name, Place>,
}

impl Model for Env {
    ghost use Rattle.std.specs.Prelude.{List};
    ghost use Rattle.std.specs.Coded.{coded_list};
    ghost use Rattle.ev_typing.specs.declared.typing.Entry.{Entry};
    ghost use Rattle.ev_typing.specs.contracts.typing.Entry as entry;

    ghost Value = { List Entry };

    ghost coded = { coded_list entry.the_row.coded };

    ghost view = { λ e. e.entries.items };

    ghost use Rattle.ev_typing.specs.WellFormed.{IsWellFormed};
    ghost use Rattle.ev_typing.specs.inner.Places.{AreKept};

    ghost invariant = { λ e. AreKept e.places e.entries.items × IsWellFormed e.entries.items };
}

#[tactic(auto, using(crate::proofs::PlaceLaws::environments))]
impl Env {
    /// The environment in which nothing is declared. It takes no memory.
    pub fn new(alloc: Global) -> Env
        ensures { result ≡ [] }
    {
        Env {
            entries: Vec::new(alloc),
            places: IndexMap::new(alloc),
        }
    }

    /// How many entries there are.
    pub fn count(&self) -> usize
        ensures is { result ≡ length self.now }
        ensures well_formed { IsWellFormed self.now }
    {
        self.entries.len()
    }

    /// An entry, from 0.
    pub fn entry(&self, i: usize) -> Option<&Entry>
        ensures { option_copied result ≡ slice_get self.now i }
    {
        self.entries.get(i)
    }

    /// The entry that declares the name, as a datatype, constructor, destructor, operator or constant. In constant time.
    pub fn symbol(&self, name: &Name) -> Option<&Entry>
        ensures is { option_copied result ≡ declaring self.now name.now }
        ensures well_formed { IsWellFormed self.now }
    {
        match self.places.get(name) {
            Some(place) => self.entry(place.entry),
            None => None,
        }
    }

    /// What the name stands for as a symbol. In constant time.
    pub fn declared(&self, name: &Name) -> Option<Declared<'_>>
        ensures is { option_map declared_told result ≡ find_symbol self.now name.now }
        ensures well_formed { IsWellFormed self.now }
    {
        match self.places.get(name) {
            Some(place) => match self.entry(place.entry) {
                Some(entry) => part_of(entry, place.part),
                None => None,
            },
            None => None,
        }
    }

    /// Declares what the entry does. After `NoMemory` the environment is as it was.
    pub fn add(&mut self, alloc: Global, entry: Entry) -> Result<(), NoMemory>
        requires new { HasNewNames self.old entry }
        requires good { IsGoodEntry self.old entry }
        ensures ok { OnOk result (self.new ≡ self.old ++ entry ∷ []) }
        ensures err { OnErr result (self.new ≡ self.old) }
    {
        let pairs = places_of(alloc, &entry, self.entries.len())?;
        self.places.reserve(pairs.len())?;
        self.entries.push(entry)?;
        put_all(&mut self.places, pairs);
        Ok(())
    }

    /// Takes the last entry off. Linear in the names that it declares.
    pub fn pop(&mut self) -> Option<Entry>
        ensures some { IfSome result (λ e. self.old ≡ self.new ++ e ∷ []) }
        ensures none { IfNone result ((self.old ≡ []) × (self.new ≡ [])) }
    {
        match self.entries.pop() {
            Some(entry) => {
                cut(&mut self.places, first_name(&entry));
                Some(entry)
            }
            None => None,
        }
    }

    /// The datatype of the name. In constant time.
    #[tactic(auto, using(crate::proofs::Entries::found))]
    pub fn datatype(&self, name: &Name) -> Option<&DataDecl>
        ensures { option_copied result ≡ find_data self.now name.now }
    {
        match self.symbol(name) {
            Some(entry) => data_of(entry, name),
            None => None,
        }
    }
}

fn data_of<'a>(entry: &'a Entry, name: &Name) -> Option<&'a DataDecl>
    ensures { option_copied result ≡ look_up (datatypes entry.now) name.now }
{
    match entry {
        Entry::Data(data) => if data.name == *name { Some(data) } else { None },
        _ => None,
    }
}

fn part_of(entry: &Entry, part: Part) -> Option<Declared<'_>>
    ensures { option_map declared_told result ≡ symbol_at entry.now part }
{
    match entry {
        Entry::Data(decl) => data_part(decl, part),
        Entry::Constant(signature, condition) => Some(Declared::Constant(signature, condition)),
        Entry::Direct(signature, condition, body) => {
            Some(Declared::Direct(signature, condition, body))
        }
        Entry::Recursive(signature, condition, place, bodies) => {
            Some(Declared::Recursive(signature, condition, *place, bodies))
        }
    }
}

fn data_part(decl: &DataDecl, part: Part) -> Option<Declared<'_>>
    ensures { option_map declared_told result ≡ data_symbol_at decl.now part }
{
    match part {
        Part::Whole => None,
        Part::Constructor(i) => match decl.cons.get(i) {
            Some(con) => Some(Declared::Constructor(decl, con)),
            None => None,
        },
        Part::Destructor(i, j) => match decl.cons.get(i) {
            Some(con) => field_part(decl, con, j),
            None => None,
        },
    }
}

fn field_part<'a>(decl: &'a DataDecl, con: &'a Con, j: usize) -> Option<Declared<'a>>
    ensures { option_map declared_told result ≡ option_map (DesOf decl.now con.now j) (slice_get con.now.fields j) }
{
    match con.fields.get(j) {
        Some(field) => Some(Declared::Destructor(decl, con, j, field)),
        None => None,
    }
}

impl TryCopy for Env {
    #[tactic(auto, using(crate::proofs::Entries::copied))]
    fn try_copy(&self, alloc: Global) -> Result<Env, NoMemory> {
        let entries = self.entries.as_slice();
        let mut copy = Env::new(alloc);
        for entry in entries {
            copy.add(alloc, entry.try_copy(alloc)?)?;
        }
        Ok(copy)
    }
}
