//! Where the names of an entry stand in it.
ghost use Rattle.std.specs.Prelude.{◌≡◌, ◌≤◌, ◌++◌, vec_len, bytes_eq, reverse, take, OnOk, IfOk};
ghost use Rattle.std.specs.List.{IsDistinct, position_or_len};
ghost use Rattle.std.specs.Map.{keys_of};
ghost use Rattle.indexmap.specs.IndexMap.{spare};
ghost use Rattle.ev_typing.specs.inner.Places.{field_places, con_places, entry_places, first_name};

use crate::typing::{Con, Entry, Var};
use ev_terms::{Name, NoMemory, TryCopy};
use indexmap::IndexMap;
use std::alloc::Global;

/// What a name of an entry is: the datatype's or the operator's name, a constructor by its number, or a destructor by the numbers of its
/// constructor and its field, all from 0.
#[derive(Clone, Copy)]
pub enum Part {
    Whole,
    Constructor(usize),
    Destructor(usize, usize),
}

/// The number of the entry that declares a name, from 0, and what the name is there.
#[derive(Clone, Copy)]
pub struct Place {
    pub entry: usize,
    pub part: Part,
}

/// The names that the entry of the number declares, each with its place.
#[tactic(auto, using(crate::proofs::PlaceLaws::walks))]
pub(super) fn places_of(
    alloc: Global,
    entry: &Entry,
    number: usize,
) -> Result<Vec<(Name, Place)>, NoMemory>
    ensures { IfOk result (λ ps. ps.items ≡ entry_places number entry.now) }
{
    let mut places = Vec::new(alloc);
    let name = first_name(entry).try_copy(alloc)?;
    places.push((name, place_at(number, Part::Whole)))?;
    if let Entry::Data(data) = entry {
        push_cons(alloc, &mut places, data.cons.as_slice(), number)?;
    }
    Ok(places)
}

/// The first name that an entry declares.
pub(super) fn first_name(entry: &Entry) -> &Name
    ensures { result.now ≡ first_name entry.now }
{
    match entry {
        Entry::Data(data) => &data.name,
        Entry::Constant(signature, _)
        | Entry::Direct(signature, _, _)
        | Entry::Recursive(signature, _, _, _) => &signature.name,
    }
}

fn place_at(entry: usize, part: Part) -> Place
    ensures { result ≡ record { entry = entry; part = part } }
{
    Place { entry, part }
}

#[tactic(auto, using(crate::proofs::PlaceLaws::walks))]
fn push_cons(
    alloc: Global,
    places: &mut Vec<(Name, Place)>,
    cons: &[Con],
    number: usize,
) -> Result<(), NoMemory>
    ensures { OnOk result (places.new.items ≡ places.old.items ++ con_places number 0 cons.now) }
{
    for i in 0..cons.len() {
        let con = &cons[i];
        let name = con.name.try_copy(alloc)?;
        places.push((name, place_at(number, Part::Constructor(i))))?;
        push_fields(alloc, places, con.fields.as_slice(), number, i)?;
    }
    Ok(())
}

#[tactic(auto, using(crate::proofs::PlaceLaws::walks))]
fn push_fields(
    alloc: Global,
    places: &mut Vec<(Name, Place)>,
    fields: &[Var],
    number: usize,
    con: usize,
) -> Result<(), NoMemory>
    ensures { OnOk result (places.new.items ≡ places.old.items ++ field_places number con 0 fields.now) }
{
    for i in 0..fields.len() {
        let name = fields[i].name.try_copy(alloc)?;
        places.push((name, place_at(number, Part::Destructor(con, i))))?;
    }
    Ok(())
}

/// Appends the pairs, for which there is room.
pub(super) fn put_all(places: &mut IndexMap<Name, Place>, pairs: Vec<(Name, Place)>)
    requires { vec_len pairs ≤ spare places.old }
    ensures { IsDistinct bytes_eq (keys_of (places.old.entries ++ pairs.items)) → places.new.entries ≡ places.old.entries ++ pairs.items }
{
    let mut left = pairs;
    left.reverse();
    put_from_end(places, left);
}

fn put_from_end(places: &mut IndexMap<Name, Place>, left: Vec<(Name, Place)>)
    requires { vec_len left ≤ spare places.old }
    ensures { IsDistinct bytes_eq (keys_of (places.old.entries ++ reverse left.items)) → places.new.entries ≡ places.old.entries ++ reverse left.items }
{
    let mut left = left;
    while let Some(pair) = left.pop() {
        let (name, place) = pair;
        let Ok(_) = places.insert(name, place) else {
            unreachable!();
        };
    }
}

/// Takes the name off, and those behind it.
pub(super) fn cut(places: &mut IndexMap<Name, Place>, name: &Name)
    ensures { places.new.entries ≡ take (position_or_len (bytes_eq name.now) (keys_of places.old.entries)) places.old.entries }
{
    if let Some(i) = places.get_index_of(name) {
        places.truncate(i);
    }
}
