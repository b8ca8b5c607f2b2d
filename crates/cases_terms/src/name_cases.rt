//! Cases of names and shared values.
use crate::list_cases::write_byte;
use cases_notation::fault::Fault;
use cases_notation::text::Text;
use cases_notation::words::{byte, place, text_of};
use ev_terms::{Bytes, Name, NoMemory, Same, Shared, TryCopy};
use std::alloc::Global;

/// Appends a text to a name, byte by byte.
fn push_text(alloc: Global, name: &mut Name, text: &str) -> Result<(), NoMemory> {
    for byte in text.as_bytes() {
        name.push(alloc, *byte)?;
    }
    Ok(())
}

/// A copied name of no bytes with a text pushed to it.
fn grown(alloc: Global, text: &str) -> Result<Name, NoMemory> {
    let mut name = Name::new(alloc).try_copy(alloc)?;
    push_text(alloc, &mut name, text)?;
    Ok(name)
}

/// A name that grows, is copied, and grows further.
fn copied(alloc: Global, out: &mut Text, first: &str, more: &str) -> Result<(), Fault> {
    let mut name = grown(alloc, first)?;
    let copy = name.try_copy(alloc)?;
    push_text(alloc, &mut name, more)?;
    out.named("length", copy.len() as u64);
    out.label("name");
    out.word(text_of(name.as_slice()));
    out.label("copy");
    out.word(text_of(copy.as_slice()));
    Ok(())
}

/// A byte of a name.
fn byte_at(alloc: Global, out: &mut Text, text: &str, at: &str) -> Result<(), Fault> {
    let at = place(at)?;
    let name = Name::from_slice(alloc, text.as_bytes())?;
    write_byte(out, name.get(at));
    Ok(())
}

fn from_bytes(alloc: Global, text: &str) -> Result<Name, NoMemory> {
    let bytes = Bytes::from_vec(text.as_bytes().to_vec(alloc)?);
    Name::from_bytes(alloc, bytes)
}

/// Whether two names are the same, which are made in two ways.
fn same(alloc: Global, out: &mut Text, first: &str, second: &str) -> Result<(), Fault> {
    let first = Name::from_slice(alloc, first.as_bytes())?;
    let second = from_bytes(alloc, second)?;
    out.test("same", first.same(&second));
    out.test("equal", first == second);
    Ok(())
}

fn share(alloc: Global, text: &str) -> Result<Shared<u8>, Fault> {
    Ok(Shared::new(alloc, byte(text)?)?)
}

/// Whether two shared values are the same, and what a copy of the first one is.
fn shared(alloc: Global, out: &mut Text, first: &str, second: &str) -> Result<(), Fault> {
    let first = share(alloc, first)?;
    let second = share(alloc, second)?;
    out.test("same", first.same(&second));
    let other = first.share()?;
    let copy = other.try_copy(alloc)?;
    out.label("copy");
    out.number(u64::from(*copy.get()));
    Ok(())
}

fn answer_two(
    alloc: Global,
    out: &mut Text,
    case: &str,
    first: &str,
    second: &str,
) -> Result<(), Fault> {
    match case {
        "copied" => copied(alloc, out, first, second),
        "byte" => byte_at(alloc, out, first, second),
        "same" => same(alloc, out, first, second),
        "shared" => shared(alloc, out, first, second),
        _ => Err(Fault::NoCase),
    }
}

/// The answer of a case of names.
pub fn answer(alloc: Global, out: &mut Text, case: &str, fields: &[&str]) -> Result<(), Fault> {
    match fields {
        [first, second] => answer_two(alloc, out, case, first.trim(), second.trim()),
        _ => Err(Fault::NoCase),
    }
}
