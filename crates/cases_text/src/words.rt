//! Answers of words by themselves.
use crate::cases::Case;
use crate::texts::{put, put_number};
use ev_syntax::{all_spellings, is_name, is_variable_name, mark_of};
use ev_terms::NoMemory;
use std::alloc::Global;

fn put_whether(out: &mut Vec<u8>, holds: bool) -> Result<(), NoMemory> {
    if holds {
        put(out, b"yes")
    } else {
        put(out, b"no")
    }
}

fn put_mark_number(alloc: Global, out: &mut Vec<u8>, mark: Option<u16>) -> Result<(), NoMemory> {
    match mark {
        Some(mark) => put_number(alloc, out, u128::from(mark)),
        None => put(out, b"none"),
    }
}

/// Puts the spelling of a mark.
pub(crate) fn put_mark(out: &mut Vec<u8>, mark: u16) -> Result<(), NoMemory> {
    match all_spellings().get(mark) {
        Some(spelling) => put(out, spelling),
        None => put(out, b"none"),
    }
}

/// Puts the spelling of the mark that the text is the number of.
fn put_spelling(out: &mut Vec<u8>, number: &str) -> Result<(), NoMemory> {
    match number.parse::<u16>() {
        Ok(mark) => put_mark(out, mark),
        Err(_) => put(out, b"no number"),
    }
}

/// What a call that takes a word answers.
pub(crate) fn told_of_word(
    alloc: Global,
    case: &Case<'_>,
    word: &[u8],
) -> Result<Option<Vec<u8>>, NoMemory> {
    let mut out = Vec::new(alloc);
    match case.call {
        "is_name" => put_whether(&mut out, is_name(word))?,
        "is_variable_name" => put_whether(&mut out, is_variable_name(word))?,
        "mark_of" => put_mark_number(alloc, &mut out, mark_of(word))?,
        "spelling" => put_spelling(&mut out, case.text)?,
        _ => return Ok(None),
    }
    Ok(Some(out))
}
