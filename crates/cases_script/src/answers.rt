//! What a line answers.
//!
//! - `read`: the events of a script, each behind `|`, or `bad` and the offset of the first unit that is none. `copy`: the same of a copy of the
//!   events.
//! - `cut`: the same for each front of a text, the empty one first.
//! - `sequent`: the name of a sequent, or `none`. `same`: whether two words are one sequent's name.
//! - `generate`: the generated script of a number. `length`, `count`: its length, and how many events it has.
//! - `events`: how many events a script has.
use crate::events::{put, put_events, put_fault, put_number, put_sequent};
use cases_lines::unescaped;
use ev_script::{Events, generate, read_script, sequent_name};
use ev_terms::{Bytes, NoMemory, Same, TryCopy};
use std::alloc::Global;

fn put_script(text: &mut String, alloc: Global, bytes: &[u8]) -> Result<(), NoMemory> {
    match read_script(alloc, bytes) {
        Ok(events) => put_events(text, alloc, &events),
        Err(fault) => put_fault(text, alloc, fault),
    }
}

fn read_case(alloc: Global, bytes: &[u8]) -> Result<String, NoMemory> {
    let mut text = String::new(alloc);
    put_script(&mut text, alloc, bytes)?;
    Ok(text)
}

fn put_event_count(text: &mut String, alloc: Global, bytes: &[u8]) -> Result<(), NoMemory> {
    match read_script(alloc, bytes) {
        Ok(events) => put_number(text, alloc, events.len() as u64),
        Err(fault) => put_fault(text, alloc, fault),
    }
}

fn events_case(alloc: Global, bytes: &[u8]) -> Result<String, NoMemory> {
    let mut text = String::new(alloc);
    put_event_count(&mut text, alloc, bytes)?;
    Ok(text)
}

fn copy_case(alloc: Global, bytes: &[u8]) -> Result<String, NoMemory> {
    let mut text = String::new(alloc);
    let events = read_script(alloc, bytes).unwrap_or(Events::new(alloc));
    let copy = events.try_copy(alloc)?;
    put_events(&mut text, alloc, &copy)?;
    Ok(text)
}

fn cut_case(alloc: Global, bytes: &[u8]) -> Result<String, NoMemory> {
    let mut text = String::new(alloc);
    for length in 0..=bytes.len() {
        if length > 0 {
            put(&mut text, "\n")?;
        }
        put_number(&mut text, alloc, length as u64)?;
        put(&mut text, " ")?;
        put_script(&mut text, alloc, &bytes[..length])?;
    }
    Ok(text)
}

fn sequent_case(alloc: Global, word: &[u8]) -> Result<String, NoMemory> {
    let mut text = String::new(alloc);
    match sequent_name(alloc, word)? {
        Some(name) => put_sequent(&mut text, alloc, &name)?,
        None => put(&mut text, "none")?,
    }
    Ok(text)
}

fn are_same(alloc: Global, words: &str) -> Result<bool, NoMemory> {
    let Some((one, other)) = words.split_once(' ') else {
        return Ok(false);
    };
    let Some(one) = sequent_name(alloc, one.as_bytes())? else {
        return Ok(false);
    };
    let Some(other) = sequent_name(alloc, other.as_bytes())? else {
        return Ok(false);
    };
    Ok(one.same(&other))
}

fn same_case(alloc: Global, words: &[u8]) -> Result<String, NoMemory> {
    let words = std::str::from_utf8(words).unwrap_or("");
    let mut text = String::new(alloc);
    put(
        &mut text,
        if are_same(alloc, words)? { "yes" } else { "no" },
    )?;
    Ok(text)
}

/// The generated script of a number from 1 to 100,000, and else none.
fn generated(alloc: Global, bytes: &[u8]) -> Result<Option<Bytes>, NoMemory> {
    let number = match std::str::from_utf8(bytes) {
        Ok(text) => text.parse::<u32>().unwrap_or(0),
        Err(_) => 0,
    };
    if number < 1 || number > 100000 {
        return Ok(None);
    }
    Ok(Some(generate(alloc, number)?))
}

fn generate_case(alloc: Global, number: &[u8]) -> Result<String, NoMemory> {
    match generated(alloc, number)? {
        Some(script) => {
            let text = std::str::from_utf8(script.as_slice()).unwrap_or("no text");
            Ok(String::from_str(alloc, text)?)
        }
        None => Ok(String::from_str(alloc, "none")?),
    }
}

fn length_case(alloc: Global, number: &[u8]) -> Result<String, NoMemory> {
    let mut text = String::new(alloc);
    if let Some(script) = generated(alloc, number)? {
        put_number(&mut text, alloc, script.len() as u64)?;
    }
    Ok(text)
}

fn count_case(alloc: Global, number: &[u8]) -> Result<String, NoMemory> {
    let mut text = String::new(alloc);
    if let Some(script) = generated(alloc, number)? {
        put_event_count(&mut text, alloc, script.as_slice())?;
    }
    Ok(text)
}

fn case(alloc: Global, word: &str, bytes: &[u8]) -> Result<String, NoMemory> {
    match word {
        "read" => read_case(alloc, bytes),
        "copy" => copy_case(alloc, bytes),
        "events" => events_case(alloc, bytes),
        "cut" => cut_case(alloc, bytes),
        "sequent" => sequent_case(alloc, bytes),
        "same" => same_case(alloc, bytes),
        "generate" => generate_case(alloc, bytes),
        "length" => length_case(alloc, bytes),
        "count" => count_case(alloc, bytes),
        _ => Ok(String::from_str(alloc, "no case")?),
    }
}

/// What a line answers.
pub fn answer(alloc: Global, line: &str) -> Result<String, NoMemory> {
    let Some((word, text)) = line.split_once(" @ ") else {
        return Ok(String::from_str(alloc, line)?);
    };
    let bytes = unescaped(alloc, text)?;
    case(alloc, word, bytes.as_slice())
}
