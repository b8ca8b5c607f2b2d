//! Cases of theory texts.
use crate::elements::{put, put_element};
use crate::parts::put_number;
use crate::sizes::put_size;
use ev_terms::NoMemory;
use ev_theory_text::{
    RawElement, RawElements, cut, import_names, read_element, read_front, read_theory,
};
use std::alloc::Global;

const TOO_LONG: &str = "too long";

/// The pieces of a text, `|` before each element.
pub fn cut_case(alloc: Global, text: &[u8]) -> Result<Vec<u8>, NoMemory> {
    let pieces = cut(alloc, text)?;
    let mut line = pieces.front.to_vec(alloc)?;
    for part in &pieces.parts {
        put(&mut line, b"|")?;
        put(&mut line, part)?;
    }
    Ok(line)
}

/// The elements, each with its end marked.
fn shown(alloc: Global, elements: &RawElements) -> Result<Vec<u8>, NoMemory> {
    let mut line = Vec::new(alloc);
    for element in elements.as_slice() {
        put_element(&mut line, alloc, element)?;
        put(&mut line, b";")?;
    }
    Ok(line)
}

/// The elements of a text.
pub fn read_case(alloc: Global, text: &[u8]) -> Result<Vec<u8>, NoMemory> {
    if text.len() > u32::MAX as usize {
        return Ok(TOO_LONG.as_bytes().to_vec(alloc)?);
    }
    let elements = read_theory(alloc, text)?;
    shown(alloc, &elements)
}

fn shown_element(alloc: Global, element: &RawElement) -> Result<Vec<u8>, NoMemory> {
    let mut line = Vec::new(alloc);
    put_element(&mut line, alloc, element)?;
    Ok(line)
}

/// What one part of a text is.
pub fn element_case(alloc: Global, text: &[u8]) -> Result<Vec<u8>, NoMemory> {
    if text.len() > u32::MAX as usize {
        return Ok(TOO_LONG.as_bytes().to_vec(alloc)?);
    }
    let element = read_element(alloc, text)?;
    shown_element(alloc, &element)
}

/// What the part before the first element keyword is.
pub fn front_case(alloc: Global, text: &[u8]) -> Result<Vec<u8>, NoMemory> {
    if text.len() > u32::MAX as usize {
        return Ok(TOO_LONG.as_bytes().to_vec(alloc)?);
    }
    let element = read_front(alloc, text)?;
    shown_element(alloc, &element)
}

/// The names that a text imports.
pub fn imports_case(alloc: Global, text: &[u8]) -> Result<Vec<u8>, NoMemory> {
    if text.len() > u32::MAX as usize {
        return Ok(TOO_LONG.as_bytes().to_vec(alloc)?);
    }
    let elements = read_theory(alloc, text)?;
    let names = import_names(alloc, &elements)?;
    let mut line = Vec::new(alloc);
    for (place, name) in names.as_slice().iter().enumerate() {
        if place > 0 {
            put(&mut line, b" ")?;
        }
        put(&mut line, name.as_slice())?;
    }
    Ok(line)
}

/// What one part of a text is, and how many parts it has.
pub fn size_case(alloc: Global, text: &[u8]) -> Result<Vec<u8>, NoMemory> {
    if text.len() > u32::MAX as usize {
        return Ok(TOO_LONG.as_bytes().to_vec(alloc)?);
    }
    let element = read_element(alloc, text)?;
    let mut line = Vec::new(alloc);
    put_size(&mut line, alloc, &element)?;
    Ok(line)
}

/// How many elements a text has, and how many names it imports.
pub fn count_case(alloc: Global, text: &[u8]) -> Result<Vec<u8>, NoMemory> {
    if text.len() > u32::MAX as usize {
        return Ok(TOO_LONG.as_bytes().to_vec(alloc)?);
    }
    let elements = read_theory(alloc, text)?;
    let names = import_names(alloc, &elements)?;
    let mut line = Vec::new(alloc);
    put_number(&mut line, alloc, elements.len() as u128)?;
    put(&mut line, b" ")?;
    put_number(&mut line, alloc, names.len() as u128)?;
    Ok(line)
}
