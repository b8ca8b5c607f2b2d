//! What a line answers.
//!
//! - `cut`: the parts of a theory text, `|` before each.
//! - `read`: the elements of a theory text, `;` behind each. `element`, `front`: what one part is, the second before the first keyword.
//! - `imports`: the names that a theory text imports.
//! - `size`: what one part is, with how many parameters, constructors, arguments, cases, variables, branches or givens it has.
//! - `count`: how many elements a theory text has, and how many names it imports.
//! - `reach NAME`, `reach NAME DEPLOYED`: the numbers that a number reaches in a graph, where all or those with a `1` are deployed.
//! - `cycle NAME IMPORTS`: the walk of imports from a number to itself, with these imports in place of its own.
use crate::graphs::{cycle_case, reach_case};
use crate::theories::{
    count_case, cut_case, element_case, front_case, imports_case, read_case, size_case,
};
use cases_lines::unescaped;
use ev_terms::NoMemory;
use std::alloc::Global;

fn text_case(alloc: Global, word: &str, text: &[u8]) -> Result<Vec<u8>, NoMemory> {
    match word {
        "cut" => cut_case(alloc, text),
        "read" => read_case(alloc, text),
        "element" => element_case(alloc, text),
        "front" => front_case(alloc, text),
        "imports" => imports_case(alloc, text),
        "size" => size_case(alloc, text),
        "count" => count_case(alloc, text),
        _ => Ok(b"no case".as_slice().to_vec(alloc)?),
    }
}

fn graph_case(alloc: Global, word: &str, asked: &str, graph: &str) -> Result<Vec<u8>, NoMemory> {
    let (name, further) = asked.split_once(' ').unwrap_or((asked, ""));
    let answered = match word {
        "reach" => reach_case(alloc, graph, name, further)?,
        "cycle" => cycle_case(alloc, graph, name, further)?,
        _ => None,
    };
    match answered {
        Some(line) => Ok(line),
        None => Ok(b"no case".as_slice().to_vec(alloc)?),
    }
}

fn case(alloc: Global, kind: &str, text: &[u8]) -> Result<Vec<u8>, NoMemory> {
    match kind.split_once(' ') {
        None => text_case(alloc, kind, text),
        Some((word, asked)) => {
            let graph = std::str::from_utf8(text).unwrap_or("");
            graph_case(alloc, word, asked, graph)
        }
    }
}

/// Appends a byte, by its number where a line cannot show it.
fn push_byte(alloc: Global, line: &mut String, byte: u8) -> Result<(), NoMemory> {
    if byte == b'\n' {
        return Ok(line.push_str("\\n")?);
    }
    if byte < b' ' || byte > b'~' {
        let text = format!(in alloc; "\\x{byte:02x}")?;
        return Ok(line.push_str(text.as_str())?);
    }
    Ok(line.push(char::from(byte))?)
}

/// What a line answers, with escapes for what a line cannot show.
pub fn answer(alloc: Global, line: &str) -> Result<String, NoMemory> {
    let Some((kind, text)) = line.split_once(" @ ") else {
        return Ok(String::from_str(alloc, line)?);
    };
    let text = unescaped(alloc, text)?;
    let answered = case(alloc, kind, text.as_slice())?;
    let mut shown = String::new(alloc);
    for byte in answered.as_slice() {
        push_byte(alloc, &mut shown, *byte)?;
    }
    Ok(shown)
}
