//! What a line answers.
//!
//! - `read_steps`: the entries of a proof, `;` behind each.
//! - `read_steps count`: how many entries it has, how many of them are steps, and how many types and terms their citations have.
use crate::parts::put_cite_size;
use crate::steps::put_entry;
use cases_lines::unescaped;
use ev_proof::{StepLines, read_steps};
use ev_terms::NoMemory;
use std::alloc::Global;

fn shown(alloc: Global, entries: &StepLines) -> Result<String, NoMemory> {
    let mut line = String::new(alloc);
    for entry in entries.as_slice() {
        put_entry(&mut line, alloc, entry)?;
        line.push(';')?;
    }
    Ok(line)
}

fn counted(alloc: Global, entries: &StepLines) -> Result<String, NoMemory> {
    let steps = entries
        .as_slice()
        .iter()
        .filter(|entry| entry.is_some())
        .count();
    let count = entries.len();
    let mut line = format!(in alloc; "{count} {steps}")?;
    for entry in entries.as_slice() {
        put_cite_size(&mut line, alloc, entry)?;
    }
    Ok(line)
}

fn case(alloc: Global, kind: &str, body: &[u8]) -> Result<String, NoMemory> {
    if body.len() > u32::MAX as usize {
        return Ok(String::from_str(alloc, "too long")?);
    }
    match kind {
        "read_steps" => {
            let entries = read_steps(alloc, body)?;
            shown(alloc, &entries)
        }
        "read_steps count" => {
            let entries = read_steps(alloc, body)?;
            counted(alloc, &entries)
        }
        _ => Ok(String::from_str(alloc, "no case")?),
    }
}

/// What a line answers.
pub fn answer(alloc: Global, line: &str) -> Result<String, NoMemory> {
    let Some((kind, text)) = line.split_once(" @ ") else {
        return Ok(String::from_str(alloc, line)?);
    };
    let body = unescaped(alloc, text)?;
    case(alloc, kind, body.as_slice())
}
