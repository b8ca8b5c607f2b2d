//! What a line is answered.
ghost use Rattle.std.specs.Prelude.{◌<◌, ◌^◌, length};

use crate::cases::{Case, case_of};
use crate::places::told_at_place;
use crate::texts::{bytes_of, put};
use crate::tokens::told_of_tokens;
use crate::wholes::told_whole;
use crate::words::told_of_word;
use ev_terms::NoMemory;
use std::alloc::{AllocError, Global};

/// Texts are shorter than this.
const TEXT_LIMIT: usize = 16_777_216;

/// What a call answers, by the kind of the call.
fn told(alloc: Global, case: &Case<'_>, text: &[u8]) -> Result<Option<Vec<u8>>, NoMemory>
    requires { length text.now < 2 ^ 32 }
{
    if let Some(told) = told_of_word(alloc, case, text)? {
        return Ok(Some(told));
    }
    if let Some(told) = told_of_tokens(alloc, case, text)? {
        return Ok(Some(told));
    }
    if let Some(told) = told_whole(alloc, case, text)? {
        return Ok(Some(told));
    }
    told_at_place(alloc, case, text)
}

fn told_of_line(alloc: Global, line: &str) -> Result<Option<Vec<u8>>, NoMemory> {
    let Some(case) = case_of(line) else {
        return Ok(None);
    };
    let Some(text) = bytes_of(alloc, case.text)? else {
        return Ok(None);
    };
    if text.len() >= TEXT_LIMIT {
        return Ok(None);
    }
    told(alloc, &case, text.as_slice())
}

/// What the call of a line answers, or that the line is no case.
fn told_or_none(alloc: Global, line: &str) -> Result<Vec<u8>, NoMemory> {
    if let Some(told) = told_of_line(alloc, line)? {
        return Ok(told);
    }
    let mut out = Vec::new(alloc);
    put(&mut out, b"no case")?;
    Ok(out)
}

/// What is written for a line.
pub(crate) fn answer(alloc: Global, line: &str) -> Result<Vec<u8>, AllocError> {
    if line.is_empty() || line.starts_with('#') {
        return Vec::from_slice(alloc, line.as_bytes());
    }
    match told_or_none(alloc, line) {
        Ok(told) => Ok(told),
        Err(NoMemory) => Err(AllocError),
    }
}
