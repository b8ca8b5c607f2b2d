//! Repeated pieces.
use std::alloc::{AllocError, Global};

/// How many repetitions a line may have.
const MOST: u32 = 64;

/// A text with a piece so many times between two others.
fn with_repeated(
    alloc: Global,
    parts: (&str, &str),
    count: u32,
    piece: &str,
) -> Result<String, AllocError> {
    let (before, behind) = parts;
    let mut text = String::from_str(alloc, before)?;
    for _ in 0..count {
        text.push_str(piece)?;
    }
    text.push_str(behind)?;
    Ok(text)
}

/// The text with its last repetition written out. None where it has none.
fn without_last(alloc: Global, text: &str) -> Result<Option<String>, AllocError> {
    let Some((before, repeated)) = text.rsplit_once("\\{") else {
        return Ok(None);
    };
    let Some((repetition, behind)) = repeated.split_once('}') else {
        return Ok(None);
    };
    let Some((count, piece)) = repetition.split_once(':') else {
        return Ok(None);
    };
    match count.parse::<u32>() {
        Ok(count) => Ok(Some(with_repeated(alloc, (before, behind), count, piece)?)),
        Err(_) => Ok(None),
    }
}

/// The text with its repetitions written out, the last first, so that a piece may hold further ones.
pub(crate) fn without_repetitions(alloc: Global, text: &str) -> Result<String, AllocError> {
    let mut text = String::from_str(alloc, text)?;
    for _ in 0..MOST {
        match without_last(alloc, text.as_str())? {
            Some(longer) => text = longer,
            None => return Ok(text),
        }
    }
    Ok(text)
}
