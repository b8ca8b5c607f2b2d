use crate::fault::Fault;
use std::alloc::Global;

/// The most words of a text, so that no type or pattern that is read nests deeper.
const WORD_LIMIT: usize = 2_000;

/// The words of a text, the last one first: a prefix notation is then read without recursion.
pub fn words_from_last(alloc: Global, text: &str) -> Result<Vec<&str>, Fault> {
    let mut words: Vec<&str> = text.split_whitespace().collect(alloc)?;
    if words.len() > WORD_LIMIT {
        return Err(Fault::NoCase);
    }
    words.reverse();
    Ok(words)
}

/// The fields of a case, which stand between commas.
pub fn fields_of(alloc: Global, text: &str) -> Result<Vec<&str>, Fault> {
    Ok(text.split(',').collect(alloc)?)
}

/// The number that a word is.
pub fn number(word: &str) -> Result<u32, Fault> {
    match word.trim().parse::<u32>() {
        Ok(n) => Ok(n),
        Err(_) => Err(Fault::NoCase),
    }
}

/// The number behind a mark, where the word is such.
pub fn number_behind(word: &str, mark: char) -> Option<u32> {
    let rest = word.strip_prefix(mark)?;
    match rest.parse::<u32>() {
        Ok(n) => Some(n),
        Err(_) => None,
    }
}

/// The byte that a word is.
pub fn byte(word: &str) -> Result<u8, Fault> {
    match word.trim().parse::<u8>() {
        Ok(byte) => Ok(byte),
        Err(_) => Err(Fault::NoCase),
    }
}

/// A place from 0.
pub fn place(word: &str) -> Result<usize, Fault> {
    Ok(number(word)? as usize)
}

/// The text of a name.
pub fn text_of(bytes: &[u8]) -> &str {
    match std::str::from_utf8(bytes) {
        Ok(text) => text,
        Err(_) => "no-text",
    }
}
