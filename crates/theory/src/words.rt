ghost use Rattle.std.specs.Prelude.{◌≡◌, bytes_eq, IfOk};
ghost use Rattle.std.specs.List.{list_all, list_any};
ghost use Rattle.std.specs.Char.{is_ascii_digit};
ghost use Rattle.theory.specs.Words.{is_blank, are_blanks, is_word_char, begins_word, is_word, is_reserved, is_name, is_variable_name, skip_blanks, drop_last_blanks, trimmed, lines_of, words_of, full_lines};
ghost use Rattle.theory.specs.inner.Pieces.{texts};

use std::alloc::{AllocError, Global};

/// The words that are no names.
static RESERVED: [&str; 50] = [
    "true",
    "false",
    "not",
    "or",
    "TRUE",
    "FALSE",
    "INT",
    "NAT",
    "NAT1",
    "BOOL",
    "POW",
    "TYPE",
    "PRED",
    "bool",
    "oftype",
    "mod",
    "finite",
    "card",
    "min",
    "max",
    "union",
    "inter",
    "dom",
    "ran",
    "id",
    "prj1",
    "prj2",
    "UNION",
    "INTER",
    "at",
    "of",
    "IMPORT",
    "PARAM",
    "DATATYPE",
    "OPERATOR",
    "CONSTANT",
    "AXIOM",
    "THEOREM",
    "REWRITE",
    "INFERENCE",
    "WHERE",
    "IS",
    "BY",
    "CASE",
    "FOR",
    "WHEN",
    "THEN",
    "COMPLETE",
    "GIVEN",
    "INFER",
];

pub fn is_blank(byte: u8) -> bool
    ensures { result ≡ is_blank byte }
{
    byte == b' ' || byte == b'\t' || byte == b'\r' || byte == b'\n'
}

pub fn are_blanks(text: &[u8]) -> bool
    ensures { result ≡ are_blanks text.now }
{
    text.iter().all(|byte| is_blank(*byte))
}

pub fn is_word_char(byte: u8) -> bool
    ensures { result ≡ is_word_char byte }
{
    byte.is_ascii_alphanumeric() || byte == b'_'
}

pub fn begins_word(text: &[u8]) -> bool
    ensures { result ≡ begins_word text.now }
{
    match text {
        [first, ..] => first.is_ascii_alphabetic() || *first == b'_',
        [] => false,
    }
}

fn are_word_chars(text: &[u8]) -> bool
    ensures { result ≡ list_all is_word_char text.now }
{
    text.iter().all(|byte| is_word_char(*byte))
}

fn are_digits(text: &[u8]) -> bool
    ensures { result ≡ list_all is_ascii_digit text.now }
{
    text.iter().all(|byte| byte.is_ascii_digit())
}

fn is_word(text: &[u8]) -> bool
    ensures { result ≡ is_word text.now }
{
    begins_word(text) && are_word_chars(text)
}

/// Whether the bytes are this text.
pub fn same_text(bytes: &[u8], text: &str) -> bool
    ensures { result ≡ bytes_eq bytes.now text.now }
{
    bytes == text.as_bytes()
}

fn is_among(words: &[&str], word: &[u8]) -> bool
    ensures { result ≡ list_any (λ w. bytes_eq w.now word.now) words.now }
{
    words.iter().any(|other| other.as_bytes() == word)
}

fn is_reserved(word: &[u8]) -> bool
    ensures { result ≡ is_reserved word.now }
{
    is_among(&RESERVED, word)
}

pub fn is_name(word: &[u8]) -> bool
    ensures { result ≡ is_name word.now }
{
    is_word(word) && !is_reserved(word)
}

pub fn is_variable_name(word: &[u8]) -> bool
    ensures { result ≡ is_variable_name word.now }
{
    match word {
        [first, digits @ ..] => *first == b'v' && !digits.is_empty() && are_digits(digits),
        [] => false,
    }
}

/// The text without the blanks at its front.
pub fn skip_blanks(text: &[u8]) -> &[u8]
    ensures { result.now ≡ skip_blanks text.now }
{
    let mut rest = text;
    while let [first, after @ ..] = rest {
        if !is_blank(*first) {
            break;
        }
        rest = after;
    }
    rest
}

/// The text without the blanks at its end.
#[tactic(auto, using(crate::proofs::WordLaws::last_blanks))]
pub fn drop_last_blanks(text: &[u8]) -> &[u8]
    ensures { result.now ≡ drop_last_blanks text.now }
{
    let mut rest = text;
    while let [before @ .., last] = rest {
        if !is_blank(*last) {
            break;
        }
        rest = before;
    }
    rest
}

/// The text without the blanks at both ends.
pub fn trimmed(text: &[u8]) -> &[u8]
    ensures { result.now ≡ trimmed text.now }
{
    skip_blanks(drop_last_blanks(text))
}

/// The lines of a text, without their LF.
pub fn lines_of(alloc: Global, text: &[u8]) -> Result<Vec<&[u8]>, AllocError>
    ensures { IfOk result (λ lines. texts lines.items ≡ lines_of text.now) }
{
    text.split(|byte| *byte == b'\n').collect(alloc)
}

/// The words of a line, separated by spaces or tabs.
pub fn words_of(alloc: Global, line: &[u8]) -> Result<Vec<&[u8]>, AllocError>
    ensures { IfOk result (λ words. texts words.items ≡ words_of line.now) }
{
    line.split(|byte| *byte == b' ' || *byte == b'\t')
        .filter(|word| !word.is_empty())
        .collect(alloc)
}

/// The lines that are not blank.
pub fn full_lines<'a>(alloc: Global, lines: &[&'a [u8]]) -> Result<Vec<&'a [u8]>, AllocError>
    ensures { IfOk result (λ full. texts full.items ≡ full_lines (texts lines.now)) }
{
    let mut full = Vec::new(alloc);
    for line in lines {
        if !are_blanks(line) {
            full.push(*line)?;
        }
    }
    Ok(full)
}
