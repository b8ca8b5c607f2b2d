//! The cut of a theory text into the parts that are its elements.
ghost use Rattle.std.specs.Prelude.{◌≡◌, ◌≤◌, ◌<◌, length, drop, take, IfOk, codes};
ghost use Rattle.std.specs.List.{list_any, All};
ghost use Rattle.bstr.specs.Text.{line_len};
ghost use Rattle.bstr.specs.Utf8.{decoded};
ghost use Rattle.ev_theory_text.specs.Cut.{continues_name, begins_with_keyword, begins_element, cut, texts};

use ev_terms::NoMemory;
use std::alloc::Global;

/// The words that begin an element.
static ELEMENT_KEYWORDS: [&str; 9] = [
    "IMPORT",
    "PARAM",
    "DATATYPE",
    "OPERATOR",
    "CONSTANT",
    "AXIOM",
    "THEOREM",
    "REWRITE",
    "INFERENCE",
];

/// A theory text in pieces, which lie in it one behind the other.
#[derive(Drop)]
pub struct Pieces<'a> {
    /// What stands before the first element.
    pub front: &'a [u8],
    /// The elements, each from its keyword's line to the next such line.
    pub parts: Vec<&'a [u8]>,
}

/// The length of the first line, with its LF where it has one.
fn line_length(text: &[u8]) -> usize
    ensures value { result ≡ line_len text.now }
    ensures within { result ≤ length text.now }
{
    match memchr::memchr(b'\n', text) {
        Some(at) => at + 1,
        None => text.len(),
    }
}

/// Whether the bytes begin with a character that continues a name.
fn continues_name(bytes: &[u8]) -> bool
    ensures { result ≡ continues_name (decoded bytes.now).char }
{
    match bstr::decode_utf8(bytes).0 {
        Some(ch) => unicode_ident::is_xid_continue(ch),
        None => false,
    }
}

fn begins_with_keyword(line: &[u8], keyword: &str) -> bool
    ensures { result ≡ begins_with_keyword line.now keyword.now }
{
    match line.strip_prefix(keyword.as_bytes()) {
        Some(rest) => !continues_name(rest),
        None => false,
    }
}

/// Whether one of the keywords begins the line.
fn begins_with_any(line: &[u8], keywords: &[&str]) -> bool
    ensures { result ≡ list_any (λ keyword. begins_with_keyword line.now keyword.now) keywords.now }
{
    keywords
        .iter()
        .any(|keyword| begins_with_keyword(line, keyword))
}

/// Whether an element begins with the line.
fn begins_element(line: &[u8]) -> bool
    ensures { result ≡ begins_element line.now }
{
    begins_with_any(line, &ELEMENT_KEYWORDS)
}

/// How far the lines go that begin no element.
fn front_length(text: &[u8]) -> usize
    ensures value { result ≡ length (cut text.now).front }
    ensures within { result ≤ length text.now }
{
    let mut at = 0;
    'lines: while at < text.len() {
        let rest = &text[at..];
        let length = line_length(rest);
        if begins_element(&rest[..length]) {
            return at;
        }
        at += length;
    }
    at
}

/// Cuts a theory text before each line that begins with an element keyword.
pub fn cut(alloc: Global, text: &[u8]) -> Result<Pieces<'_>, NoMemory>
    ensures front { IfOk result (λ pieces. pieces.front.now ≡ (cut text.now).front) }
    ensures parts { IfOk result (λ pieces. texts pieces.parts.items ≡ (cut text.now).parts) }
    ensures front_within { IfOk result (λ pieces. length pieces.front.now ≤ length text.now) }
    ensures parts_within { IfOk result (λ pieces. All (λ part. length part.now ≤ length text.now) pieces.parts.items) }
{
    let front = front_length(text);
    let mut parts = Vec::new(alloc);
    let mut at = front;
    'parts: while at < text.len() {
        let rest = &text[at..];
        let first = line_length(rest);
        let length = first + front_length(&rest[first..]);
        parts.push(&rest[..length])?;
        at += length;
    }
    Ok(Pieces {
        front: &text[..front],
        parts,
    })
}
