//! Lines, their words, and the blanks between them.
ghost use Rattle.std.specs.Prelude.{◌≡◌, ◌≤◌, ◌==◌, bytes_eq, drop, length, take, IfOk};
ghost use Rattle.std.specs.List.{slice_split};
ghost use Rattle.bstr.specs.Text.{line_len};
ghost use Rattle.ev_syntax.specs.Chars.{is_blank};
ghost use Rattle.ev_script.specs.Scripts.{drop_last_blanks, is_end, skip_blanks, words_of};
ghost use Rattle.ev_script.specs.inner.Pieces.{texts};

use std::alloc::{AllocError, Global};

/// Whether the bytes are this text.
pub fn same_text(bytes: &[u8], text: &str) -> bool
    ensures { result ≡ bytes_eq bytes.now text.now }
{
    bytes == text.as_bytes()
}

fn is_blank(byte: u8) -> bool
    ensures { result ≡ is_blank byte }
{
    byte == b' ' || byte == b'\t' || byte == b'\r' || byte == b'\n'
}

/// Where the first byte stands, from a place on, that is no blank: at the end where there is none.
pub fn blanks_end(bytes: &[u8], from: usize) -> usize
    requires { from ≤ length bytes.now }
    ensures onward { from ≤ result }
    ensures within { result ≤ length bytes.now }
    ensures rest { skip_blanks (drop from bytes.now) ≡ drop result bytes.now }
{
    let mut at = from;
    'blanks: while at < bytes.len() && is_blank(bytes[at]) {
        at += 1;
    }
    at
}

/// The text without the blanks at its end.
#[tactic(auto, using(crate::proofs::LineLaws::last_blanks))]
fn drop_last_blanks(text: &[u8]) -> &[u8]
    ensures { result.now ≡ drop_last_blanks text.now }
{
    let mut rest = text;
    while let [before @ .., last] = rest {
        if !is_blank(*last) {
            break;
        }
        rest = before;
    }
    rest
}

/// The length of the first line, with its LF where it has one.
pub fn line_length(text: &[u8]) -> usize
    ensures value { result ≡ line_len text.now }
    ensures within { result ≤ length text.now }
{
    match memchr::memchr(b'\n', text) {
        Some(at) => at + 1,
        None => text.len(),
    }
}

/// Whether the line closes a body.
pub fn is_end(line: &[u8]) -> bool
    ensures { result ≡ is_end line.now }
{
    same_text(drop_last_blanks(line), "END")
}

/// The first three words of a line. No head has more than two.
pub fn first_words(alloc: Global, line: &[u8]) -> Result<Vec<&[u8]>, AllocError>
    ensures { IfOk result (λ words. texts words.items ≡ take 3 (words_of line.now)) }
{
    drop_last_blanks(line)
        .split(|byte| *byte == b' ' || *byte == b'\t')
        .filter(|word| !word.is_empty())
        .take(3)
        .collect(alloc)
}

/// The first four parts of a word that slashes cut. No name of a sequent has more than three.
pub fn first_parts(alloc: Global, word: &[u8]) -> Result<Vec<&[u8]>, AllocError>
    ensures { IfOk result (λ parts. texts parts.items ≡ take 4 (slice_split (λ b. b == 47) word.now)) }
{
    word.split(|byte| *byte == b'/').take(4).collect(alloc)
}
