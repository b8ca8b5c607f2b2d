//! Names by themselves.
ghost use Rattle.std.specs.Prelude.{◌≡◌};
ghost use Rattle.std.specs.List.{list_all};
ghost use Rattle.std.specs.Char.{is_ascii_digit};
ghost use Rattle.ev_syntax.specs.Names.{is_name, is_variable_name};

use crate::marks::mark_of;
use crate::runs::word_end;
use crate::scan::starts_word;

/// Whether the bytes are a name: a word in UTF-8 that is not reserved.
pub fn is_name(bytes: &[u8]) -> bool
    ensures { result ≡ is_name bytes.now }
{
    match std::str::from_utf8(bytes) {
        Ok(text) => is_name_text(text),
        Err(_) => false,
    }
}

fn is_name_text(text: &str) -> bool
    ensures { result ≡ is_name text.now }
{
    if text.is_empty() || !starts_word(text, 0) {
        return false;
    }
    if word_end(text, 0) < text.len() {
        return false;
    }
    match mark_of(text.as_bytes()) {
        Some(_) => false,
        None => true,
    }
}

fn are_digits(bytes: &[u8]) -> bool
    ensures { result ≡ list_all is_ascii_digit bytes.now }
{
    bytes.iter().all(|byte| byte.is_ascii_digit())
}

/// Whether the bytes are `v` and digits alone, as the names of variables that have none are written.
pub fn is_variable_name(bytes: &[u8]) -> bool
    ensures { result ≡ is_variable_name bytes.now }
{
    if bytes.len() < 2 || bytes[0] != b'v' {
        return false;
    }
    are_digits(&bytes[1..])
}
