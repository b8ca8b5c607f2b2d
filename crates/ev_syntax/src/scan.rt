//! The token at a place.
ghost use Rattle.std.specs.Prelude.{◌≡◌, true, false, IsTrue, ◌<◌, ◌≤◌, ◌^◌, length, drop, slice_index, MatchBool};
ghost use Rattle.std.specs.Str.{chars};
ghost use Rattle.std.specs.Char.{is_ascii_digit, is_ascii_alphabetic};
ghost use Rattle.unicode_ident.specs.Ident.{is_xid_start};
ghost use Rattle.ev_syntax.specs.Chars.{starts_name};
ghost use Rattle.ev_syntax.specs.inner.Places.{IsPlace, Starts, Stops};
ghost use Rattle.ev_syntax.specs.inner.Standing.{StandsAt};

use crate::kinds::{Token, TokenKind};
use crate::marks::mark_of;
use crate::pieces::Piece;
use crate::runs::{TOO_LARGE, char_at, count_digits, sign_at, word_end};

/// Whether an ASCII byte begins a name.
#[tactic(auto, using(crate::proofs::Words::ascii_words))]
fn is_start_byte(byte: u8) -> bool
    requires { byte < 128 }
    ensures { result ≡ starts_name byte }
{
    byte.is_ascii_alphabetic() | (byte == b'_')
}

/// Whether the character at a place begins a name.
pub fn starts_word(text: &str, at: usize) -> bool
    requires place { IsPlace text.now at }
    requires within { at < length text.now }
    ensures { MatchBool result (Starts starts_name (chars (drop at text.now))) (Stops starts_name (chars (drop at text.now))) }
{
    let byte = text.as_bytes()[at];
    if byte < 128 {
        return is_start_byte(byte);
    }
    let ch = char_at(text, at);
    unicode_ident::is_xid_start(ch) | (ch == '_')
}

/// The name or the reserved word at a place.
fn word_at(text: &str, at: usize) -> Piece
    requires place { IsPlace text.now at }
    requires short { length text.now < 2 ^ 32 }
    requires starts { Starts starts_name (chars (drop at text.now)) }
    ensures { StandsAt text.now at result }
{
    let end = word_end(text, at);
    let kind = match mark_of(&text.as_bytes()[at..end]) {
        Some(mark) => TokenKind::Mark(mark),
        None => TokenKind::Name,
    };
    Piece::Found(Token {
        kind,
        start: at as u32,
        end: end as u32,
    })
}

/// The number at a place.
fn number_at(text: &str, at: usize) -> Piece
    requires place { IsPlace text.now at }
    requires short { length text.now < 2 ^ 32 }
    requires starts { Starts is_ascii_digit (chars (drop at text.now)) }
    ensures { StandsAt text.now at result }
{
    let counted = count_digits(text, at);
    if counted.value >= TOO_LARGE {
        return Piece::TooLarge(counted.end);
    }
    Piece::Found(Token {
        kind: TokenKind::Number(counted.value),
        start: at as u32,
        end: counted.end as u32,
    })
}

/// The sign at a place.
fn mark_at(text: &str, at: usize) -> Piece
    requires place { IsPlace text.now at }
    requires within { at < length text.now }
    requires short { length text.now < 2 ^ 32 }
    requires no_word { Stops starts_name (chars (drop at text.now)) }
    requires no_number { Stops is_ascii_digit (chars (drop at text.now)) }
    ensures { StandsAt text.now at result }
{
    match sign_at(&text.as_bytes()[at..]) {
        Some(sign) => Piece::Found(Token {
            kind: TokenKind::Mark(sign.mark),
            start: at as u32,
            end: (at + sign.size) as u32,
        }),
        None => Piece::Bad,
    }
}

/// What stands at a place.
pub fn piece_at(text: &str, at: usize) -> Piece
    requires place { IsPlace text.now at }
    requires within { at < length text.now }
    requires short { length text.now < 2 ^ 32 }
    ensures { StandsAt text.now at result }
{
    if text.as_bytes()[at].is_ascii_digit() {
        number_at(text, at)
    } else if starts_word(text, at) {
        word_at(text, at)
    } else {
        mark_at(text, at)
    }
}
