//! How far blanks, words, numbers and signs go from a place in a text.
ghost use Rattle.std.specs.Prelude.{◌≡◌, true, false, ◌<◌, ◌≤◌, ◌+◌, ◌-◌, ◌*◌, ◌^◌, min, ◌∷◌, IsTrue, ◌↔◌, length, drop, slice_index, MatchOption};
ghost use Rattle.std.specs.Str.{chars};
ghost use Rattle.std.specs.Char.{len_utf8, is_ascii_digit, is_ascii_alphabetic};
ghost use Rattle.unicode_ident.specs.Ident.{is_xid_continue};
ghost use Rattle.ev_syntax.specs.Chars.{is_blank, starts_name};
ghost use Rattle.ev_syntax.specs.Marks.{signs};
ghost use Rattle.ev_syntax.specs.Tokens.{row_of};
ghost use Rattle.ev_syntax.specs.inner.Places.{IsPlace, PassesOne, PassesAll, Stops, CountsTo, IsLongest, SpellsMark};

use crate::marks::mark_of;
use crate::slots::LONGEST;

/// The least number that no literal may be.
pub const TOO_LARGE: u128 = 1 << 127;

/// The character at a place.
pub fn char_at(text: &str, at: usize) -> char
    requires place { IsPlace text.now at }
    requires within { at < length text.now }
    ensures here { chars (drop at text.now) ≡ result ∷ chars (drop (at + len_utf8 result) text.now) }
    ensures next { IsPlace text.now (at + len_utf8 result) }
{
    match text[at..].chars().next() {
        Some(ch) => ch,
        None => unreachable!(),
    }
}

/// Whether an ASCII byte continues a word.
#[tactic(auto, using(crate::proofs::Words::ascii_words))]
fn is_word_byte(byte: u8) -> bool
    requires { byte < 128 }
    ensures { result ≡ is_xid_continue byte }
{
    byte.is_ascii_alphanumeric() | (byte == b'_')
}

/// The bytes of the character at a place, if it continues a word, or 0.
#[tactic(auto, using(crate::proofs::Characters::steps))]
fn word_width(text: &str, at: usize) -> usize
    requires { IsPlace text.now at }
    ensures over { 0 < result → PassesOne is_xid_continue text.now at (at + result) }
    ensures stops { result ≡ 0 → Stops is_xid_continue (chars (drop at text.now)) }
{
    let bytes = text.as_bytes();
    if at >= bytes.len() {
        return 0;
    }
    let byte = bytes[at];
    if byte < 128 {
        return if is_word_byte(byte) { 1 } else { 0 };
    }
    let ch = char_at(text, at);
    if unicode_ident::is_xid_continue(ch) {
        ch.len_utf8()
    } else {
        0
    }
}

/// Where a run of characters that continue a word ends.
#[tactic(auto, using(crate::proofs::Characters::passing))]
pub fn word_end(text: &str, from: usize) -> usize
    requires { IsPlace text.now from }
    ensures passes { PassesAll is_xid_continue text.now from result }
    ensures stops { Stops is_xid_continue (chars (drop result text.now)) }
{
    let mut at = from;
    'words: loop {
        let width = word_width(text, at);
        if width == 0 {
            return at;
        }
        at += width;
    }
}

/// Whether a byte is a space, a tab, a CR or an LF.
fn is_blank_byte(byte: u8) -> bool
    ensures blank { result ≡ is_blank byte }
    ensures ascii { IsTrue result → byte < 128 }
{
    (byte == b' ' || byte == b'\t') || (byte == b'\r' || byte == b'\n')
}

/// Where a run of blanks ends.
#[tactic(auto, using(crate::proofs::Characters::passing, crate::proofs::Characters::steps))]
pub fn blanks_end(text: &str, from: usize) -> usize
    requires { IsPlace text.now from }
    ensures passes { PassesAll is_blank text.now from result }
    ensures stops { Stops is_blank (chars (drop result text.now)) }
{
    let bytes = text.as_bytes();
    let mut at = from;
    'blanks: while at < bytes.len() && is_blank_byte(bytes[at]) {
        at += 1;
    }
    at
}

/// A number that is read: where it ends, and its value, at most 2^127.
#[derive(Clone, Copy)]
pub struct Counted {
    pub end: usize,
    pub value: u128,
}

/// The value with one more digit, at most 2^127.
fn with_digit(value: u128, digit: u8) -> u128
    requires digit { is_ascii_digit digit ≡ true }
    requires capped { value ≤ 2 ^ 127 }
    ensures { result ≡ min (value * 10 + (digit - 48)) (2 ^ 127) }
{
    if value > TOO_LARGE / 10 {
        return TOO_LARGE;
    }
    (value * 10 + (digit - b'0') as u128).min(TOO_LARGE)
}

/// Where a run of digits ends, and what it counts.
#[tactic(auto, using(crate::proofs::Counting::counting))]
pub fn count_digits(text: &str, from: usize) -> Counted
    requires { IsPlace text.now from }
    ensures counts { CountsTo text.now from result.end result.value }
    ensures stops { Stops is_ascii_digit (chars (drop result.end text.now)) }
{
    let bytes = text.as_bytes();
    let mut counted = Counted {
        end: from,
        value: 0,
    };
    'digits: while counted.end < bytes.len() && bytes[counted.end].is_ascii_digit() {
        counted = Counted {
            end: counted.end + 1,
            value: with_digit(counted.value, bytes[counted.end]),
        };
    }
    counted
}

/// A sign that is read: its mark, and how many bytes it takes.
#[derive(Clone, Copy)]
pub struct Sign {
    pub mark: u16,
    pub size: usize,
}

/// How many bytes a sign has at most that begins with the first byte.
#[tactic(auto, using(crate::proofs::Signs::sign_start))]
fn longest_sign(bytes: &[u8]) -> usize
    requires { 0 < length bytes.now }
    ensures { IsLongest bytes.now result }
{
    (LONGEST[bytes[0] as usize] as usize).min(bytes.len())
}

/// The longest sign at the front of the bytes: each length is looked up, from the greatest that a sign with this first byte has.
#[tactic(auto, using(crate::proofs::Signs::sign_steps))]
pub fn sign_at(bytes: &[u8]) -> Option<Sign>
    requires { 0 < length bytes.now }
    ensures { MatchOption result (IsLongest bytes.now 0) (λ sign. SpellsMark bytes.now sign.mark sign.size) }
{
    let mut size = longest_sign(bytes);
    'sizes: while size > 0 {
        if let Some(mark) = mark_of(&bytes[..size]) {
            return Some(Sign { mark, size });
        }
        size -= 1;
    }
    None
}
