ghost use Rattle.std.specs.Prelude.{◌≡◌, ◌<◌, List, IfNone, IfOk, IfSome, length, option_map};
ghost use Rattle.std.specs.List.{take_while};
ghost use Rattle.theory.specs.Words.{is_word_char};
ghost use Rattle.theory.specs.declared.marks.Mark.{Mark};
ghost use Rattle.theory.specs.Formulas.{word_mark, sign_front, mark_front, AreMarks};
ghost use Rattle.theory.specs.inner.Pieces.{front_of};

use crate::words::{begins_word, is_word_char, same_text, skip_blanks};
use ev_forms::Connective;
use ev_terms::NoMemory;
use std::alloc::Global;

/// The signs and words of propositional formulas.
#[derive(Debug, Clone, Copy, PartialEq, Eq)]
pub enum Mark {
    True,
    False,
    Not,
    And,
    Or,
    Implies,
    Iff,
    Open,
    Close,
}

/// The mark that a whole word is.
fn word_mark(word: &[u8]) -> Option<Mark>
    ensures { result ≡ word_mark word.now }
{
    if same_text(word, "true") {
        Some(Mark::True)
    } else if same_text(word, "false") {
        Some(Mark::False)
    } else if same_text(word, "not") {
        Some(Mark::Not)
    } else if same_text(word, "or") {
        Some(Mark::Or)
    } else {
        None
    }
}

/// How many letters, digits and `_` stand at the front.
pub fn word_len(text: &[u8]) -> usize
    ensures { result ≡ length (take_while is_word_char text.now) }
{
    let mut len = 0;
    for byte in text {
        if !is_word_char(*byte) {
            break;
        }
        len += 1;
    }
    len
}

/// The sign with which the text begins, and the text behind it.
fn sign_front(text: &[u8]) -> Option<(Mark, &[u8])>
    ensures exact { option_map front_of result ≡ sign_front text.now }
    ensures shorter { IfSome result (λ p. length p.1.now < length text.now) }
{
    if text.starts_with(b"&") {
        Some((Mark::And, &text[1..]))
    } else if text.starts_with(b"(") {
        Some((Mark::Open, &text[1..]))
    } else if text.starts_with(b")") {
        Some((Mark::Close, &text[1..]))
    } else if text.starts_with(b"=>") {
        Some((Mark::Implies, &text[2..]))
    } else if text.starts_with(b"<=>") {
        Some((Mark::Iff, &text[3..]))
    } else {
        None
    }
}

/// The mark with which the text begins, and the text behind it.
pub fn mark_front(text: &[u8]) -> Option<(Mark, &[u8])>
    ensures exact { option_map front_of result ≡ mark_front text.now }
    ensures shorter { IfSome result (λ p. length p.1.now < length text.now) }
{
    if !begins_word(text) {
        return sign_front(text);
    }
    let (word, rest) = text.split_at(word_len(text));
    match word_mark(word) {
        Some(mark) => Some((mark, rest)),
        None => None,
    }
}

/// The marks of a text, or `None` where it is not made of marks.
pub fn marks_of(alloc: Global, text: &[u8]) -> Result<Option<Vec<Mark>>, NoMemory>
    ensures found { IfOk result (λ o. IfSome o (λ marks. AreMarks text.now marks.items)) }
    ensures none { IfOk result (λ o. IfNone o ((ms : List Mark) → ¬ AreMarks text.now ms)) }
{
    let mut marks = Vec::new(alloc);
    let mut rest = skip_blanks(text);
    while !rest.is_empty() {
        match mark_front(rest) {
            Some((mark, after)) => {
                marks.push(mark)?;
                rest = skip_blanks(after);
            }
            None => return Ok(None),
        }
    }
    Ok(Some(marks))
}
