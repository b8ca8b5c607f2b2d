//! Elements: forms, or why they are none.
ghost use Rattle.std.specs.Prelude.{◌≡◌, ◌<◌, ◌^◌, length, IfOk};
ghost use Rattle.std.specs.List.{All};
ghost use Rattle.ev_syntax.specs.Tokens.{tokens_of};
ghost use Rattle.ev_syntax.specs.Views.{all_seen_in, LiesIn};
ghost use Rattle.ev_theory_text.specs.Answers.{IsElement, IsNoElement, ElementOf, whole_element};

use crate::form_reader::read_form;
use crate::forms::ElementForm;
use ev_parse::cursor::Cursor;
use ev_syntax::{LexFault, Reader, Tokens, lex};
use ev_terms::{ListOf, NoMemory};
use std::alloc::Global;

/// Why a part of a text is no element: it has no tokens or a literal that is too large; its tokens are no element; a formula or a type
/// in it is nested too deeply.
#[derive(Debug, Clone, Copy, PartialEq, Eq, Drop)]
pub enum TextKind {
    Text,
    Syntax,
    Deep,
}

/// A part of a text: the form of an element, or why it is none.
#[derive(Drop)]
pub enum RawElement {
    Read(ElementForm),
    Bad(TextKind),
}

pub type RawElements = ListOf<RawElement>;

/// What an answer is, by whether it took all the tokens.
fn whole_element(is_at_end: bool, form: Option<ElementForm>) -> RawElement
    ensures { result ≡ whole_element is_at_end form }
{
    if !is_at_end {
        return RawElement::Bad(TextKind::Syntax);
    }
    match form {
        Some(form) => RawElement::Read(form),
        None => RawElement::Bad(TextKind::Deep),
    }
}

/// The element that the tokens are.
fn element_of(alloc: Global, reader: &Reader<'_>) -> Result<RawElement, NoMemory>
    ensures { IfOk result (ElementOf reader.now) }
{
    let mut cursor = Cursor::new(alloc, reader)?;
    let form = read_form(&mut cursor, alloc)?;
    Ok(whole_element(cursor.is_at_end(), form))
}

fn element_in(alloc: Global, part: &[u8], tokens: &Tokens) -> Result<RawElement, NoMemory>
    requires { All (LiesIn part.now) tokens.now }
    ensures { IfOk result (ElementOf (tokens_of (all_seen_in part.now tokens.now))) }
{
    let reader = Reader::new(part, tokens.as_slice());
    element_of(alloc, &reader)
}

/// The element that a part of a text is.
pub fn read_element(alloc: Global, part: &[u8]) -> Result<RawElement, NoMemory>
    requires { length part.now < 2 ^ 32 }
    ensures { IfOk result (IsElement part.now) }
{
    match lex(alloc, part) {
        Ok(tokens) => element_in(alloc, part, &tokens),
        Err(LexFault::NoMemory) => Err(NoMemory),
        Err(LexFault::BadText) => Ok(RawElement::Bad(TextKind::Text)),
        Err(LexFault::NumberTooLarge) => Ok(RawElement::Bad(TextKind::Text)),
    }
}

/// What stands before the first element of a text. It is none, whatever its tokens are.
pub fn read_front(alloc: Global, front: &[u8]) -> Result<RawElement, NoMemory>
    requires { length front.now < 2 ^ 32 }
    ensures { IfOk result (IsNoElement front.now) }
{
    match lex(alloc, front) {
        Ok(_tokens) => Ok(RawElement::Bad(TextKind::Syntax)),
        Err(LexFault::NoMemory) => Err(NoMemory),
        Err(LexFault::BadText) => Ok(RawElement::Bad(TextKind::Text)),
        Err(LexFault::NumberTooLarge) => Ok(RawElement::Bad(TextKind::Text)),
    }
}
