//! The heads of units.
ghost use Rattle.std.specs.Prelude.{◌≡◌, ◌∷◌, [], IfOk, option_map};
ghost use Rattle.ev_script.specs.Scripts.{head_of, names_sequent, sequent_head, theory_head, two_words, words_of};
ghost use Rattle.ev_script.specs.inner.Pieces.{texts};
ghost use Rattle.ev_script.specs.inner.Spans.{head_told};

use crate::events::Event;
use crate::lines::{first_words, same_text};
use crate::sequent_names::{SeqName, sequent_name, word_name};
use ev_terms::{Name, NoMemory};
use std::alloc::Global;

/// What a head says: a whole event, or one that waits for its body.
#[derive(Drop)]
pub enum Head {
    Whole(Event),
    Put(Name),
    Proof(SeqName),
}

/// What a keyword says of a sequent, or none.
fn sequent_head(keyword: &[u8], name: SeqName) -> Option<Head>
    ensures { option_map head_told result ≡ sequent_head keyword.now name }
{
    if same_text(keyword, "PROOF") {
        return Some(Head::Proof(name));
    }
    if same_text(keyword, "SHOW") {
        return Some(Head::Whole(Event::Show(name)));
    }
    None
}

/// What a keyword says of a theory, or none.
fn theory_head(keyword: &[u8], name: Name) -> Option<Head>
    ensures { option_map head_told result ≡ theory_head keyword.now name }
{
    if same_text(keyword, "PUT") {
        return Some(Head::Put(name));
    }
    if same_text(keyword, "REMOVE") {
        return Some(Head::Whole(Event::Remove(name)));
    }
    if same_text(keyword, "DEPLOY") {
        return Some(Head::Whole(Event::Deploy(name)));
    }
    if same_text(keyword, "WITHDRAW") {
        return Some(Head::Whole(Event::Withdraw(name)));
    }
    None
}

/// Whether the keyword asks for the name of a sequent.
fn names_sequent(keyword: &[u8]) -> bool
    ensures { result ≡ names_sequent keyword.now }
{
    same_text(keyword, "PROOF") || same_text(keyword, "SHOW")
}

/// The head of a keyword and a word, or none.
fn two_words(alloc: Global, keyword: &[u8], word: &[u8]) -> Result<Option<Head>, NoMemory>
    ensures { IfOk result (λ head. option_map head_told head ≡ two_words keyword.now word.now) }
{
    if names_sequent(keyword) {
        let Some(name) = sequent_name(alloc, word)? else {
            return Ok(None);
        };
        return Ok(sequent_head(keyword, name));
    }
    let Some(name) = word_name(alloc, word)? else {
        return Ok(None);
    };
    Ok(theory_head(keyword, name))
}

/// The head that a word alone is, or none.
fn one_word(word: &[u8]) -> Option<Head>
    ensures { option_map head_told result ≡ head_of (word.now ∷ []) }
{
    if same_text(word, "STATUS") {
        Some(Head::Whole(Event::Status))
    } else {
        None
    }
}

/// The head that some words are, or none.
fn head_of_words(alloc: Global, words: &[&[u8]]) -> Result<Option<Head>, NoMemory>
    ensures { IfOk result (λ head. option_map head_told head ≡ head_of (texts words.now)) }
{
    match words {
        [keyword, word] => two_words(alloc, keyword, word),
        [word] => Ok(one_word(word)),
        [] => Ok(None),
        [_, _, _, ..] => Ok(None),
    }
}

/// The head that a line is, or none.
pub fn read_head(alloc: Global, line: &[u8]) -> Result<Option<Head>, NoMemory>
    ensures { IfOk result (λ head. option_map head_told head ≡ head_of (words_of line.now)) }
{
    let words = first_words(alloc, line)?;
    head_of_words(alloc, words.as_slice())
}
