//! The names of theories and of sequents.
ghost use Rattle.std.specs.Prelude.{◌≡◌, ◌∷◌, [], IfOk};
ghost use Rattle.ev_script.specs.SequentNames.{word_name, word_index, numbered_kind, word_kind, word_sequent, sequent_of_parts};
ghost use Rattle.ev_script.specs.inner.Pieces.{texts};

use crate::lines::{first_parts, same_text};
use ev_syntax::is_name;
use ev_terms::{Name, NoMemory, ObKind, Same, TryCopy};
use std::alloc::Global;

/// The name of a sequent: the theory, the label of the element that it is an obligation of, and which one it is.
#[derive(Drop)]
pub struct SeqName {
    pub theory: Name,
    pub label: Name,
    pub kind: ObKind,
}

impl TryCopy for SeqName {
    fn try_copy(&self, alloc: Global) -> Result<SeqName, NoMemory> {
        Ok(SeqName {
            theory: self.theory.try_copy(alloc)?,
            label: self.label.try_copy(alloc)?,
            kind: self.kind,
        })
    }
}

impl Same for SeqName {
    fn same(&self, other: &SeqName) -> bool {
        if !self.theory.same(&other.theory) || !self.label.same(&other.label) {
            return false;
        }
        self.kind == other.kind
    }
}

/// The name that a word is, or none.
pub(crate) fn word_name(alloc: Global, word: &[u8]) -> Result<Option<Name>, NoMemory>
    ensures { IfOk result (λ name. name ≡ word_name word.now) }
{
    if is_name(word) {
        Ok(Some(Name::from_slice(alloc, word)?))
    } else {
        Ok(None)
    }
}

/// The number that a word is, from 1 to 4294967295 and without a leading zero.
fn word_index(word: &[u8]) -> Option<u32>
    ensures { result ≡ word_index word.now }
{
    let [first, ..] = word else {
        return None;
    };
    if *first < b'1' || *first > b'9' {
        return None;
    }
    match std::str::from_utf8(word) {
        Ok(text) => text.parse::<u32>().ok(),
        Err(_) => None,
    }
}

fn numbered_kind(word: &[u8]) -> Option<ObKind>
    ensures { result ≡ numbered_kind word.now }
{
    if let Some(digits) = word.strip_prefix("WD-".as_bytes()) {
        return word_index(digits).map(ObKind::WdOf);
    }
    if let Some(digits) = word.strip_prefix("SOUND-".as_bytes()) {
        return word_index(digits).map(ObKind::SoundOf);
    }
    None
}

fn word_kind(word: &[u8]) -> Option<ObKind>
    ensures { result ≡ word_kind word.now }
{
    if same_text(word, "THM") {
        return Some(ObKind::Thm);
    }
    if same_text(word, "WD") {
        return Some(ObKind::Wd);
    }
    if same_text(word, "SOUND") {
        return Some(ObKind::Sound);
    }
    if same_text(word, "COMPLETE") {
        return Some(ObKind::Complete);
    }
    numbered_kind(word)
}

fn three_parts(
    alloc: Global,
    theory: &[u8],
    label: &[u8],
    kind: &[u8],
) -> Result<Option<SeqName>, NoMemory>
    ensures { IfOk result (λ name. name ≡ sequent_of_parts (theory.now ∷ label.now ∷ kind.now ∷ [])) }
{
    if !is_name(theory) || !is_name(label) {
        return Ok(None);
    }
    let Some(kind) = word_kind(kind) else {
        return Ok(None);
    };
    let theory = Name::from_slice(alloc, theory)?;
    let label = Name::from_slice(alloc, label)?;
    Ok(Some(SeqName {
        theory,
        label,
        kind,
    }))
}

fn sequent_of_parts(alloc: Global, parts: &[&[u8]]) -> Result<Option<SeqName>, NoMemory>
    ensures { IfOk result (λ name. name ≡ sequent_of_parts (texts parts.now)) }
{
    match parts {
        [theory, label, kind] => three_parts(alloc, theory, label, kind),
        [] => Ok(None),
        [_] => Ok(None),
        [_, _] => Ok(None),
        [_, _, _, _, ..] => Ok(None),
    }
}

/// The sequent's name `theory/label/KIND` that a word is, or none.
pub fn sequent_name(alloc: Global, word: &[u8]) -> Result<Option<SeqName>, NoMemory>
    ensures { IfOk result (λ name. name ≡ word_sequent word.now) }
{
    let parts = first_parts(alloc, word)?;
    sequent_of_parts(alloc, parts.as_slice())
}
