ghost use Rattle.std.specs.Prelude.{◌≡◌, List, IfNone, IfOk, IfSome, option_map};
ghost use Rattle.theory.specs.inner.Pieces.{texts};
ghost use Rattle.theory.specs.Theorems.{begins_blank, is_label, labelled, theorem_parts, IsTheorem, AreTheorems};
ghost use Rattle.theory.specs.inner.Pieces.{labelled_text};
ghost use Rattle.theory.specs.declared.theorems.Theorem.{Theorem};

use crate::formulas::formula_of;
use crate::marks::word_len;
use crate::words::{full_lines, is_blank, is_name, is_variable_name, skip_blanks};
use ev_terms::{ListOf, Name, NoMemory, Tree, TryCopy};
use indexmap::IndexSet;
use std::alloc::Global;

/// A theorem with its label.
#[derive(Drop)]
pub struct Theorem {
    pub label: Name,
    pub goal: Tree,
}

pub type Theorems = ListOf<Theorem>;

fn begins_blank(text: &[u8]) -> bool
    ensures { result ≡ begins_blank text.now }
{
    match text {
        [first, ..] => is_blank(*first),
        [] => false,
    }
}

fn is_label(word: &[u8]) -> bool
    ensures { result ≡ is_label word.now }
{
    is_name(word) && !is_variable_name(word)
}

/// A label, and the text behind the colon, where blanks come before them.
fn labelled(text: &[u8]) -> Option<(&[u8], &[u8])>
    ensures { option_map labelled_text result ≡ labelled text.now }
{
    if !begins_blank(text) {
        return None;
    }
    let text = skip_blanks(text);
    let (label, after) = text.split_at(word_len(text));
    let after = skip_blanks(after);
    if is_label(label) && after.starts_with(b":") {
        Some((label, &after[1..]))
    } else {
        None
    }
}

/// The label of a theorem's line, and the text behind the colon.
fn theorem_parts(line: &[u8]) -> Option<(&[u8], &[u8])>
    ensures { option_map labelled_text result ≡ theorem_parts line.now }
{
    if !line.starts_with(b"THEOREM") {
        return None;
    }
    labelled(&line[7..])
}

/// The theorem that a line is, or `None` where it is none.
fn theorem_of(alloc: Global, line: &[u8]) -> Result<Option<Theorem>, NoMemory>
    ensures found { IfOk result (λ o. IfSome o (λ t. IsTheorem line.now t)) }
    ensures none { IfOk result (λ o. IfNone o ((t : Theorem) → ¬ IsTheorem line.now t)) }
{
    let Some((label, text)) = theorem_parts(line) else {
        return Ok(None);
    };
    let Some(goal) = formula_of(alloc, text)? else {
        return Ok(None);
    };
    let label = Name::from_slice(alloc, label)?;
    Ok(Some(Theorem { label, goal }))
}

/// The theorems of a theory text's lines, or `None` where these are not such lines or a label stands twice.
pub fn theorems_of(alloc: Global, lines: &[&[u8]]) -> Result<Option<Theorems>, NoMemory>
    ensures found { IfOk result (λ o. IfSome o (λ ts. AreTheorems (texts lines.now) ts)) }
    ensures none { IfOk result (λ o. IfNone o ((ts : List Theorem) → ¬ AreTheorems (texts lines.now) ts)) }
{
    let full = full_lines(alloc, lines)?;
    let mut theorems = Theorems::new(alloc);
    let mut labels = IndexSet::new(alloc);
    for line in full.as_slice() {
        let Some(theorem) = theorem_of(alloc, line)? else {
            return Ok(None);
        };
        let (_, is_new) = labels.insert_full(theorem.label.try_copy(alloc)?)?;
        if !is_new {
            return Ok(None);
        }
        theorems.push(alloc, theorem)?;
    }
    Ok(Some(theorems))
}
