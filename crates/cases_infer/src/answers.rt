//! What a line answers.
//!
//! - `pred`, `expr`, `either`: the canonical text of the annotation of a formula of that sort, which is read back.
//! - `extent`: the size and the depth of that annotation.
//! - `names`: whether some name is not in scope, and whether some bound name is taken. `name`: whether it is a formula name.
//! - `bare`: what a formula means before types are inferred. `bare-extent`: the size and the depth of the annotation of that.
//! - `type`: the canonical text of a type.
//! - `tree`: the canonical text of a term of `notation`. `tree-extent`: the size and the depth of the annotation of that term without its
//!   types.
use crate::bares::{annotated_again, annotated_extent, bare_text};
use crate::formulas::{canonical, extent_of, name_kind, names_in, printed};
use crate::notation::term;
use crate::refusals::Refusal;
use crate::settings::Setting;
use crate::types::read_type;
use cases_lines::unescaped;
use ev_print::print_type;
use ev_syntax::Sort;
use ev_terms::{NoMemory, Ty};
use std::alloc::Global;

fn type_text(alloc: Global, setting: &Setting, text: &[u8]) -> Result<Vec<u8>, Refusal> {
    let ty = read_type(alloc, &setting.params, text)?;
    let text = print_type(alloc, &ty)?;
    Ok(text.as_slice().to_vec(alloc)?)
}

/// Cases of formulas.
fn formula_case(
    alloc: Global,
    setting: &Setting,
    word: &str,
    asked: Option<&Ty>,
    text: &[u8],
) -> Result<Vec<u8>, Refusal> {
    match word {
        "pred" => canonical(alloc, setting, Sort::Pred, asked, text),
        "expr" => canonical(alloc, setting, Sort::Expr, asked, text),
        "either" => canonical(alloc, setting, Sort::Either, asked, text),
        "extent" => extent_of(alloc, setting, Sort::Either, asked, text),
        "names" => names_in(alloc, setting, Sort::Either, text),
        "name" => name_kind(alloc, setting, text),
        "bare" => bare_text(alloc, setting, Sort::Either, text),
        "bare-extent" => annotated_extent(alloc, setting, asked, text),
        "type" => type_text(alloc, setting, text),
        _ => Err(Refusal::Case),
    }
}

/// Cases of terms.
fn case_of(
    alloc: Global,
    setting: &Setting,
    word: &str,
    asked: Option<&Ty>,
    text: &str,
) -> Result<Vec<u8>, Refusal> {
    match word {
        "tree" => printed(alloc, setting, &term(alloc, text)?),
        "tree-extent" => annotated_again(alloc, setting, asked, &term(alloc, text)?),
        _ => {
            let text = unescaped(alloc, text)?;
            formula_case(alloc, setting, word, asked, text.as_slice())
        }
    }
}

fn case(alloc: Global, setting: &Setting, kind: &str, text: &str) -> Result<Vec<u8>, Refusal> {
    match kind.split_once(' ') {
        None => case_of(alloc, setting, kind, None, text),
        Some((word, written)) => {
            let asked = read_type(alloc, &setting.params, written.as_bytes())?;
            case_of(alloc, setting, word, Some(&asked), text)
        }
    }
}

fn line_of(alloc: Global, setting: &mut Setting, line: &str) -> Result<Vec<u8>, Refusal> {
    match line.split_once(" @ ") {
        Some((kind, text)) => case(alloc, setting, kind, text),
        None => {
            setting.set(alloc, line)?;
            Ok(line.as_bytes().to_vec(alloc)?)
        }
    }
}

fn text_of(alloc: Global, bytes: &[u8]) -> Result<String, NoMemory> {
    let text = std::str::from_utf8(bytes).unwrap_or("no UTF-8");
    Ok(String::from_str(alloc, text)?)
}

/// What a line answers.
pub fn answer(alloc: Global, setting: &mut Setting, line: &str) -> Result<String, NoMemory> {
    match line_of(alloc, setting, line) {
        Ok(bytes) => text_of(alloc, bytes.as_slice()),
        Err(Refusal::NoMemory) => Err(NoMemory),
        Err(refusal) => text_of(alloc, refusal.word().as_bytes()),
    }
}
