//! Readers of labels and citations.
ghost use Rattle.std.specs.Prelude.{◌≡◌, true, IfOk, option_map};
ghost use Rattle.std.specs.List.{list_any};
ghost use Rattle.ev_syntax.specs.Marks.{comma, open_bracket};
ghost use Rattle.ev_syntax.specs.Grammar.{ReadsType};
ghost use Rattle.ev_syntax.specs.Parses.{ReadsAs};
ghost use Rattle.ev_syntax.specs.declared.sorts.Sort.TheVariants.{Expr};
ghost use Rattle.ev_parse.specs.Sequences.{Further, Separated};
ghost use Rattle.ev_proof.specs.Steps.{ReadsRef, ReadsTypes, ReadsTerms, ReadsCite};
ghost use Rattle.ev_parse.specs.Depths.{formula_deep, type_deep};
ghost use Rattle.ev_proof.specs.Depths.{cite_deep};
ghost use Rattle.ev_parse.specs.inner.Taking.{Took, TookMore, Anything, AtEnd, NotBefore, both, never};
ghost use Rattle.ev_proof.specs.inner.Following.{EndsTypes, EndsTerms};
ghost use Rattle.ev_proof.specs.inner.Words.{made_ref, made_cite};

use crate::steps::{Cite, Ref};
use ev_parse::cursor::Cursor;
use ev_parse::lists::{one, with};
use ev_syntax::mark_names::{CLOSE_BRACKET, COMMA, OF_WORD, OPEN_BRACKET, OVER_SIGN};
use ev_syntax::{RawType, Raws, Sort};
use ev_terms::{ListOf, Name, NoMemory};
use std::alloc::Global;

fn ref_of(theory: Option<Name>, label: Option<Name>) -> Option<Ref>
    ensures { result ≡ option_map made_ref (both theory label) }
{
    Some(Ref {
        theory: theory?,
        label: label?,
    })
}

/// Reads a label of a theory.
pub(crate) fn read_ref(cursor: &mut Cursor<'_>, alloc: Global) -> Result<Option<Ref>, NoMemory>
    ensures { IfOk result (λ v. Took ReadsRef Anything never cursor.old v cursor.new) }
{
    let theory = cursor.name(alloc)?;
    cursor.mark(OVER_SIGN);
    let label = cursor.name(alloc)?;
    Ok(ref_of(theory, label))
}

/// Reads further types behind some, each after a comma.
fn further_types(
    cursor: &mut Cursor<'_>,
    alloc: Global,
    first: Option<ListOf<RawType>>,
) -> Result<Option<ListOf<RawType>>, NoMemory>
    ensures { IfOk result (λ v. TookMore (Further comma (λ a. ReadsType a true)) EndsTypes (list_any type_deep) first cursor.old v cursor.new) }
{
    let mut types = first;
    'further: while cursor.begins(COMMA) {
        cursor.mark(COMMA);
        let written = cursor.written(alloc)?;
        types = with(alloc, types, written)?;
    }
    Ok(types)
}

/// Reads types in brackets, or nothing.
fn read_types(cursor: &mut Cursor<'_>, alloc: Global) -> Result<Option<ListOf<RawType>>, NoMemory>
    ensures { IfOk result (λ v. Took ReadsTypes (NotBefore open_bracket) (list_any type_deep) cursor.old v cursor.new) }
{
    if !cursor.begins(OPEN_BRACKET) {
        return Ok(Some(ListOf::new(alloc)));
    }
    cursor.mark(OPEN_BRACKET);
    let written = cursor.written(alloc)?;
    let first = one(alloc, written)?;
    let types = further_types(cursor, alloc, first)?;
    cursor.mark(CLOSE_BRACKET);
    Ok(types)
}

/// Reads further terms behind some, each after a comma.
fn further_terms(
    cursor: &mut Cursor<'_>,
    alloc: Global,
    first: Option<Raws>,
) -> Result<Option<Raws>, NoMemory>
    ensures { IfOk result (λ v. TookMore (Further comma (ReadsAs Expr)) EndsTerms (list_any formula_deep) first cursor.old v cursor.new) }
{
    let mut terms = first;
    'further: while cursor.begins(COMMA) {
        cursor.mark(COMMA);
        let term = cursor.formula(alloc, Sort::Expr)?;
        terms = with(alloc, terms, term)?;
    }
    Ok(terms)
}

/// Reads terms behind `of`, or nothing.
fn read_terms(cursor: &mut Cursor<'_>, alloc: Global) -> Result<Option<Raws>, NoMemory>
    ensures { IfOk result (λ v. Took ReadsTerms EndsTerms (list_any formula_deep) cursor.old v cursor.new) }
{
    if !cursor.begins(OF_WORD) {
        return Ok(Some(ListOf::new(alloc)));
    }
    cursor.mark(OF_WORD);
    let term = cursor.formula(alloc, Sort::Expr)?;
    let first = one(alloc, term)?;
    further_terms(cursor, alloc, first)
}

fn cite_of(types: Option<ListOf<RawType>>, terms: Option<Raws>) -> Option<Cite>
    ensures { result ≡ option_map made_cite (both types terms) }
{
    Some(Cite {
        types: types?,
        terms: terms?,
    })
}

/// Reads a citation, which ends the line.
pub(crate) fn read_cite(cursor: &mut Cursor<'_>, alloc: Global) -> Result<Option<Cite>, NoMemory>
    ensures { IfOk result (λ v. Took ReadsCite AtEnd cite_deep cursor.old v cursor.new) }
{
    let types = read_types(cursor, alloc)?;
    let terms = read_terms(cursor, alloc)?;
    Ok(cite_of(types, terms))
}
