//! Readers of what an operator is.
ghost use Rattle.std.specs.Prelude.{◌≡◌, IfOk, option_map};
ghost use Rattle.std.specs.List.{list_any};
ghost use Rattle.ev_parse.specs.Sequences.{Repeated, AtLeastOne};
ghost use Rattle.ev_theory_text.specs.Elements.{BehindCase, ReadsCase, ReadsBody};
ghost use Rattle.ev_theory_text.specs.Depths.{case_deep, body_deep};
ghost use Rattle.ev_theory_text.specs.inner.Following.{EndsCases};
ghost use Rattle.ev_parse.specs.inner.Taking.{Took, TookMore, EndsFormula, both};
ghost use Rattle.ev_theory_text.specs.inner.Making.{case_of, direct, recursive};

use crate::forms::{RawBody, RawCase, RawCases};
use crate::names::names_in_parens;
use ev_parse::cursor::Cursor;
use ev_parse::lists::{one, with};
use ev_syntax::mark_names::{BY_WORD, CASE_WORD, IS_WORD};
use ev_syntax::{Raw, Sort};
use ev_terms::{Name, Names, NoMemory};
use std::alloc::Global;

fn case_of(con: Option<Name>, vars: Option<Names>, body: Option<Raw>) -> Option<RawCase>
    ensures { result ≡ option_map case_of (both con (both vars body)) }
{
    Some(RawCase {
        con: con?,
        vars: vars?,
        body: body?,
    })
}

/// Reads a case behind its word. Its formula is of the sort.
fn read_case(
    cursor: &mut Cursor<'_>,
    alloc: Global,
    sort: Sort,
) -> Result<Option<RawCase>, NoMemory>
    ensures { IfOk result (λ v. Took (BehindCase sort) EndsFormula case_deep cursor.old v cursor.new) }
{
    let con = cursor.name(alloc)?;
    let vars = names_in_parens(cursor, alloc)?;
    cursor.mark(IS_WORD);
    let body = cursor.formula(alloc, sort)?;
    Ok(case_of(con, vars, body))
}

/// Reads further cases behind some.
fn further_cases(
    cursor: &mut Cursor<'_>,
    alloc: Global,
    sort: Sort,
    first: Option<RawCases>,
) -> Result<Option<RawCases>, NoMemory>
    ensures { IfOk result (λ v. TookMore (Repeated (ReadsCase sort)) EndsCases (list_any case_deep) first cursor.old v cursor.new) }
{
    let mut cases = first;
    'further: while cursor.begins(CASE_WORD) {
        cursor.mark(CASE_WORD);
        let case = read_case(cursor, alloc, sort)?;
        cases = with(alloc, cases, case)?;
    }
    Ok(cases)
}

/// Reads cases, at least one.
fn read_cases(
    cursor: &mut Cursor<'_>,
    alloc: Global,
    sort: Sort,
) -> Result<Option<RawCases>, NoMemory>
    ensures { IfOk result (λ v. Took (AtLeastOne (ReadsCase sort)) EndsCases (list_any case_deep) cursor.old v cursor.new) }
{
    cursor.mark(CASE_WORD);
    let case = read_case(cursor, alloc, sort)?;
    let first = one(alloc, case)?;
    further_cases(cursor, alloc, sort, first)
}

fn direct(formula: Option<Raw>) -> Option<RawBody>
    ensures { result ≡ option_map direct formula }
{
    Some(RawBody::Direct(formula?))
}

fn recursive(name: Option<Name>, cases: Option<RawCases>) -> Option<RawBody>
    ensures { result ≡ option_map recursive (both name cases) }
{
    Some(RawBody::Recursive(name?, cases?))
}

/// Reads what an operator is, whose formulas are of the sort.
pub(crate) fn read_body(
    cursor: &mut Cursor<'_>,
    alloc: Global,
    sort: Sort,
) -> Result<Option<RawBody>, NoMemory>
    ensures { IfOk result (λ v. Took (ReadsBody sort) EndsCases body_deep cursor.old v cursor.new) }
{
    if cursor.begins(IS_WORD) {
        cursor.mark(IS_WORD);
        let formula = cursor.formula(alloc, sort)?;
        return Ok(direct(formula));
    }
    cursor.mark(BY_WORD);
    let name = cursor.name(alloc)?;
    let cases = read_cases(cursor, alloc, sort)?;
    Ok(recursive(name, cases))
}
