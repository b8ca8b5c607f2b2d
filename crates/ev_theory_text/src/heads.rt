//! Readers of heads and of conditions.
ghost use Rattle.std.specs.Prelude.{◌≡◌, Some, IfOk, option_map};
ghost use Rattle.ev_parse.specs.Sequences.{Maybe};
ghost use Rattle.ev_theory_text.specs.Elements.{ReadsResult, ReadsHead, Clause, head_sort};
ghost use Rattle.ev_theory_text.specs.Depths.{result_deep, head_deep, maybe_deep};
ghost use Rattle.ev_theory_text.specs.inner.Following.{EndsClause, sort_behind};
ghost use Rattle.ev_parse.specs.inner.Taking.{Took, Tagged, EndsType, both};
ghost use Rattle.ev_theory_text.specs.inner.Making.{head, typed};

use crate::args::args_in_parens;
use crate::forms::{RawArgs, RawHead, RawResult};
use ev_parse::cursor::Cursor;
use ev_syntax::mark_names::{IN_SIGN, PRED_WORD};
use ev_syntax::{Raw, RawType, Sort};
use ev_terms::{Name, NoMemory};
use std::alloc::Global;

fn typed(written: Option<RawType>) -> Option<RawResult>
    ensures { result ≡ option_map typed written }
{
    Some(RawResult::Typed(written?))
}

/// Reads `PRED`, or a type.
fn read_result(cursor: &mut Cursor<'_>, alloc: Global) -> Result<Option<RawResult>, NoMemory>
    ensures { IfOk result (λ v. Took ReadsResult EndsType result_deep cursor.old v cursor.new) }
{
    if cursor.begins(PRED_WORD) {
        cursor.mark(PRED_WORD);
        return Ok(Some(RawResult::Predicate));
    }
    let written = cursor.written(alloc)?;
    Ok(typed(written))
}

fn head_of(name: Option<Name>, args: Option<RawArgs>, gives: Option<RawResult>) -> Option<RawHead>
    ensures { result ≡ option_map head (both name (both args gives)) }
{
    Some(RawHead {
        name: name?,
        args: args?,
        gives: gives?,
    })
}

/// The sort of the formulas behind a head whose result comes next: predicates exactly where it is `PRED`.
fn sort_behind(cursor: &Cursor<'_>) -> Sort
    ensures { result ≡ sort_behind cursor.now }
{
    if cursor.begins(PRED_WORD) {
        Sort::Pred
    } else {
        Sort::Expr
    }
}

/// Reads the head of an operator or of a constant, and tells the sort of the formulas behind it.
pub(crate) fn read_head(
    cursor: &mut Cursor<'_>,
    alloc: Global,
) -> Result<(Option<RawHead>, Sort), NoMemory>
    ensures took { IfOk result (λ r. Took ReadsHead EndsType head_deep cursor.old r.0 cursor.new) }
    ensures sort { IfOk result (λ r. Tagged head_sort ReadsHead cursor.old r.1) }
{
    let name = cursor.name(alloc)?;
    let args = args_in_parens(cursor, alloc)?;
    cursor.mark(IN_SIGN);
    let sort = sort_behind(cursor);
    let gives = read_result(cursor, alloc)?;
    Ok((head_of(name, args, gives), sort))
}

fn condition_of(formula: Option<Raw>) -> Option<Option<Raw>>
    ensures { result ≡ option_map (λ p. Some p) formula }
{
    Some(Some(formula?))
}

/// Reads a predicate behind a word, or nothing where that word does not come next.
pub(crate) fn read_condition(
    cursor: &mut Cursor<'_>,
    alloc: Global,
    word: u16,
) -> Result<Option<Option<Raw>>, NoMemory>
    ensures { IfOk result (λ v. Took (Maybe (Clause word)) (EndsClause word) maybe_deep cursor.old v cursor.new) }
{
    if !cursor.begins(word) {
        return Ok(Some(None));
    }
    cursor.mark(word);
    let formula = cursor.formula(alloc, Sort::Pred)?;
    Ok(condition_of(formula))
}
