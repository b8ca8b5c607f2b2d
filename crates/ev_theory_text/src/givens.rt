//! Readers of the givens of inference rules.
ghost use Rattle.std.specs.Prelude.{IfOk};
ghost use Rattle.std.specs.List.{list_any};
ghost use Rattle.ev_syntax.specs.declared.sorts.Sort.TheVariants.{Pred};
ghost use Rattle.ev_syntax.specs.Parses.{ReadsAs};
ghost use Rattle.ev_syntax.specs.Marks.{comma};
ghost use Rattle.ev_parse.specs.Sequences.{Further, Separated};
ghost use Rattle.ev_theory_text.specs.Elements.{ReadsGivens};
ghost use Rattle.ev_parse.specs.Depths.{formula_deep};
ghost use Rattle.ev_theory_text.specs.inner.Following.{EndsGivens};
ghost use Rattle.ev_parse.specs.inner.Taking.{Took, TookMore};

use ev_parse::cursor::Cursor;
use ev_parse::lists::{one, with};
use ev_syntax::mark_names::{COMMA, GIVEN_WORD};
use ev_syntax::{Raws, Sort};
use ev_terms::{ListOf, NoMemory};
use std::alloc::Global;

/// Reads further predicates behind some, each after a comma.
fn further_predicates(
    cursor: &mut Cursor<'_>,
    alloc: Global,
    first: Option<Raws>,
) -> Result<Option<Raws>, NoMemory>
    ensures { IfOk result (λ v. TookMore (Further comma (ReadsAs Pred)) EndsGivens (list_any formula_deep) first cursor.old v cursor.new) }
{
    let mut predicates = first;
    'further: while cursor.begins(COMMA) {
        cursor.mark(COMMA);
        let predicate = cursor.formula(alloc, Sort::Pred)?;
        predicates = with(alloc, predicates, predicate)?;
    }
    Ok(predicates)
}

/// Reads predicates, at least one, with commas between them.
fn read_predicates(cursor: &mut Cursor<'_>, alloc: Global) -> Result<Option<Raws>, NoMemory>
    ensures { IfOk result (λ v. Took (Separated comma (ReadsAs Pred)) EndsGivens (list_any formula_deep) cursor.old v cursor.new) }
{
    let predicate = cursor.formula(alloc, Sort::Pred)?;
    let first = one(alloc, predicate)?;
    further_predicates(cursor, alloc, first)
}

/// Reads the givens of a rule behind `GIVEN`, or nothing.
pub(crate) fn read_givens(cursor: &mut Cursor<'_>, alloc: Global) -> Result<Option<Raws>, NoMemory>
    ensures { IfOk result (λ v. Took ReadsGivens EndsGivens (list_any formula_deep) cursor.old v cursor.new) }
{
    if !cursor.begins(GIVEN_WORD) {
        return Ok(Some(ListOf::new(alloc)));
    }
    cursor.mark(GIVEN_WORD);
    read_predicates(cursor, alloc)
}
