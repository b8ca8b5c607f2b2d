//! Readers of lists of names.
ghost use Rattle.std.specs.Prelude.{IfOk};
ghost use Rattle.std.specs.List.{list_any};
ghost use Rattle.ev_syntax.specs.Marks.{comma};
ghost use Rattle.ev_parse.specs.Sequences.{Further, Word};
ghost use Rattle.ev_theory_text.specs.Elements.{ReadsNames, InParens};
ghost use Rattle.ev_theory_text.specs.inner.Following.{NoParen};
ghost use Rattle.ev_parse.specs.inner.Taking.{Took, TookMore, NotBefore, never};

use ev_parse::cursor::Cursor;
use ev_parse::lists::{one, with};
use ev_syntax::mark_names::{CLOSE_PAREN, COMMA, OPEN_PAREN};
use ev_terms::{ListOf, Names, NoMemory};
use std::alloc::Global;

/// Reads further names behind some, each after a comma.
fn further_names(
    cursor: &mut Cursor<'_>,
    alloc: Global,
    first: Option<Names>,
) -> Result<Option<Names>, NoMemory>
    ensures { IfOk result (λ v. TookMore (Further comma Word) (NotBefore comma) (list_any never) first cursor.old v cursor.new) }
{
    let mut names = first;
    'further: while cursor.begins(COMMA) {
        cursor.mark(COMMA);
        let name = cursor.name(alloc)?;
        names = with(alloc, names, name)?;
    }
    Ok(names)
}

/// Reads names, at least one, with commas between them.
pub(crate) fn read_names(cursor: &mut Cursor<'_>, alloc: Global) -> Result<Option<Names>, NoMemory>
    ensures { IfOk result (λ v. Took ReadsNames (NotBefore comma) (list_any never) cursor.old v cursor.new) }
{
    let name = cursor.name(alloc)?;
    let first = one(alloc, name)?;
    further_names(cursor, alloc, first)
}

/// Reads names in parentheses, or nothing.
pub(crate) fn names_in_parens(
    cursor: &mut Cursor<'_>,
    alloc: Global,
) -> Result<Option<Names>, NoMemory>
    ensures { IfOk result (λ v. Took (InParens Word) NoParen (list_any never) cursor.old v cursor.new) }
{
    if !cursor.begins(OPEN_PAREN) {
        return Ok(Some(ListOf::new(alloc)));
    }
    cursor.mark(OPEN_PAREN);
    let names = read_names(cursor, alloc)?;
    cursor.mark(CLOSE_PAREN);
    Ok(names)
}
