//! Readers of constructors.
ghost use Rattle.std.specs.Prelude.{◌≡◌, IfOk, option_map};
ghost use Rattle.ev_syntax.specs.Marks.{bar};
ghost use Rattle.ev_parse.specs.Sequences.{Further};
ghost use Rattle.ev_theory_text.specs.Elements.{ReadsCon, ReadsCons};
ghost use Rattle.ev_theory_text.specs.Depths.{con_deep, cons_deep};
ghost use Rattle.ev_theory_text.specs.inner.Following.{NoParen, EndsCons};
ghost use Rattle.ev_parse.specs.inner.Taking.{Took, TookMore, both};
ghost use Rattle.ev_theory_text.specs.inner.Making.{con};

use crate::args::args_in_parens;
use crate::forms::{RawArgs, RawCon, RawCons};
use ev_parse::cursor::Cursor;
use ev_parse::lists::{one, with};
use ev_syntax::mark_names::BAR;
use ev_terms::{Name, NoMemory};
use std::alloc::Global;

fn con_of(name: Option<Name>, args: Option<RawArgs>) -> Option<RawCon>
    ensures { result ≡ option_map con (both name args) }
{
    Some(RawCon {
        name: name?,
        args: args?,
    })
}

/// Reads a constructor with its destructors, where some stand there.
fn read_con(cursor: &mut Cursor<'_>, alloc: Global) -> Result<Option<RawCon>, NoMemory>
    ensures { IfOk result (λ v. Took ReadsCon NoParen con_deep cursor.old v cursor.new) }
{
    let name = cursor.name(alloc)?;
    let args = args_in_parens(cursor, alloc)?;
    Ok(con_of(name, args))
}

/// Reads further constructors behind some, each after a bar.
fn further_cons(
    cursor: &mut Cursor<'_>,
    alloc: Global,
    first: Option<RawCons>,
) -> Result<Option<RawCons>, NoMemory>
    ensures { IfOk result (λ v. TookMore (Further bar ReadsCon) EndsCons cons_deep first cursor.old v cursor.new) }
{
    let mut cons = first;
    'further: while cursor.begins(BAR) {
        cursor.mark(BAR);
        let con = read_con(cursor, alloc)?;
        cons = with(alloc, cons, con)?;
    }
    Ok(cons)
}

/// Reads constructors, at least one, with bars between them.
pub(crate) fn read_cons(cursor: &mut Cursor<'_>, alloc: Global) -> Result<Option<RawCons>, NoMemory>
    ensures { IfOk result (λ v. Took ReadsCons EndsCons cons_deep cursor.old v cursor.new) }
{
    let con = read_con(cursor, alloc)?;
    let first = one(alloc, con)?;
    further_cons(cursor, alloc, first)
}
