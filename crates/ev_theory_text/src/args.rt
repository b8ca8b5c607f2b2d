//! Readers of names with types.
ghost use Rattle.std.specs.Prelude.{◌≡◌, IfOk, option_map};
ghost use Rattle.ev_syntax.specs.Marks.{comma};
ghost use Rattle.ev_parse.specs.Sequences.{Further};
ghost use Rattle.ev_theory_text.specs.Elements.{ReadsArg, ReadsArgs, InParens, ReadsVars};
ghost use Rattle.ev_theory_text.specs.Depths.{arg_deep, args_deep};
ghost use Rattle.ev_theory_text.specs.inner.Following.{EndsArgs, NoParen, EndsVars};
ghost use Rattle.ev_parse.specs.inner.Taking.{Took, TookMore, EndsType, both};
ghost use Rattle.ev_theory_text.specs.inner.Making.{arg};

use crate::forms::{RawArg, RawArgs};
use ev_parse::cursor::Cursor;
use ev_parse::lists::{one, with};
use ev_syntax::RawType;
use ev_syntax::mark_names::{CLOSE_PAREN, COMMA, FOR_WORD, IN_SIGN, OPEN_PAREN};
use ev_terms::{ListOf, Name, NoMemory};
use std::alloc::Global;

fn arg_of(name: Option<Name>, written: Option<RawType>) -> Option<RawArg>
    ensures { result ≡ option_map arg (both name written) }
{
    Some(RawArg {
        name: name?,
        written: written?,
    })
}

/// Reads `name : type`.
fn read_arg(cursor: &mut Cursor<'_>, alloc: Global) -> Result<Option<RawArg>, NoMemory>
    ensures { IfOk result (λ v. Took ReadsArg EndsType arg_deep cursor.old v cursor.new) }
{
    let name = cursor.name(alloc)?;
    cursor.mark(IN_SIGN);
    let written = cursor.written(alloc)?;
    Ok(arg_of(name, written))
}

/// Reads further names with types behind some, each after a comma.
fn further_args(
    cursor: &mut Cursor<'_>,
    alloc: Global,
    first: Option<RawArgs>,
) -> Result<Option<RawArgs>, NoMemory>
    ensures { IfOk result (λ v. TookMore (Further comma ReadsArg) EndsArgs args_deep first cursor.old v cursor.new) }
{
    let mut args = first;
    'further: while cursor.begins(COMMA) {
        cursor.mark(COMMA);
        let arg = read_arg(cursor, alloc)?;
        args = with(alloc, args, arg)?;
    }
    Ok(args)
}

/// Reads names with types, at least one, with commas between them.
fn read_args(cursor: &mut Cursor<'_>, alloc: Global) -> Result<Option<RawArgs>, NoMemory>
    ensures { IfOk result (λ v. Took ReadsArgs EndsArgs args_deep cursor.old v cursor.new) }
{
    let arg = read_arg(cursor, alloc)?;
    let first = one(alloc, arg)?;
    further_args(cursor, alloc, first)
}

/// Reads names with types in parentheses, or nothing.
pub(crate) fn args_in_parens(
    cursor: &mut Cursor<'_>,
    alloc: Global,
) -> Result<Option<RawArgs>, NoMemory>
    ensures { IfOk result (λ v. Took (InParens ReadsArg) NoParen args_deep cursor.old v cursor.new) }
{
    if !cursor.begins(OPEN_PAREN) {
        return Ok(Some(ListOf::new(alloc)));
    }
    cursor.mark(OPEN_PAREN);
    let args = read_args(cursor, alloc)?;
    cursor.mark(CLOSE_PAREN);
    Ok(args)
}

/// Reads the variables of a rule behind `FOR`, or nothing.
pub(crate) fn read_vars(cursor: &mut Cursor<'_>, alloc: Global) -> Result<Option<RawArgs>, NoMemory>
    ensures { IfOk result (λ v. Took ReadsVars EndsVars args_deep cursor.old v cursor.new) }
{
    if !cursor.begins(FOR_WORD) {
        return Ok(Some(ListOf::new(alloc)));
    }
    cursor.mark(FOR_WORD);
    read_args(cursor, alloc)
}
