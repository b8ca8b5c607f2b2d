//! Readers of the right sides of rewrite rules.
ghost use Rattle.std.specs.Prelude.{◌≡◌, Some, IfOk, option_map};
ghost use Rattle.std.specs.List.{list_any};
ghost use Rattle.ev_parse.specs.Sequences.{Repeated, AtLeastOne, MaybeMark};
ghost use Rattle.ev_theory_text.specs.Elements.{ReadsBranch};
ghost use Rattle.ev_theory_text.specs.Depths.{branch_deep};
ghost use Rattle.ev_theory_text.specs.inner.Following.{EndsBranches, begins_branch};
ghost use Rattle.ev_parse.specs.inner.Taking.{Took, TookMore, EndsFormula, NotBefore, next, never, both};
ghost use Rattle.ev_theory_text.specs.inner.Making.{branch};

use crate::forms::{RawBranch, RawBranches};
use crate::heads::read_condition;
use ev_parse::cursor::Cursor;
use ev_parse::lists::{one, with};
use ev_syntax::mark_names::{THEN_WORD, WHEN_WORD};
use ev_syntax::{Raw, Sort};
use ev_terms::NoMemory;
use std::alloc::Global;

fn branch_of(condition: Option<Option<Raw>>, right: Option<Raw>) -> Option<RawBranch>
    ensures { result ≡ option_map branch (both condition right) }
{
    Some(RawBranch {
        condition: condition?,
        right: right?,
    })
}

/// Reads a right side, with its condition where one stands there.
fn read_branch(cursor: &mut Cursor<'_>, alloc: Global) -> Result<Option<RawBranch>, NoMemory>
    ensures { IfOk result (λ v. Took ReadsBranch EndsFormula branch_deep cursor.old v cursor.new) }
{
    let condition = read_condition(cursor, alloc, WHEN_WORD)?;
    cursor.mark(THEN_WORD);
    let right = cursor.formula(alloc, Sort::Either)?;
    Ok(branch_of(condition, right))
}

/// Whether a right side comes next.
fn begins_branch(cursor: &Cursor<'_>) -> bool
    ensures { result ≡ next begins_branch cursor.now }
{
    cursor.begins(WHEN_WORD) || cursor.begins(THEN_WORD)
}

/// Reads further right sides behind some.
fn further_branches(
    cursor: &mut Cursor<'_>,
    alloc: Global,
    first: Option<RawBranches>,
) -> Result<Option<RawBranches>, NoMemory>
    ensures { IfOk result (λ v. TookMore (Repeated ReadsBranch) EndsBranches (list_any branch_deep) first cursor.old v cursor.new) }
{
    let mut branches = first;
    'further: while begins_branch(cursor) {
        let branch = read_branch(cursor, alloc)?;
        branches = with(alloc, branches, branch)?;
    }
    Ok(branches)
}

/// Reads right sides, at least one.
pub(crate) fn read_branches(
    cursor: &mut Cursor<'_>,
    alloc: Global,
) -> Result<Option<RawBranches>, NoMemory>
    ensures { IfOk result (λ v. Took (AtLeastOne ReadsBranch) EndsBranches (list_any branch_deep) cursor.old v cursor.new) }
{
    let branch = read_branch(cursor, alloc)?;
    let first = one(alloc, branch)?;
    further_branches(cursor, alloc, first)
}

/// Whether the mark comes next. If so it is read.
pub(crate) fn maybe_mark(cursor: &mut Cursor<'_>, mark: u16) -> bool
    ensures { Took (MaybeMark mark) (NotBefore mark) never cursor.old (Some result) cursor.new }
{
    if !cursor.begins(mark) {
        return false;
    }
    cursor.mark(mark);
    true
}
