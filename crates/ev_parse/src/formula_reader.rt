//! The reader of formulas.
ghost use Rattle.std.specs.Prelude.{◌≡◌, ◌≤◌, ◌+◌, length, IfOk};
ghost use Rattle.ev_parse.specs.inner.Closings.{IsTable};
ghost use Rattle.ev_parse.specs.inner.FormulaAnswers.{PredicateAnswer, ExpressionAnswer};

use crate::machine::read_goal;
use crate::states::{Goal, RawPiece, Stage};
use ev_syntax::Reader;
use ev_terms::NoMemory;
use std::alloc::Global;

/// Reads a predicate at a place: the predicate and the place behind it. The table tells where parentheses close (`closings`).
pub fn read_predicate(
    reader: &Reader<'_>,
    alloc: Global,
    limit: u32,
    table: &[Option<usize>],
    at: usize,
) -> Result<Option<(RawPiece, usize)>, NoMemory>
    requires table { IsTable reader.now table.now }
    requires full { length table.now ≡ length reader.now + 1 }
    requires inside { at ≤ length reader.now }
    ensures { IfOk result (PredicateAnswer limit reader.now at) }
{
    read_goal(reader, alloc, limit, table, Goal::Stage(Stage::Pred), at)
}

/// Reads an expression at a place: the expression and the place behind it. The table tells where parentheses close (`closings`).
pub fn read_expression(
    reader: &Reader<'_>,
    alloc: Global,
    limit: u32,
    table: &[Option<usize>],
    at: usize,
) -> Result<Option<(RawPiece, usize)>, NoMemory>
    requires table { IsTable reader.now table.now }
    requires full { length table.now ≡ length reader.now + 1 }
    requires inside { at ≤ length reader.now }
    ensures { IfOk result (ExpressionAnswer limit reader.now at) }
{
    read_goal(reader, alloc, limit, table, Goal::Level(0), at)
}
