//! The machine that reads formulas.
ghost use Rattle.std.specs.Prelude.{◌≡◌, ◌≤◌, ◌+◌, length, IfOk};
ghost use Rattle.ev_parse.specs.inner.Closings.{IsTable, table_prop};
ghost use Rattle.ev_syntax.specs.inner.Machines.{Falls, Goes, Resumes, weight_at};
ghost use Rattle.ev_parse.specs.inner.Frames.{IsGoal, meaning, state_weight};
ghost use Rattle.ev_parse.specs.inner.FormulaAnswers.{GoalAnswer};

use crate::expression_reader::{call_level, close};
use crate::frame_steps::{
    after_argument, after_connective, after_dot, after_image, after_implication, after_lambda,
    after_minus, after_not, after_relation, after_set, after_value, after_word,
};
use crate::list_steps::{after_args, after_collected, after_members};
use crate::literal_steps::{
    after_expression, after_finite, after_paren, after_quantifier, after_sign,
};
use crate::operand_reader::{operand, primary};
use crate::predicate_reader::{call_stage, chain, conjunct, literal};
use crate::states::{FormulaStep, Frame, Goal, RawPiece, Source, State};
use ev_syntax::machines::{Machine, run};
use ev_syntax::mark_names::CLOSE_PAREN;
use ev_syntax::reader::Reader;
use ev_terms::NoMemory;
use std::alloc::Global;

/// Reads a formula of a goal.
fn call(
    source: &Source<'_>,
    table: &[Option<usize>],
    goal: Goal,
    at: usize,
) -> Result<FormulaStep, NoMemory>
    requires table { IsTable source.now.reader.now table.now }
    requires full { length table.now ≡ length source.now.reader.now + 1 }
    ensures holds { Goes (meaning source.now.limit source.now.reader.now) (State.Call goal at) result }
    ensures falls { Falls (meaning source.now.limit source.now.reader.now) (state_weight source.now.reader.now (State.Call goal at)) result }
{
    let (reader, alloc, limit) = (source.reader, source.alloc, source.limit);
    match goal {
        Goal::Level(k) => call_level(reader, alloc, limit, k, at),
        Goal::Stage(stage) => call_stage(reader, alloc, limit, table, stage, at),
    }
}

/// Does what a frame holds with the formula that was found.
fn resume(
    source: &Source<'_>,
    frame: Frame,
    piece: RawPiece,
    at: usize,
) -> Result<FormulaStep, NoMemory>
    ensures holds { Resumes (meaning source.now.limit source.now.reader.now) frame piece at result }
    ensures falls { Falls (meaning source.now.limit source.now.reader.now) (weight_at source.now.reader.now at 6) result }
{
    match frame {
        Frame::Paren(k) => close(source.reader, source.limit, piece, k, at, CLOSE_PAREN),
        Frame::Around(mark, k) => after_word(source, mark, k, piece, at),
        Frame::Args(name, args, k) => after_args(source, name, args, k, piece, at),
        Frame::Members(members, k) => after_members(source, members, k, piece, at),
        Frame::SetBody(binder, k) => after_set(source, binder, k, piece, at),
        Frame::Argument(f, k) => after_argument(source, f, k, piece, at),
        Frame::Image(f, k) => after_image(source, f, k, piece, at),
        Frame::Right(mark, l, a, k) => after_sign(source, mark, l, a, k, piece, at),
        Frame::Minus(k) => after_minus(source, k, piece, at),
        Frame::Body(mark, xs, k) => after_dot(source, mark, xs, k, piece, at),
        Frame::Value(mark, xs, p, k) => { after_collected(source, mark, xs, p, k, piece, at) }
        Frame::LambdaBody(x) => after_lambda(source, x, piece, at),
        Frame::LambdaValue(x, p) => after_value(source, x, p, piece, at),
        Frame::Not(s) => after_not(source, s, piece, at),
        Frame::Quantified(mark, xs, s) => { after_quantifier(source, mark, xs, s, piece, at) }
        Frame::Finite(s) => after_finite(source, s, piece, at),
        Frame::Inner(s) => after_paren(source, s, piece, at),
        Frame::Related(s) => Ok(after_expression(source, s, piece, at)),
        Frame::Relation(mark, a, s) => after_relation(source, mark, a, s, piece, at),
        Frame::Connective(mark, a, s) => { after_connective(source, mark, a, s, piece, at) }
        Frame::Implication(mark, a) => { after_implication(source, mark, a, piece, at) }
    }
}

/// The machine that reads formulas of a text, with the table of its closing parentheses.
#[derive(Drop)]
struct FormulaMachine<'a> {
    source: Source<'a>,
    table: &'a [Option<usize>],
    ghost closings: { IsTable source.reader.now table.now } by { table_prop source.reader.now table.now },
    ghost full: { length table.now ≡ length source.reader.now + 1 },
}

impl<'a> Machine for FormulaMachine<'a> {
    type Frame = Frame;

    type State = State;

    type Piece = RawPiece;

    ghost use Rattle.ev_syntax.specs.Raw.{Raw as RawTree};
    ghost use Rattle.ev_parse.specs.inner.Frames.{meaning};

    ghost Tree = { RawTree };

    ghost meaning = { λ m. meaning m.source.limit m.source.reader.now };

    fn step(&self, state: State) -> Result<FormulaStep, NoMemory> {
        let source = &self.source;
        let (reader, limit) = (source.reader, source.limit);
        match state {
            State::Call(goal, at) => call(source, self.table, goal, at),
            State::Primary(piece, at, k) => primary(source, piece, at, k),
            State::Operand(piece, at, j, k) => operand(source, piece, at, j, k),
            State::Literal(piece, at, s) => Ok(literal(reader, limit, piece, at, s)),
            State::Chain(mark, piece, at, s) => Ok(chain(reader, limit, mark, piece, at, s)),
            State::Conjunct(piece, at, s) => Ok(conjunct(reader, limit, piece, at, s)),
        }
    }

    fn resume(&self, frame: Frame, piece: RawPiece, at: usize) -> Result<FormulaStep, NoMemory> {
        resume(&self.source, frame, piece, at)
    }
}

/// Reads a formula of a goal: the formula and the place behind it.
pub(crate) fn read_goal(
    reader: &Reader<'_>,
    alloc: Global,
    limit: u32,
    table: &[Option<usize>],
    goal: Goal,
    at: usize,
) -> Result<Option<(RawPiece, usize)>, NoMemory>
    requires table { IsTable reader.now table.now }
    requires full { length table.now ≡ length reader.now + 1 }
    requires inside { at ≤ length reader.now }
    requires level { IsGoal goal }
    ensures { IfOk result (GoalAnswer goal limit reader.now at) }
{
    let source = Source {
        reader,
        alloc,
        limit,
    };
    let machine = FormulaMachine { source, table };
    run(&machine, alloc, State::Call(goal, at))
}
