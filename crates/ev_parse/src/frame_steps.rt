//! What the frames of the reader of formulas do with a formula that was found.
ghost use Rattle.std.specs.Prelude.{◌≡◌, ◌≢◌, ◌<◌, ◌≤◌, ◌+◌, ◌*◌, ◌-◌, [], ◌∷◌, ◌++◌, ℕ, Bool, true, false, List, Option, Some, None, length, drop, nat_lt, nat_le, ◌&&◌, IfOk};
ghost use Rattle.ev_syntax.specs.declared.kinds.TokenKind.TheVariants.{Mark as AMark, Name as AName};
ghost use Rattle.ev_syntax.specs.Marks.{dot};
ghost use Rattle.ev_parse.specs.declared.states.Stage.TheVariants.{Pred};
ghost use Rattle.ev_syntax.specs.Raw.{Raw as RawTree, Binder as Bound, nesting};
ghost use Rattle.ev_syntax.specs.inner.RawView.{raw_of};
ghost use Rattle.ev_syntax.specs.inner.Finding.{Found};
ghost use Rattle.ev_syntax.specs.inner.TypeParser.{begins, expect};
ghost use Rattle.ev_syntax.specs.inner.Resuming.{Behind, Reach, FromCall};
ghost use Rattle.ev_syntax.specs.inner.TokenAt.{IsTokenAt, IsIndex};
ghost use Rattle.ev_syntax.specs.inner.Pieces.{IsPiece};
ghost use Rattle.ev_syntax.specs.Parts.{is_among};
ghost use Rattle.ev_syntax.specs.inner.FormulaParser.{words, calls};
ghost use Rattle.ev_parse.specs.inner.Forms.{IsRaw};
ghost use Rattle.ev_syntax.specs.inner.Machines.{Falls, Resumes, weight_at};
ghost use Rattle.ev_parse.specs.inner.Frames.{meaning};

use crate::expression_reader::close;
use crate::raw_pieces::{
    apply_piece, around_piece, binary_piece, image_piece, lambda_piece, set_piece, unary_piece,
};
use crate::states::{FormulaStep, Frame, Goal, RawPiece, Source, Stage, State};
use ev_syntax::binders::{Binder, Binders};
use ev_syntax::machines::Step;
use ev_syntax::mark_names::{BAR, CLOSE_BRACE, CLOSE_BRACKET, CLOSE_PAREN, MINUS_SIGN, NOT_WORD};
use ev_syntax::pattern_states::PatternPiece;
use ev_syntax::read_pieces::Piece;
use ev_terms::NoMemory;

/// After a reserved word and `(`.
pub(crate) fn after_word(
    source: &Source<'_>,
    mark: u16,
    k: u8,
    piece: RawPiece,
    at: usize,
) -> Result<FormulaStep, NoMemory>
    ensures holds { Resumes (meaning source.now.limit source.now.reader.now) (Frame.Around mark k) piece at result }
    ensures falls { Falls (meaning source.now.limit source.now.reader.now) (weight_at source.now.reader.now at 6) result }
{
    let piece = around_piece(source.alloc, source.limit, mark, piece)?;
    close(source.reader, source.limit, piece, k, at, CLOSE_PAREN)
}

/// After `{x |`.
pub(crate) fn after_set(
    source: &Source<'_>,
    binder: Piece<Binder>,
    k: u8,
    piece: RawPiece,
    at: usize,
) -> Result<FormulaStep, NoMemory>
    ensures holds { Resumes (meaning source.now.limit source.now.reader.now) (Frame.SetBody binder k) piece at result }
    ensures falls { Falls (meaning source.now.limit source.now.reader.now) (weight_at source.now.reader.now at 6) result }
{
    let piece = set_piece(source.alloc, source.limit, binder, piece)?;
    close(source.reader, source.limit, piece, k, at, CLOSE_BRACE)
}

/// After `E(`.
pub(crate) fn after_argument(
    source: &Source<'_>,
    function: RawPiece,
    k: u8,
    piece: RawPiece,
    at: usize,
) -> Result<FormulaStep, NoMemory>
    ensures holds { Resumes (meaning source.now.limit source.now.reader.now) (Frame.Argument function k) piece at result }
    ensures falls { Falls (meaning source.now.limit source.now.reader.now) (weight_at source.now.reader.now at 6) result }
{
    if !source.reader.is_mark(at, CLOSE_PAREN) {
        return Ok(Step::Fail);
    }
    let piece = apply_piece(source.alloc, source.limit, function, piece)?;
    Ok(Step::Go(State::Primary(piece, at + 1, k)))
}

/// After `E[`.
pub(crate) fn after_image(
    source: &Source<'_>,
    relation: RawPiece,
    k: u8,
    piece: RawPiece,
    at: usize,
) -> Result<FormulaStep, NoMemory>
    ensures holds { Resumes (meaning source.now.limit source.now.reader.now) (Frame.Image relation k) piece at result }
    ensures falls { Falls (meaning source.now.limit source.now.reader.now) (weight_at source.now.reader.now at 6) result }
{
    if !source.reader.is_mark(at, CLOSE_BRACKET) {
        return Ok(Step::Fail);
    }
    let piece = image_piece(source.alloc, source.limit, relation, piece)?;
    Ok(Step::Go(State::Primary(piece, at + 1, k)))
}

/// After `-`.
pub(crate) fn after_minus(
    source: &Source<'_>,
    k: u8,
    piece: RawPiece,
    at: usize,
) -> Result<FormulaStep, NoMemory>
    ensures holds { Resumes (meaning source.now.limit source.now.reader.now) (Frame.Minus k) piece at result }
    ensures falls { Falls (meaning source.now.limit source.now.reader.now) (weight_at source.now.reader.now at 6) result }
{
    let piece = unary_piece(source.alloc, source.limit, MINUS_SIGN, piece)?;
    Ok(Step::Go(State::Operand(piece, at, 7, k)))
}

/// After `%p .`.
pub(crate) fn after_lambda(
    source: &Source<'_>,
    pattern: PatternPiece,
    piece: RawPiece,
    at: usize,
) -> Result<FormulaStep, NoMemory>
    ensures holds { Resumes (meaning source.now.limit source.now.reader.now) (Frame.LambdaBody pattern) piece at result }
    ensures falls { Falls (meaning source.now.limit source.now.reader.now) (weight_at source.now.reader.now at 6) result }
{
    if source.reader.is_mark(at, BAR) {
        let inner = State::Call(Goal::Level(0), at + 1);
        return Ok(Step::Push(Frame::LambdaValue(pattern, piece), inner));
    }
    Ok(Step::Fail)
}

/// After `%p . P |`.
pub(crate) fn after_value(
    source: &Source<'_>,
    pattern: PatternPiece,
    body: RawPiece,
    piece: RawPiece,
    at: usize,
) -> Result<FormulaStep, NoMemory>
    ensures holds { Resumes (meaning source.now.limit source.now.reader.now) (Frame.LambdaValue pattern body) piece at result }
    ensures falls { Falls (meaning source.now.limit source.now.reader.now) (weight_at source.now.reader.now at 6) result }
{
    let piece = lambda_piece(source.alloc, source.limit, pattern, body, piece)?;
    Ok(Step::Found(piece, at))
}

/// After `{xs .`, `UNION xs .` or `INTER xs .`.
pub(crate) fn after_dot(
    source: &Source<'_>,
    mark: u16,
    binders: Piece<Binders>,
    k: u8,
    piece: RawPiece,
    at: usize,
) -> Result<FormulaStep, NoMemory>
    ensures holds { Resumes (meaning source.now.limit source.now.reader.now) (Frame.Body mark binders k) piece at result }
    ensures falls { Falls (meaning source.now.limit source.now.reader.now) (weight_at source.now.reader.now at 6) result }
{
    if source.reader.is_mark(at, BAR) {
        let inner = State::Call(Goal::Level(0), at + 1);
        return Ok(Step::Push(Frame::Value(mark, binders, piece, k), inner));
    }
    Ok(Step::Fail)
}

/// After `not`.
pub(crate) fn after_not(
    source: &Source<'_>,
    stage: Stage,
    piece: RawPiece,
    at: usize,
) -> Result<FormulaStep, NoMemory>
    ensures holds { Resumes (meaning source.now.limit source.now.reader.now) (Frame.Not stage) piece at result }
    ensures falls { Falls (meaning source.now.limit source.now.reader.now) (weight_at source.now.reader.now at 6) result }
{
    let piece = unary_piece(source.alloc, source.limit, NOT_WORD, piece)?;
    Ok(Step::Go(State::Literal(piece, at, stage)))
}

/// After an expression and the sign of a relation.
pub(crate) fn after_relation(
    source: &Source<'_>,
    mark: u16,
    left: RawPiece,
    stage: Stage,
    piece: RawPiece,
    at: usize,
) -> Result<FormulaStep, NoMemory>
    ensures holds { Resumes (meaning source.now.limit source.now.reader.now) (Frame.Relation mark left stage) piece at result }
    ensures falls { Falls (meaning source.now.limit source.now.reader.now) (weight_at source.now.reader.now at 6) result }
{
    let piece = binary_piece(source.alloc, source.limit, mark, left, piece)?;
    Ok(Step::Go(State::Literal(piece, at, stage)))
}

/// After a literal and `&` or `or`.
pub(crate) fn after_connective(
    source: &Source<'_>,
    mark: u16,
    left: RawPiece,
    stage: Stage,
    piece: RawPiece,
    at: usize,
) -> Result<FormulaStep, NoMemory>
    ensures holds { Resumes (meaning source.now.limit source.now.reader.now) (Frame.Connective mark left stage) piece at result }
    ensures falls { Falls (meaning source.now.limit source.now.reader.now) (weight_at source.now.reader.now at 6) result }
{
    let piece = binary_piece(source.alloc, source.limit, mark, left, piece)?;
    Ok(Step::Go(State::Chain(mark, piece, at, stage)))
}

/// After a predicate and `=>` or `<=>`.
pub(crate) fn after_implication(
    source: &Source<'_>,
    mark: u16,
    left: RawPiece,
    piece: RawPiece,
    at: usize,
) -> Result<FormulaStep, NoMemory>
    ensures holds { Resumes (meaning source.now.limit source.now.reader.now) (Frame.Implication mark left) piece at result }
    ensures falls { Falls (meaning source.now.limit source.now.reader.now) (weight_at source.now.reader.now at 6) result }
{
    let piece = binary_piece(source.alloc, source.limit, mark, left, piece)?;
    Ok(Step::Found(piece, at))
}
