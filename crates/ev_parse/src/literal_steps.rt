//! What further frames of the reader of formulas do with a formula that was found.
ghost use Rattle.std.specs.Prelude.{◌≡◌, ◌≢◌, ◌<◌, ◌≤◌, ◌+◌, ◌*◌, ◌-◌, [], ◌∷◌, ◌++◌, ℕ, Bool, true, false, List, Option, Some, None, length, drop, nat_lt, nat_le, ◌&&◌, IfOk};
ghost use Rattle.ev_syntax.specs.declared.kinds.TokenKind.TheVariants.{Mark as AMark, Name as AName};
ghost use Rattle.ev_syntax.specs.Marks.{dot};
ghost use Rattle.ev_parse.specs.declared.states.Stage.TheVariants.{Pred};
ghost use Rattle.ev_syntax.specs.Raw.{Raw as RawTree, Binder as Bound, nesting};
ghost use Rattle.ev_syntax.specs.inner.RawView.{raw_of};
ghost use Rattle.ev_syntax.specs.inner.Finding.{Found};
ghost use Rattle.ev_syntax.specs.inner.TypeParser.{begins, expect};
ghost use Rattle.ev_syntax.specs.inner.Resuming.{Behind, Reach, FromCall};
ghost use Rattle.ev_syntax.specs.inner.TokenAt.{IsTokenAt, IsIndex};
ghost use Rattle.ev_syntax.specs.inner.Pieces.{IsPiece};
ghost use Rattle.ev_syntax.specs.Parts.{is_among};
ghost use Rattle.ev_syntax.specs.inner.FormulaParser.{words, calls};
ghost use Rattle.ev_parse.specs.inner.Forms.{IsRaw};
ghost use Rattle.ev_syntax.specs.inner.FormulaParser as parser;
ghost use Rattle.ev_syntax.specs.inner.Machines.{Falls, GoesOn, Resumes, StepHolds, weight_at};
ghost use Rattle.ev_parse.specs.inner.Frames.{stage_tail, related_behind, meaning};

use crate::marks::is_relation;
use crate::raw_pieces::{around_piece, binary_piece, is_name, quantified_piece};
use crate::states::{FormulaStep, Frame, Goal, RawPiece, Source, Stage, State};
use ev_syntax::TokenKind;
use ev_syntax::binders::Binders;
use ev_syntax::machines::Step;
use ev_syntax::mark_names::{AND_SIGN, CLOSE_PAREN, FINITE_WORD, IFF_SIGN, IMPLIES_SIGN, OR_WORD};
use ev_syntax::read_pieces::Piece;
use ev_syntax::reader::Reader;
use ev_terms::NoMemory;

/// Whether a connective stands at a place.
pub fn connects(reader: &Reader<'_>, at: usize) -> bool
    ensures { result ≡ parser.connects (drop at reader.now) }
{
    reader.is_mark(at, AND_SIGN)
        || reader.is_mark(at, OR_WORD)
        || reader.is_mark(at, IMPLIES_SIGN)
        || reader.is_mark(at, IFF_SIGN)
}

/// After an operand and an infix sign. Those of two levels do not associate.
pub(crate) fn after_sign(
    source: &Source<'_>,
    mark: u16,
    level: u8,
    left: RawPiece,
    k: u8,
    piece: RawPiece,
    at: usize,
) -> Result<FormulaStep, NoMemory>
    ensures holds { Resumes (meaning source.now.limit source.now.reader.now) (Frame.Right mark level left k) piece at result }
    ensures falls { Falls (meaning source.now.limit source.now.reader.now) (weight_at source.now.reader.now at 6) result }
{
    let piece = binary_piece(source.alloc, source.limit, mark, left, piece)?;
    if level == 4 || level >= 8 {
        return Ok(Step::Go(State::Operand(piece, at, level, k)));
    }
    Ok(Step::Go(State::Operand(piece, at, level + 1, k)))
}

/// After `(`, a predicate.
pub(crate) fn after_paren(
    source: &Source<'_>,
    stage: Stage,
    piece: RawPiece,
    at: usize,
) -> Result<FormulaStep, NoMemory>
    ensures holds { Resumes (meaning source.now.limit source.now.reader.now) (Frame.Inner stage) piece at result }
    ensures falls { Falls (meaning source.now.limit source.now.reader.now) (weight_at source.now.reader.now at 6) result }
{
    if source.reader.is_mark(at, CLOSE_PAREN) {
        return Ok(Step::Go(State::Literal(piece, at + 1, stage)));
    }
    Ok(Step::Fail)
}

/// After `finite(`.
pub(crate) fn after_finite(
    source: &Source<'_>,
    stage: Stage,
    piece: RawPiece,
    at: usize,
) -> Result<FormulaStep, NoMemory>
    ensures holds { Resumes (meaning source.now.limit source.now.reader.now) (Frame.Finite stage) piece at result }
    ensures falls { Falls (meaning source.now.limit source.now.reader.now) (weight_at source.now.reader.now at 6) result }
{
    if !source.reader.is_mark(at, CLOSE_PAREN) {
        return Ok(Step::Fail);
    }
    let piece = around_piece(source.alloc, source.limit, FINITE_WORD, piece)?;
    Ok(Step::Go(State::Literal(piece, at + 1, stage)))
}

/// After `!xs .` or `#xs .`.
pub(crate) fn after_quantifier(
    source: &Source<'_>,
    mark: u16,
    binders: Piece<Binders>,
    stage: Stage,
    piece: RawPiece,
    at: usize,
) -> Result<FormulaStep, NoMemory>
    ensures holds { Resumes (meaning source.now.limit source.now.reader.now) (Frame.Quantified mark binders stage) piece at result }
    ensures falls { Falls (meaning source.now.limit source.now.reader.now) (weight_at source.now.reader.now at 6) result }
{
    if connects(source.reader, at) {
        return Ok(Step::Fail);
    }
    let piece = quantified_piece(source.alloc, source.limit, mark, binders, piece)?;
    Ok(Step::Go(State::Literal(piece, at, stage)))
}

/// A name alone that is a predicate.
fn named(source: &Source<'_>, stage: Stage, piece: RawPiece, at: usize) -> FormulaStep
    ensures holds { (whole : ℕ → Option (Found RawTree)) → (bs : List (Behind RawTree)) → (r : RawTree) → IsRaw source.now.limit piece r → Reach whole (bs ++ stage_tail stage) (parser.call_only r (drop at source.now.reader.now)) → at ≤ length source.now.reader.now → StepHolds (meaning source.now.limit source.now.reader.now) whole bs result }
    ensures falls { Falls (meaning source.now.limit source.now.reader.now) (weight_at source.now.reader.now at 6) (Ok result) }
{
    if is_name(&piece) {
        Step::Go(State::Literal(piece, at, stage))
    } else {
        Step::Fail
    }
}

/// Goes on behind an expression before a mark: with a relation, or not.
fn related_mark(
    source: &Source<'_>,
    stage: Stage,
    piece: RawPiece,
    at: usize,
    mark: u16,
) -> FormulaStep
    requires inside { IsIndex source.now.reader.now at }
    requires token { IsTokenAt (Some (AMark mark)) source.now.reader.now at }
    ensures holds { GoesOn (meaning source.now.limit source.now.reader.now) (stage_tail stage ++ related_behind ∷ []) piece at (Ok result) }
    ensures falls { Falls (meaning source.now.limit source.now.reader.now) (weight_at source.now.reader.now at 6) (Ok result) }
{
    if is_relation(mark) {
        let inner = State::Call(Goal::Level(0), at + 1);
        return Step::Push(Frame::Relation(mark, piece, stage), inner);
    }
    named(source, stage, piece, at)
}

/// Before a relation, or a name that is a predicate.
pub(crate) fn after_expression(
    source: &Source<'_>,
    stage: Stage,
    piece: RawPiece,
    at: usize,
) -> FormulaStep
    ensures holds { GoesOn (meaning source.now.limit source.now.reader.now) (stage_tail stage ++ related_behind ∷ []) piece at (Ok result) }
    ensures falls { Falls (meaning source.now.limit source.now.reader.now) (weight_at source.now.reader.now at 6) (Ok result) }
{
    match source.reader.kind(at) {
        Some(TokenKind::Mark(mark)) => related_mark(source, stage, piece, at, mark),
        Some(TokenKind::Name) => named(source, stage, piece, at),
        Some(TokenKind::Number(_)) => named(source, stage, piece, at),
        None => named(source, stage, piece, at),
    }
}
