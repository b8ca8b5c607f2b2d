//! The reader of expressions: what comes behind a primary and behind an operand.
ghost use Rattle.std.specs.Prelude.{◌≡◌, ◌≢◌, ◌<◌, ◌≤◌, ◌+◌, ◌*◌, ◌-◌, [], ◌∷◌, ◌++◌, ℕ, Bool, true, false, List, Option, Some, None, length, drop, nat_lt, nat_le, ◌&&◌, IfOk};
ghost use Rattle.ev_syntax.specs.declared.kinds.TokenKind.TheVariants.{Mark as AMark, Name as AName};
ghost use Rattle.ev_syntax.specs.Marks.{dot};
ghost use Rattle.ev_parse.specs.declared.states.Stage.TheVariants.{Pred};
ghost use Rattle.ev_syntax.specs.Raw.{Raw as RawTree, Binder as Bound, nesting};
ghost use Rattle.ev_syntax.specs.inner.RawView.{raw_of};
ghost use Rattle.ev_syntax.specs.inner.Finding.{Found};
ghost use Rattle.ev_syntax.specs.inner.TypeParser.{begins, expect};
ghost use Rattle.ev_syntax.specs.inner.Resuming.{Behind, Reach, FromCall};
ghost use Rattle.ev_syntax.specs.inner.TokenAt.{IsTokenAt, IsIndex};
ghost use Rattle.ev_syntax.specs.inner.Pieces.{IsPiece};
ghost use Rattle.ev_syntax.specs.Parts.{is_among};
ghost use Rattle.ev_syntax.specs.inner.FormulaParser.{words, calls};
ghost use Rattle.ev_parse.specs.inner.Forms.{IsRaw};
ghost use Rattle.ev_parse.specs.inner.Levels.{operator_level};
ghost use Rattle.ev_syntax.specs.inner.Machines.{Falls, GoesOn, weight_at};
ghost use Rattle.ev_parse.specs.inner.Frames.{between, tail, level_behind, meaning};

use crate::marks::operator_level;
use crate::raw_pieces::{inverse_piece, typed_piece};
use crate::states::{FormulaStep, Frame, Goal, RawPiece, Source, State};
use ev_syntax::TokenKind;
use ev_syntax::machines::Step;
use ev_syntax::mark_names::{INVERSE_SIGN, OFTYPE_WORD, OPEN_BRACKET, OPEN_PAREN};
use ev_syntax::type_reader::read_type;
use ev_terms::NoMemory;

/// Goes on behind a primary: with `~`, an argument, an image, or as an operand.
pub(crate) fn primary(
    source: &Source<'_>,
    piece: RawPiece,
    at: usize,
    k: u8,
) -> Result<FormulaStep, NoMemory>
    ensures holds { GoesOn (meaning source.now.limit source.now.reader.now) (tail k) piece at result }
    ensures falls { Falls (meaning source.now.limit source.now.reader.now) (weight_at source.now.reader.now at 3) result }
{
    if source.reader.is_mark(at, INVERSE_SIGN) {
        let piece = inverse_piece(source.alloc, source.limit, piece)?;
        return Ok(Step::Go(State::Primary(piece, at + 1, k)));
    }
    if source.reader.is_mark(at, OPEN_PAREN) {
        let inner = State::Call(Goal::Level(0), at + 1);
        return Ok(Step::Push(Frame::Argument(piece, k), inner));
    }
    if source.reader.is_mark(at, OPEN_BRACKET) {
        let inner = State::Call(Goal::Level(0), at + 1);
        return Ok(Step::Push(Frame::Image(piece, k), inner));
    }
    Ok(Step::Go(State::Operand(piece, at, 9, k)))
}

/// Whether a level is one from the second on below the first.
fn in_range(level: u8, j: u8, k: u8) -> bool
    ensures { result ≡ (nat_lt 0 level && (nat_le k level && nat_lt level j)) }
{
    level > 0 && k <= level && level < j
}

/// Reads the type behind `oftype`.
fn typed(source: &Source<'_>, piece: RawPiece, at: usize) -> Result<FormulaStep, NoMemory>
    requires inside { IsIndex source.now.reader.now at }
    requires token { IsTokenAt (Some (AMark OFTYPE_WORD)) source.now.reader.now at }
    ensures holds { GoesOn (meaning source.now.limit source.now.reader.now) (level_behind 0 ∷ []) piece at result }
    ensures falls { Falls (meaning source.now.limit source.now.reader.now) (weight_at source.now.reader.now at 2) result }
{
    match read_type(source.reader, source.alloc, source.limit, at + 1)? {
        Some((written, to)) => {
            let piece = typed_piece(source.alloc, source.limit, piece, written)?;
            Ok(Step::Found(piece, to))
        }
        None => Ok(Step::Fail),
    }
}

/// Goes on behind an operand before a mark.
fn operand_mark(
    source: &Source<'_>,
    piece: RawPiece,
    at: usize,
    j: u8,
    k: u8,
    mark: u16,
) -> Result<FormulaStep, NoMemory>
    requires inside { IsIndex source.now.reader.now at }
    requires token { IsTokenAt (Some (AMark mark)) source.now.reader.now at }
    ensures holds { GoesOn (meaning source.now.limit source.now.reader.now) (between k j) piece at result }
    ensures falls { Falls (meaning source.now.limit source.now.reader.now) (weight_at source.now.reader.now at 2) result }
{
    let level = operator_level(mark);
    if in_range(level, j, k) {
        let inner = State::Call(Goal::Level(level + 1), at + 1);
        return Ok(Step::Push(Frame::Right(mark, level, piece, k), inner));
    }
    if mark != OFTYPE_WORD {
        return Ok(Step::Found(piece, at));
    }
    if k > 0 {
        return Ok(Step::Found(piece, at));
    }
    if j == 0 {
        return Ok(Step::Found(piece, at));
    }
    typed(source, piece, at)
}

/// Goes on behind an operand: with an infix sign of a level from k on below j, with `oftype`, or not.
pub(crate) fn operand(
    source: &Source<'_>,
    piece: RawPiece,
    at: usize,
    j: u8,
    k: u8,
) -> Result<FormulaStep, NoMemory>
    ensures holds { GoesOn (meaning source.now.limit source.now.reader.now) (between k j) piece at result }
    ensures falls { Falls (meaning source.now.limit source.now.reader.now) (weight_at source.now.reader.now at 2) result }
{
    match source.reader.kind(at) {
        Some(TokenKind::Mark(mark)) => operand_mark(source, piece, at, j, k, mark),
        Some(TokenKind::Name) => Ok(Step::Found(piece, at)),
        Some(TokenKind::Number(_)) => Ok(Step::Found(piece, at)),
        None => Ok(Step::Found(piece, at)),
    }
}
