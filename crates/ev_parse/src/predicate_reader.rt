//! The reader of predicates: what begins one, and what comes behind a literal.
ghost use Rattle.std.specs.Prelude.{◌≡◌, ◌||◌, ◌≢◌, ◌<◌, ◌≤◌, ◌+◌, ◌*◌, ◌-◌, [], ◌∷◌, ◌++◌, ℕ, Bool, true, false, List, Option, Some, None, length, drop, nat_lt, nat_le, ◌&&◌, IfOk};
ghost use Rattle.ev_syntax.specs.declared.kinds.TokenKind.TheVariants.{Mark as AMark};
ghost use Rattle.ev_syntax.specs.Marks.{dot};
ghost use Rattle.ev_parse.specs.declared.states.Stage.TheVariants.{Pred};
ghost use Rattle.ev_syntax.specs.Raw.{Raw as RawTree, word};
ghost use Rattle.ev_syntax.specs.inner.RawView.{raw_of};
ghost use Rattle.ev_syntax.specs.inner.Finding.{Found};
ghost use Rattle.ev_syntax.specs.inner.TypeParser.{begins, expect};
ghost use Rattle.ev_syntax.specs.inner.Resuming.{Behind, Reach, FromCall};
ghost use Rattle.ev_syntax.specs.inner.TokenAt.{IsTokenAt, IsIndex};
ghost use Rattle.ev_syntax.specs.inner.Pieces.{IsPiece};
ghost use Rattle.ev_syntax.specs.Parts.{is_among};
ghost use Rattle.ev_syntax.specs.inner.FormulaParser.{words, calls};
ghost use Rattle.ev_parse.specs.inner.Forms.{IsRaw};
ghost use Rattle.ev_syntax.specs.inner.Lookahead.{operator_of, is_from};
ghost use Rattle.ev_syntax.specs.inner.Lookahead as looking;
ghost use Rattle.ev_syntax.specs.inner.FormulaParser as parser;
ghost use Rattle.ev_syntax.specs.Parts.{relation_signs};
ghost use Rattle.ev_parse.specs.inner.Closings.{IsTable};
ghost use Rattle.ev_syntax.specs.inner.Machines.{Falls, GoesOn, StartsAbove, StepHolds, weight_at};
ghost use Rattle.ev_parse.specs.inner.Frames.{stage_at, level_at, related_behind, quantifying, goes_on_by, stage_tail, stage_rest, literal_part, chain_behind, implied_behind, meaning};

use crate::closings::entry;
use crate::expression_reader::dot_then;
use crate::marks::{is_relation, operator_level};
use crate::raw_pieces::raw_piece;
use crate::states::{FormulaStep, Frame, Goal, RawPiece, Stage, State};
use ev_syntax::TokenKind;
use ev_syntax::binder_reader::read_binders;
use ev_syntax::formulas::FormulaForm;
use ev_syntax::machines::Step;
use ev_syntax::mark_names::{
    AND_SIGN, FALSE_WORD, FINITE_WORD, FOR_ALL_SIGN, FOR_SOME_SIGN, IFF_SIGN, IMPLIES_SIGN,
    INVERSE_SIGN, NOT_WORD, OFTYPE_WORD, OPEN_BRACKET, OPEN_PAREN, OR_WORD, TRUE_WORD,
};
use ev_syntax::reader::Reader;
use ev_terms::NoMemory;
use std::alloc::Global;

/// A word alone that is a predicate.
fn truth(
    reader: &Reader<'_>,
    alloc: Global,
    limit: u32,
    stage: Stage,
    at: usize,
    mark: u16,
) -> Result<FormulaStep, NoMemory>
    requires inside { IsIndex reader.now at }
    ensures holds { (whole : ℕ → Option (Found RawTree)) → (bs : List (Behind RawTree)) → Reach whole (bs ++ stage_tail stage) (Some (word mark, drop (at + 1) reader.now)) → IfOk result (StepHolds (meaning limit reader.now) whole bs) }
    ensures falls { Falls (meaning limit reader.now) (weight_at reader.now at 12) result }
{
    let piece = raw_piece(alloc, limit, FormulaForm::Word(mark), 1, false)?;
    Ok(Step::Go(State::Literal(piece, at + 1, stage)))
}

/// Reads the bound names and the dot of a quantified predicate.
fn quantifier(
    reader: &Reader<'_>,
    alloc: Global,
    limit: u32,
    stage: Stage,
    at: usize,
    mark: u16,
) -> Result<FormulaStep, NoMemory>
    requires inside { IsIndex reader.now at }
    ensures holds { StartsAbove (meaning limit reader.now) (stage_tail stage) (quantifying mark (drop (at + 1) reader.now)) result }
    ensures falls { Falls (meaning limit reader.now) (weight_at reader.now at 12) result }
{
    match read_binders(reader, alloc, limit, at + 1)? {
        Some((binders, to)) => {
            dot_then(reader, limit, Frame::Quantified(mark, binders, stage), to)
        }
        None => Ok(Step::Fail),
    }
}

/// Reads the parenthesis after `finite`.
fn finite(reader: &Reader<'_>, limit: u32, stage: Stage, at: usize) -> Result<FormulaStep, NoMemory>
    requires inside { IsIndex reader.now at }
    requires token { IsTokenAt (Some (AMark FINITE_WORD)) reader.now at }
    ensures holds { StartsAbove (meaning limit reader.now) (stage_tail stage) (literal_part (drop at reader.now)) result }
    ensures falls { Falls (meaning limit reader.now) (weight_at reader.now at 12) result }
{
    if !reader.is_mark(at + 1, OPEN_PAREN) {
        return Ok(Step::Fail);
    }
    let inner = State::Call(Goal::Level(0), at + 2);
    Ok(Step::Push(Frame::Finite(stage), inner))
}

/// Whether a mark goes on with an expression, or is the sign of a relation.
#[tactic(auto, using(crate::proofs::PredicateMoves::first_signs))]
fn goes_on_mark(mark: u16) -> bool
    ensures { result ≡ (goes_on_by mark || is_among relation_signs mark) }
{
    if operator_level(mark) > 0 {
        return true;
    }
    mark == INVERSE_SIGN
        || mark == OPEN_PAREN
        || mark == OPEN_BRACKET
        || mark == OFTYPE_WORD
        || is_relation(mark)
}

/// Whether what stands at a place goes on with an expression, or is the sign of a relation.
pub fn goes_on(reader: &Reader<'_>, at: usize) -> bool
    ensures { result ≡ (looking.goes_on (drop at reader.now) || parser.is_relation (drop at reader.now)) }
{
    match reader.kind(at) {
        Some(TokenKind::Mark(mark)) => goes_on_mark(mark),
        Some(TokenKind::Name) => false,
        Some(TokenKind::Number(_)) => false,
        None => false,
    }
}

/// Reads what begins with a parenthesis: a predicate, unless what comes behind the closing one goes on with an expression.
fn open_paren(
    reader: &Reader<'_>,
    limit: u32,
    table: &[Option<usize>],
    stage: Stage,
    at: usize,
) -> Result<FormulaStep, NoMemory>
    requires inside { IsIndex reader.now at }
    requires token { IsTokenAt (Some (AMark OPEN_PAREN)) reader.now at }
    requires table { IsTable reader.now table.now }
    requires full { length table.now ≡ length reader.now + 1 }
    ensures holds { StartsAbove (meaning limit reader.now) (stage_tail stage) (literal_part (drop at reader.now)) result }
    ensures falls { Falls (meaning limit reader.now) (weight_at reader.now at 12) result }
{
    match entry(reader, table, at + 1) {
        Some(to) => {
            if goes_on(reader, to) {
                return Ok(Step::Push(Frame::Related(stage), State::Call(Goal::Level(0), at)));
            }
            let inner = State::Call(Goal::Stage(Stage::Pred), at + 1);
            Ok(Step::Push(Frame::Inner(stage), inner))
        }
        None => Ok(Step::Fail),
    }
}

/// Reads a relation, or a name that is a predicate.
fn relation(reader: &Reader<'_>, limit: u32, stage: Stage, at: usize) -> FormulaStep
    ensures holds { (whole : ℕ → Option (Found RawTree)) → (bs : List (Behind RawTree)) → at ≤ length reader.now → FromCall whole (bs ++ (stage_tail stage ++ related_behind ∷ [])) (level_at 0 (drop at reader.now)) → StepHolds (meaning limit reader.now) whole bs result }
    ensures falls { Falls (meaning limit reader.now) (weight_at reader.now at 12) (Ok result) }
{
    let inner = State::Call(Goal::Level(0), at);
    Step::Push(Frame::Related(stage), inner)
}

/// Reads a literal that begins with a mark.
fn call_literal(
    reader: &Reader<'_>,
    alloc: Global,
    limit: u32,
    table: &[Option<usize>],
    stage: Stage,
    at: usize,
    mark: u16,
) -> Result<FormulaStep, NoMemory>
    requires inside { IsIndex reader.now at }
    requires token { IsTokenAt (Some (AMark mark)) reader.now at }
    requires table { IsTable reader.now table.now }
    requires full { length table.now ≡ length reader.now + 1 }
    ensures holds { StartsAbove (meaning limit reader.now) (stage_tail stage) (literal_part (drop at reader.now)) result }
    ensures falls { Falls (meaning limit reader.now) (weight_at reader.now at 12) result }
{
    if mark == NOT_WORD {
        let inner = State::Call(Goal::Stage(Stage::Lit), at + 1);
        return Ok(Step::Push(Frame::Not(stage), inner));
    }
    if mark == FOR_ALL_SIGN {
        return quantifier(reader, alloc, limit, stage, at, FOR_ALL_SIGN);
    }
    if mark == FOR_SOME_SIGN {
        return quantifier(reader, alloc, limit, stage, at, FOR_SOME_SIGN);
    }
    if mark == TRUE_WORD {
        return truth(reader, alloc, limit, stage, at, TRUE_WORD);
    }
    if mark == FALSE_WORD {
        return truth(reader, alloc, limit, stage, at, FALSE_WORD);
    }
    if mark == FINITE_WORD {
        return finite(reader, limit, stage, at);
    }
    if mark == OPEN_PAREN {
        return open_paren(reader, limit, table, stage, at);
    }
    Ok(relation(reader, limit, stage, at))
}

/// Reads a predicate of a stage.
pub(crate) fn call_stage(
    reader: &Reader<'_>,
    alloc: Global,
    limit: u32,
    table: &[Option<usize>],
    stage: Stage,
    at: usize,
) -> Result<FormulaStep, NoMemory>
    requires table { IsTable reader.now table.now }
    requires full { length table.now ≡ length reader.now + 1 }
    ensures holds { (whole : ℕ → Option (Found RawTree)) → (bs : List (Behind RawTree)) → at ≤ length reader.now → FromCall whole bs (stage_at stage (drop at reader.now)) → IfOk result (StepHolds (meaning limit reader.now) whole bs) }
    ensures falls { Falls (meaning limit reader.now) (weight_at reader.now at 12) result }
{
    match reader.kind(at) {
        Some(TokenKind::Mark(mark)) => {
            call_literal(reader, alloc, limit, table, stage, at, mark)
        }
        Some(TokenKind::Name) => Ok(relation(reader, limit, stage, at)),
        Some(TokenKind::Number(_)) => Ok(relation(reader, limit, stage, at)),
        None => Ok(relation(reader, limit, stage, at)),
    }
}

/// Goes on behind a literal of a conjunction or disjunction.
fn behind_literal(
    reader: &Reader<'_>,
    limit: u32,
    piece: RawPiece,
    at: usize,
    stage: Stage,
) -> FormulaStep
    requires further { stage ≢ Stage.Lit }
    ensures holds { GoesOn (meaning limit reader.now) (stage_tail stage) piece at (Ok result) }
    ensures falls { Falls (meaning limit reader.now) (weight_at reader.now at 4) (Ok result) }
{
    if reader.is_mark(at, AND_SIGN) {
        return Step::Go(State::Chain(AND_SIGN, piece, at, stage));
    }
    if reader.is_mark(at, OR_WORD) {
        return Step::Go(State::Chain(OR_WORD, piece, at, stage));
    }
    Step::Go(State::Conjunct(piece, at, stage))
}

/// Goes on behind a literal: with `&`, with `or`, or not.
pub(crate) fn literal(
    reader: &Reader<'_>,
    limit: u32,
    piece: RawPiece,
    at: usize,
    stage: Stage,
) -> FormulaStep
    ensures holds { GoesOn (meaning limit reader.now) (stage_tail stage) piece at (Ok result) }
    ensures falls { Falls (meaning limit reader.now) (weight_at reader.now at 4) (Ok result) }
{
    match stage {
        Stage::Lit => Step::Found(piece, at),
        Stage::Conj => behind_literal(reader, limit, piece, at, stage),
        Stage::Pred => behind_literal(reader, limit, piece, at, stage),
    }
}

/// Goes on behind a literal of a chain.
pub(crate) fn chain(
    reader: &Reader<'_>,
    limit: u32,
    mark: u16,
    piece: RawPiece,
    at: usize,
    stage: Stage,
) -> FormulaStep
    ensures holds { GoesOn (meaning limit reader.now) (stage_rest stage ++ chain_behind mark ∷ []) piece at (Ok result) }
    ensures falls { Falls (meaning limit reader.now) (weight_at reader.now at 3) (Ok result) }
{
    if reader.is_mark(at, mark) {
        let inner = State::Call(Goal::Stage(Stage::Lit), at + 1);
        return Step::Push(Frame::Connective(mark, piece, stage), inner);
    }
    Step::Go(State::Conjunct(piece, at, stage))
}

/// Goes on behind the first part of a predicate.
fn behind_conjunct(reader: &Reader<'_>, limit: u32, piece: RawPiece, at: usize) -> FormulaStep
    ensures holds { GoesOn (meaning limit reader.now) (implied_behind ∷ []) piece at (Ok result) }
    ensures falls { Falls (meaning limit reader.now) (weight_at reader.now at 2) (Ok result) }
{
    if reader.is_mark(at, IMPLIES_SIGN) {
        let inner = State::Call(Goal::Stage(Stage::Conj), at + 1);
        return Step::Push(Frame::Implication(IMPLIES_SIGN, piece), inner);
    }
    if reader.is_mark(at, IFF_SIGN) {
        let inner = State::Call(Goal::Stage(Stage::Conj), at + 1);
        return Step::Push(Frame::Implication(IFF_SIGN, piece), inner);
    }
    Step::Found(piece, at)
}

/// Goes on behind a conjunction or disjunction: with `=>`, with `<=>`, or not.
pub(crate) fn conjunct(
    reader: &Reader<'_>,
    limit: u32,
    piece: RawPiece,
    at: usize,
    stage: Stage,
) -> FormulaStep
    ensures holds { GoesOn (meaning limit reader.now) (stage_rest stage) piece at (Ok result) }
    ensures falls { Falls (meaning limit reader.now) (weight_at reader.now at 2) (Ok result) }
{
    match stage {
        Stage::Pred => behind_conjunct(reader, limit, piece, at),
        Stage::Lit => Step::Found(piece, at),
        Stage::Conj => Step::Found(piece, at),
    }
}
