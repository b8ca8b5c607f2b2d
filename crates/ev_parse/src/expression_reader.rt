//! The reader of expressions: what begins one.
ghost use Rattle.std.specs.Prelude.{◌≡◌, ◌≢◌, ◌<◌, ◌≤◌, ◌+◌, ◌*◌, ◌-◌, [], ◌∷◌, ◌++◌, ℕ, Bool, true, false, List, Option, Some, None, length, drop, IsTrue, IfOk};
ghost use Rattle.ev_syntax.specs.declared.kinds.TokenKind.TheVariants.{Mark as AMark, Name as AName};
ghost use Rattle.ev_syntax.specs.Marks.{dot, bar, close_brace};
ghost use Rattle.ev_parse.specs.declared.states.Stage.TheVariants.{Pred};
ghost use Rattle.ev_syntax.specs.Raw.{Raw as RawTree, Binder as Bound, nesting};
ghost use Rattle.ev_syntax.specs.inner.RawView.{raw_of};
ghost use Rattle.ev_syntax.specs.inner.Finding.{Found};
ghost use Rattle.ev_syntax.specs.inner.TypeParser.{begins, expect};
ghost use Rattle.ev_syntax.specs.inner.Resuming.{Behind, Reach, FromCall};
ghost use Rattle.ev_syntax.specs.inner.TokenAt.{IsTokenAt, IsIndex};
ghost use Rattle.ev_syntax.specs.inner.Pieces.{IsPiece};
ghost use Rattle.ev_syntax.specs.Parts.{is_among};
ghost use Rattle.ev_syntax.specs.inner.FormulaParser.{words, calls};
ghost use Rattle.ev_parse.specs.inner.Forms.{IsRaw, is_call, members_nesting};
ghost use Rattle.ev_syntax.specs.inner.BinderParser.{parse_binder};
ghost use Rattle.ev_parse.specs.inner.Braces.{NotBefore};
ghost use Rattle.ev_syntax.specs.inner.Machines.{Falls, Starts, StartsAbove, StepHolds, weight_at};
ghost use Rattle.ev_parse.specs.inner.Frames.{level_at, prim_at, stage_at, tail, body_tail, members_behind, collecting, IsFrame, meaning};

use crate::marks::{is_call, is_word};
use crate::raw_pieces::{raw_piece, type_set_piece};
use crate::states::{FormulaStep, Frame, Goal, RawPiece, Stage, State};
use ev_syntax::TokenKind;
use ev_syntax::binder_reader::{read_binder, read_binders};
use ev_syntax::formulas::{FormulaForm, Raws};
use ev_syntax::machines::Step;
use ev_syntax::mark_names::{
    BAR, BOOL_WORD, CLOSE_BRACE, CLOSE_PAREN, DOT, INTER_OVER_WORD, LAMBDA_SIGN, MINUS_SIGN,
    OPEN_BRACE, OPEN_PAREN, PARAM_SIGN, TYPE_WORD, UNION_OVER_WORD,
};
use ev_syntax::pattern_reader::read_pattern;
use ev_syntax::read_pieces::Piece;
use ev_syntax::reader::Reader;
use ev_syntax::type_reader::read_type;
use ev_terms::{ListOf, NoMemory};
use std::alloc::Global;

/// A primary without parts that stands before a place.
fn leaf(
    reader: &Reader<'_>,
    alloc: Global,
    limit: u32,
    form: FormulaForm,
    call: bool,
    k: u8,
    at: usize,
) -> Result<FormulaStep, NoMemory>
    requires flat { nesting (raw_of form) ≡ 1 }
    requires named { call ≡ is_call (raw_of form) }
    ensures holds { (whole : ℕ → Option (Found RawTree)) → (bs : List (Behind RawTree)) → Reach whole (bs ++ tail k) (Some (raw_of form, drop at reader.now)) → at ≤ length reader.now → IfOk result (StepHolds (meaning limit reader.now) whole bs) }
    ensures falls { Falls (meaning limit reader.now) (weight_at reader.now at 4) result }
{
    let piece = raw_piece(alloc, limit, form, 1, call)?;
    Ok(Step::Go(State::Primary(piece, at, k)))
}

/// Ends a primary: a piece is found if the mark stands behind it.
pub(crate) fn close(
    reader: &Reader<'_>,
    limit: u32,
    piece: RawPiece,
    k: u8,
    at: usize,
    mark: u16,
) -> Result<FormulaStep, NoMemory>
    ensures holds { (whole : ℕ → Option (Found RawTree)) → (bs : List (Behind RawTree)) → (r : RawTree) → IsRaw limit piece r → Reach whole (bs ++ tail k) (expect mark (drop at reader.now) (λ rest. Some (r, rest))) → IfOk result (StepHolds (meaning limit reader.now) whole bs) }
    ensures falls { Falls (meaning limit reader.now) (weight_at reader.now at 1) result }
{
    if reader.is_mark(at, mark) {
        return Ok(Step::Go(State::Primary(piece, at + 1, k)));
    }
    Ok(Step::Fail)
}

/// Reads a name, with arguments or with none.
fn call_name(
    reader: &Reader<'_>,
    alloc: Global,
    limit: u32,
    k: u8,
    at: usize,
) -> Result<FormulaStep, NoMemory>
    requires inside { IsIndex reader.now at }
    requires token { IsTokenAt (Some AName) reader.now at }
    ensures holds { StartsAbove (meaning limit reader.now) (tail k) (prim_at (drop at reader.now)) result }
    ensures falls { Falls (meaning limit reader.now) (weight_at reader.now at 6) result }
{
    let name = reader.name(alloc, at)?;
    if reader.is_mark(at + 1, OPEN_PAREN) {
        let args = Piece::Whole(ListOf::new(alloc), 0);
        let inner = State::Call(Goal::Level(0), at + 2);
        return Ok(Step::Push(Frame::Args(name, args, k), inner));
    }
    let form = FormulaForm::Call(name, ListOf::new(alloc));
    leaf(reader, alloc, limit, form, true, k, at + 1)
}

/// Reads a parameter's number.
fn call_param(
    reader: &Reader<'_>,
    alloc: Global,
    limit: u32,
    k: u8,
    at: usize,
) -> Result<FormulaStep, NoMemory>
    requires inside { IsIndex reader.now at }
    requires token { IsTokenAt (Some (AMark PARAM_SIGN)) reader.now at }
    ensures holds { StartsAbove (meaning limit reader.now) (tail k) (prim_at (drop at reader.now)) result }
    ensures falls { Falls (meaning limit reader.now) (weight_at reader.now at 6) result }
{
    match reader.small_number(at + 1) {
        Some(number) => {
            leaf(
                reader,
                alloc,
                limit,
                FormulaForm::Param(number),
                false,
                k,
                at + 2,
            )
        }
        None => Ok(Step::Fail),
    }
}

/// Reads the type of `TYPE`.
fn call_type(
    reader: &Reader<'_>,
    alloc: Global,
    limit: u32,
    k: u8,
    at: usize,
) -> Result<FormulaStep, NoMemory>
    requires inside { IsIndex reader.now at }
    requires token { IsTokenAt (Some (AMark TYPE_WORD)) reader.now at }
    ensures holds { StartsAbove (meaning limit reader.now) (tail k) (prim_at (drop at reader.now)) result }
    ensures falls { Falls (meaning limit reader.now) (weight_at reader.now at 6) result }
{
    if !reader.is_mark(at + 1, OPEN_PAREN) {
        return Ok(Step::Fail);
    }
    match read_type(reader, alloc, limit, at + 2)? {
        Some((written, to)) => {
            let piece = type_set_piece(alloc, limit, written)?;
            close(reader, limit, piece, k, to, CLOSE_PAREN)
        }
        None => Ok(Step::Fail),
    }
}

/// Reads the parenthesis after a reserved word that stands before an expression.
fn call_around(
    reader: &Reader<'_>,
    limit: u32,
    k: u8,
    at: usize,
    mark: u16,
) -> Result<FormulaStep, NoMemory>
    requires inside { IsIndex reader.now at }
    requires token { IsTokenAt (Some (AMark mark)) reader.now at }
    requires word { is_among calls mark ≡ true }
    requires others { (is_among words mark ≡ false) × (mark ≢ PARAM_SIGN) × (mark ≢ TYPE_WORD) }
    ensures holds { StartsAbove (meaning limit reader.now) (tail k) (prim_at (drop at reader.now)) result }
    ensures falls { Falls (meaning limit reader.now) (weight_at reader.now at 6) result }
{
    if !reader.is_mark(at + 1, OPEN_PAREN) {
        return Ok(Step::Fail);
    }
    let inner = State::Call(Goal::Level(0), at + 2);
    Ok(Step::Push(Frame::Around(mark, k), inner))
}

/// Reads the parenthesis after `bool`.
fn call_bool(reader: &Reader<'_>, limit: u32, k: u8, at: usize) -> Result<FormulaStep, NoMemory>
    requires inside { IsIndex reader.now at }
    requires token { IsTokenAt (Some (AMark BOOL_WORD)) reader.now at }
    ensures holds { StartsAbove (meaning limit reader.now) (tail k) (prim_at (drop at reader.now)) result }
    ensures falls { Falls (meaning limit reader.now) (weight_at reader.now at 6) result }
{
    if !reader.is_mark(at + 1, OPEN_PAREN) {
        return Ok(Step::Fail);
    }
    let inner = State::Call(Goal::Stage(Stage::Pred), at + 2);
    Ok(Step::Push(Frame::Around(BOOL_WORD, k), inner))
}

/// No members yet.
fn no_members(alloc: Global, limit: u32) -> Piece<Raws>
    ensures { IsPiece members_nesting limit result [] }
{
    if limit == 0 {
        Piece::Deep
    } else {
        Piece::Whole(ListOf::new(alloc), 1)
    }
}

/// Reads the members of a set.
fn call_members(
    reader: &Reader<'_>,
    alloc: Global,
    limit: u32,
    k: u8,
    at: usize,
) -> Result<FormulaStep, NoMemory>
    requires inside { IsIndex reader.now at }
    ensures holds { StartsAbove (meaning limit reader.now) (tail k ++ members_behind [] ∷ []) (level_at 0 (drop (at + 1) reader.now)) result }
    ensures falls { Falls (meaning limit reader.now) (weight_at reader.now at 6) result }
{
    let frame = Frame::Members(no_members(alloc, limit), k);
    let inner = State::Call(Goal::Level(0), at + 1);
    Ok(Step::Push(frame, inner))
}

/// Reads what begins with a brace and a bound name: bound names and a dot, or members.
fn call_named(
    reader: &Reader<'_>,
    alloc: Global,
    limit: u32,
    k: u8,
    at: usize,
) -> Result<FormulaStep, NoMemory>
    requires inside { IsIndex reader.now at }
    requires token { IsTokenAt (Some (AMark OPEN_BRACE)) reader.now at }
    requires open { begins close_brace (drop (at + 1) reader.now) ≡ false }
    requires named { NotBefore bar (λ g. parse_binder g (drop (at + 1) reader.now)) }
    ensures holds { StartsAbove (meaning limit reader.now) (tail k) (prim_at (drop at reader.now)) result }
    ensures falls { Falls (meaning limit reader.now) (weight_at reader.now at 6) result }
{
    match read_binders(reader, alloc, limit, at + 1)? {
        Some((binders, to)) => {
            if !reader.is_mark(to, DOT) {
                return call_members(reader, alloc, limit, k, at);
            }
            let inner = State::Call(Goal::Stage(Stage::Pred), to + 1);
            Ok(Step::Push(Frame::Body(OPEN_BRACE, binders, k), inner))
        }
        None => call_members(reader, alloc, limit, k, at),
    }
}

/// Reads what begins with a brace. A bound name before a bar, or bound names before a dot, tell that no members come.
fn call_brace(
    reader: &Reader<'_>,
    alloc: Global,
    limit: u32,
    k: u8,
    at: usize,
) -> Result<FormulaStep, NoMemory>
    requires inside { IsIndex reader.now at }
    requires token { IsTokenAt (Some (AMark OPEN_BRACE)) reader.now at }
    ensures holds { StartsAbove (meaning limit reader.now) (tail k) (prim_at (drop at reader.now)) result }
    ensures falls { Falls (meaning limit reader.now) (weight_at reader.now at 6) result }
{
    if reader.is_mark(at + 1, CLOSE_BRACE) {
        let form = FormulaForm::Members(ListOf::new(alloc));
        return leaf(reader, alloc, limit, form, false, k, at + 2);
    }
    match read_binder(reader, alloc, limit, at + 1)? {
        Some((binder, to)) => {
            if !reader.is_mark(to, BAR) {
                return call_named(reader, alloc, limit, k, at);
            }
            let inner = State::Call(Goal::Stage(Stage::Pred), to + 1);
            Ok(Step::Push(Frame::SetBody(binder, k), inner))
        }
        None => call_members(reader, alloc, limit, k, at),
    }
}

/// Reads a primary that begins with a mark.
fn call_primary(
    reader: &Reader<'_>,
    alloc: Global,
    limit: u32,
    k: u8,
    at: usize,
    mark: u16,
) -> Result<FormulaStep, NoMemory>
    requires inside { IsIndex reader.now at }
    requires token { IsTokenAt (Some (AMark mark)) reader.now at }
    ensures holds { StartsAbove (meaning limit reader.now) (tail k) (prim_at (drop at reader.now)) result }
    ensures falls { Falls (meaning limit reader.now) (weight_at reader.now at 6) result }
{
    if is_word(mark) {
        return leaf(
            reader,
            alloc,
            limit,
            FormulaForm::Word(mark),
            false,
            k,
            at + 1,
        );
    }
    if mark == PARAM_SIGN {
        return call_param(reader, alloc, limit, k, at);
    }
    if mark == TYPE_WORD {
        return call_type(reader, alloc, limit, k, at);
    }
    if is_call(mark) {
        return call_around(reader, limit, k, at, mark);
    }
    if mark == OPEN_PAREN {
        let inner = State::Call(Goal::Level(0), at + 1);
        return Ok(Step::Push(Frame::Paren(k), inner));
    }
    if mark == OPEN_BRACE {
        return call_brace(reader, alloc, limit, k, at);
    }
    if mark == BOOL_WORD {
        return call_bool(reader, limit, k, at);
    }
    Ok(Step::Fail)
}

/// Reads a dot, and then a predicate.
pub(crate) fn dot_then(
    reader: &Reader<'_>,
    limit: u32,
    frame: Frame,
    at: usize,
) -> Result<FormulaStep, NoMemory>
    ensures holds { (whole : ℕ → Option (Found RawTree)) → (bs : List (Behind RawTree)) → (cs : List (Behind RawTree)) → IsFrame limit frame cs → (begins dot (drop at reader.now) ≡ true → FromCall whole (bs ++ cs) (stage_at Pred (drop (at + 1) reader.now))) → (begins dot (drop at reader.now) ≡ false → Reach whole bs None) → IfOk result (StepHolds (meaning limit reader.now) whole bs) }
    ensures falls { Falls (meaning limit reader.now) (weight_at reader.now at 1) result }
{
    if reader.is_mark(at, DOT) {
        let inner = State::Call(Goal::Stage(Stage::Pred), at + 1);
        return Ok(Step::Push(frame, inner));
    }
    Ok(Step::Fail)
}

/// Reads bound names, a dot and what follows of a form that collects values.
pub(crate) fn collect(
    reader: &Reader<'_>,
    alloc: Global,
    limit: u32,
    mark: u16,
    k: u8,
    at: usize,
) -> Result<FormulaStep, NoMemory>
    ensures holds { StartsAbove (meaning limit reader.now) (body_tail mark k) (collecting mark (drop at reader.now)) result }
    ensures falls { Falls (meaning limit reader.now) (weight_at reader.now at 1) result }
{
    match read_binders(reader, alloc, limit, at)? {
        Some((binders, to)) => dot_then(reader, limit, Frame::Body(mark, binders, k), to),
        None => Ok(Step::Fail),
    }
}

/// Reads the pattern and the dot of a function abstraction.
fn call_lambda(
    reader: &Reader<'_>,
    alloc: Global,
    limit: u32,
    at: usize,
) -> Result<FormulaStep, NoMemory>
    requires inside { IsIndex reader.now at }
    requires token { IsTokenAt (Some (AMark LAMBDA_SIGN)) reader.now at }
    ensures holds { Starts (meaning limit reader.now) (level_at 0 (drop at reader.now)) result }
    ensures falls { Falls (meaning limit reader.now) (weight_at reader.now at 6) result }
{
    match read_pattern(reader, alloc, limit, at + 1)? {
        Some((pattern, to)) => dot_then(reader, limit, Frame::LambdaBody(pattern), to),
        None => Ok(Step::Fail),
    }
}

/// Reads the operand of an unary minus.
fn call_minus(reader: &Reader<'_>, limit: u32, k: u8, at: usize) -> Result<FormulaStep, NoMemory>
    requires inside { IsIndex reader.now at }
    requires token { IsTokenAt (Some (AMark MINUS_SIGN)) reader.now at }
    ensures holds { (whole : ℕ → Option (Found RawTree)) → (bs : List (Behind RawTree)) → k ≤ 9 → FromCall whole bs (level_at k (drop at reader.now)) → IfOk result (StepHolds (meaning limit reader.now) whole bs) }
    ensures falls { Falls (meaning limit reader.now) (weight_at reader.now at 6) result }
{
    if k <= 7 {
        let inner = State::Call(Goal::Level(8), at + 1);
        return Ok(Step::Push(Frame::Minus(k), inner));
    }
    Ok(Step::Fail)
}

/// Reads an expression that begins with a mark.
fn call_mark(
    reader: &Reader<'_>,
    alloc: Global,
    limit: u32,
    k: u8,
    at: usize,
    mark: u16,
) -> Result<FormulaStep, NoMemory>
    requires inside { IsIndex reader.now at }
    requires token { IsTokenAt (Some (AMark mark)) reader.now at }
    ensures holds { (whole : ℕ → Option (Found RawTree)) → (bs : List (Behind RawTree)) → k ≤ 9 → FromCall whole bs (level_at k (drop at reader.now)) → IfOk result (StepHolds (meaning limit reader.now) whole bs) }
    ensures falls { Falls (meaning limit reader.now) (weight_at reader.now at 6) result }
{
    if mark == MINUS_SIGN {
        return call_minus(reader, limit, k, at);
    }
    if k > 0 {
        return call_primary(reader, alloc, limit, k, at, mark);
    }
    if mark == LAMBDA_SIGN {
        return call_lambda(reader, alloc, limit, at);
    }
    if mark == UNION_OVER_WORD {
        return collect(reader, alloc, limit, UNION_OVER_WORD, 0, at + 1);
    }
    if mark == INTER_OVER_WORD {
        return collect(reader, alloc, limit, INTER_OVER_WORD, 0, at + 1);
    }
    call_primary(reader, alloc, limit, k, at, mark)
}

/// Reads an expression of a level.
pub(crate) fn call_level(
    reader: &Reader<'_>,
    alloc: Global,
    limit: u32,
    k: u8,
    at: usize,
) -> Result<FormulaStep, NoMemory>
    ensures holds { (whole : ℕ → Option (Found RawTree)) → (bs : List (Behind RawTree)) → k ≤ 9 → FromCall whole bs (level_at k (drop at reader.now)) → IfOk result (StepHolds (meaning limit reader.now) whole bs) }
    ensures falls { Falls (meaning limit reader.now) (weight_at reader.now at 6) result }
{
    match reader.kind(at) {
        Some(TokenKind::Name) => call_name(reader, alloc, limit, k, at),
        Some(TokenKind::Number(number)) => {
            leaf(
                reader,
                alloc,
                limit,
                FormulaForm::Literal(number),
                false,
                k,
                at + 1,
            )
        }
        Some(TokenKind::Mark(mark)) => call_mark(reader, alloc, limit, k, at, mark),
        None => Ok(Step::Fail),
    }
}
