//! The reader of types: a machine with a stack of frames, so that nothing in the input makes it recurse.
ghost use Rattle.std.specs.Prelude.{◌≡◌, ◌<◌, ◌≤◌, ◌+◌, ◌*◌, ◌-◌, [], ◌∷◌, ◌++◌, ℕ, List, Option, Some, None, Ok, length, drop, IfOk};
ghost use Rattle.ev_syntax.specs.declared.kinds.TokenKind.TheVariants.{Mark as AMark, Name as AName};
ghost use Rattle.ev_syntax.specs.Raw.{RawType, type_nesting};
ghost use Rattle.ev_syntax.specs.inner.TypeView.{raw_type_of};
ghost use Rattle.ev_syntax.specs.inner.Finding.{Found};
ghost use Rattle.ev_syntax.specs.inner.Resuming.{Behind, Reach};
ghost use Rattle.ev_syntax.specs.inner.TokenAt.{IsTokenAt, IsIndex};
ghost use Rattle.ev_syntax.specs.Marks.{close_paren};
ghost use Rattle.ev_syntax.specs.inner.TypeParser.{expect};
ghost use Rattle.ev_syntax.specs.inner.Pieces.{IsPiece};
ghost use Rattle.ev_syntax.specs.inner.Machines.{StepHolds, Falls, GoesOn, Resumes, Starts, weight_at};
ghost use Rattle.ev_syntax.specs.inner.TypeFrames.{type_at, factors, type_tail, types_behind, list_nesting, meaning, TypeAnswer};

use crate::TokenKind;
use crate::machines::{Machine, Step, run};
use crate::mark_names::{
    BOOL_SET_WORD, CLOSE_PAREN, COMMA, INT_WORD, OPEN_PAREN, PARAM_SIGN, POW_WORD, PRODUCT_SIGN,
};
use crate::read_pieces::Piece;
use crate::reader::Reader;
use crate::type_pieces::{named_piece, pow_piece, prod_piece, type_piece, types_with};
use crate::type_states::{TypeFrame, TypeGoal, TypeState, TypeStep};
use crate::written::{RawType, RawTypeForm, RawTypes};
use ev_terms::{ListOf, Name, NoMemory};
use std::alloc::Global;

/// An atom without parts that stands before a place.
fn leaf(
    reader: &Reader<'_>,
    alloc: Global,
    limit: u32,
    form: RawTypeForm,
    goal: TypeGoal,
    at: usize,
) -> Result<TypeStep, NoMemory>
    requires flat { type_nesting (raw_type_of form) ≡ 1 }
    ensures holds { (whole : ℕ → Option (Found RawType)) → (bs : List (Behind RawType)) → Reach whole (bs ++ type_tail goal) (Some (raw_type_of form, drop at reader.now)) → at ≤ length reader.now → IfOk result (StepHolds (meaning limit reader.now) whole bs) }
    ensures falls { Falls (meaning limit reader.now) (weight_at reader.now at 4) result }
{
    let piece = type_piece(alloc, limit, form, 1)?;
    Ok(Step::Go(TypeState::Atom(goal, piece, at)))
}

/// Reads a name, with types or with none.
fn call_name(
    reader: &Reader<'_>,
    alloc: Global,
    limit: u32,
    goal: TypeGoal,
    at: usize,
) -> Result<TypeStep, NoMemory>
    requires inside { IsIndex reader.now at }
    requires token { IsTokenAt (Some AName) reader.now at }
    ensures holds { Starts (meaning limit reader.now) (type_at goal (drop at reader.now)) result }
    ensures falls { Falls (meaning limit reader.now) (weight_at reader.now at 5) result }
{
    let name = reader.name(alloc, at)?;
    if reader.is_mark(at + 1, OPEN_PAREN) {
        let types = Piece::Whole(ListOf::new(alloc), 0);
        let frame = TypeFrame::Types(name, types, goal);
        return Ok(Step::Push(frame, TypeState::Call(TypeGoal::Whole, at + 2)));
    }
    leaf(
        reader,
        alloc,
        limit,
        RawTypeForm::Named(name, ListOf::new(alloc)),
        goal,
        at + 1,
    )
}

/// Reads a parameter's number.
fn call_param(
    reader: &Reader<'_>,
    alloc: Global,
    limit: u32,
    goal: TypeGoal,
    at: usize,
) -> Result<TypeStep, NoMemory>
    requires inside { IsIndex reader.now at }
    requires token { IsTokenAt (Some (AMark PARAM_SIGN)) reader.now at }
    ensures holds { Starts (meaning limit reader.now) (type_at goal (drop at reader.now)) result }
    ensures falls { Falls (meaning limit reader.now) (weight_at reader.now at 5) result }
{
    match reader.small_number(at + 1) {
        Some(number) => leaf(
            reader,
            alloc,
            limit,
            RawTypeForm::Param(number),
            goal,
            at + 2,
        ),
        None => Ok(Step::Fail),
    }
}

/// Reads the parenthesis after `POW`.
fn call_pow(
    reader: &Reader<'_>,
    limit: u32,
    goal: TypeGoal,
    at: usize,
) -> Result<TypeStep, NoMemory>
    requires inside { IsIndex reader.now at }
    requires token { IsTokenAt (Some (AMark POW_WORD)) reader.now at }
    ensures holds { Starts (meaning limit reader.now) (type_at goal (drop at reader.now)) result }
    ensures falls { Falls (meaning limit reader.now) (weight_at reader.now at 5) result }
{
    if !reader.is_mark(at + 1, OPEN_PAREN) {
        return Ok(Step::Fail);
    }
    let inner = TypeState::Call(TypeGoal::Whole, at + 2);
    Ok(Step::Push(TypeFrame::Pow(goal), inner))
}

/// Reads what begins with a mark.
fn call_mark(
    reader: &Reader<'_>,
    alloc: Global,
    limit: u32,
    goal: TypeGoal,
    at: usize,
    mark: u16,
) -> Result<TypeStep, NoMemory>
    requires inside { IsIndex reader.now at }
    requires token { IsTokenAt (Some (AMark mark)) reader.now at }
    ensures holds { Starts (meaning limit reader.now) (type_at goal (drop at reader.now)) result }
    ensures falls { Falls (meaning limit reader.now) (weight_at reader.now at 5) result }
{
    if mark == INT_WORD {
        return leaf(reader, alloc, limit, RawTypeForm::Int, goal, at + 1);
    }
    if mark == BOOL_SET_WORD {
        return leaf(reader, alloc, limit, RawTypeForm::Bool, goal, at + 1);
    }
    if mark == PARAM_SIGN {
        return call_param(reader, alloc, limit, goal, at);
    }
    if mark == OPEN_PAREN {
        let inner = TypeState::Call(TypeGoal::Whole, at + 1);
        return Ok(Step::Push(TypeFrame::Paren(goal), inner));
    }
    if mark == POW_WORD {
        return call_pow(reader, limit, goal, at);
    }
    Ok(Step::Fail)
}

/// Reads a type at a place.
fn call(
    reader: &Reader<'_>,
    alloc: Global,
    limit: u32,
    goal: TypeGoal,
    at: usize,
) -> Result<TypeStep, NoMemory>
    ensures holds { Starts (meaning limit reader.now) (type_at goal (drop at reader.now)) result }
    ensures falls { Falls (meaning limit reader.now) (weight_at reader.now at 5) result }
{
    match reader.kind(at) {
        Some(TokenKind::Name) => call_name(reader, alloc, limit, goal, at),
        Some(TokenKind::Mark(mark)) => call_mark(reader, alloc, limit, goal, at, mark),
        Some(TokenKind::Number(_)) => Ok(Step::Fail),
        None => Ok(Step::Fail),
    }
}

/// Ends what an open parenthesis began: a piece is found if it closes.
fn close(
    reader: &Reader<'_>,
    limit: u32,
    goal: TypeGoal,
    piece: Piece<RawType>,
    at: usize,
) -> Result<TypeStep, NoMemory>
    ensures holds { (whole : ℕ → Option (Found RawType)) → (bs : List (Behind RawType)) → (r : RawType) → IsPiece type_nesting limit piece r → Reach whole (bs ++ type_tail goal) (expect close_paren (drop at reader.now) (λ rest. Some (r, rest))) → IfOk result (StepHolds (meaning limit reader.now) whole bs) }
    ensures falls { Falls (meaning limit reader.now) (weight_at reader.now at 1) result }
{
    if reader.is_mark(at, CLOSE_PAREN) {
        return Ok(Step::Go(TypeState::Atom(goal, piece, at + 1)));
    }
    Ok(Step::Fail)
}

/// Goes on behind a type of a list.
fn further(
    reader: &Reader<'_>,
    alloc: Global,
    limit: u32,
    name: Name,
    types: Piece<RawTypes>,
    goal: TypeGoal,
    at: usize,
) -> Result<TypeStep, NoMemory>
    ensures holds { (whole : ℕ → Option (Found RawType)) → (bs : List (Behind RawType)) → (rs : List RawType) → (r : RawType) → IsPiece list_nesting limit types (rs ++ r ∷ []) → Reach whole (bs ++ (type_tail goal ++ types_behind name rs ∷ [])) (Some (r, drop at reader.now)) → IfOk result (StepHolds (meaning limit reader.now) whole bs) }
    ensures falls { Falls (meaning limit reader.now) (weight_at reader.now at 1) result }
{
    if reader.is_mark(at, COMMA) {
        let frame = TypeFrame::Types(name, types, goal);
        return Ok(Step::Push(frame, TypeState::Call(TypeGoal::Whole, at + 1)));
    }
    let piece = named_piece(alloc, limit, name, types)?;
    close(reader, limit, goal, piece, at)
}

/// Does what a frame holds with the type that was found.
fn resume(
    reader: &Reader<'_>,
    alloc: Global,
    limit: u32,
    frame: TypeFrame,
    piece: Piece<RawType>,
    at: usize,
) -> Result<TypeStep, NoMemory>
    ensures holds { Resumes (meaning limit reader.now) frame piece at result }
    ensures falls { Falls (meaning limit reader.now) (weight_at reader.now at 6) result }
{
    match frame {
        TypeFrame::Paren(goal) => close(reader, limit, goal, piece, at),
        TypeFrame::Pow(goal) => {
            let piece = pow_piece(alloc, limit, piece)?;
            close(reader, limit, goal, piece, at)
        }
        TypeFrame::Factor(factor) => {
            let piece = prod_piece(alloc, limit, factor, piece)?;
            Ok(Step::Go(TypeState::Atom(TypeGoal::Whole, piece, at)))
        }
        TypeFrame::Types(name, types, goal) => {
            let types = types_with(alloc, types, piece, limit)?;
            further(reader, alloc, limit, name, types, goal, at)
        }
    }
}

/// Goes on behind a factor: with a further one, or with what waits for the type.
fn another(reader: &Reader<'_>, limit: u32, piece: Piece<RawType>, at: usize) -> TypeStep
    ensures holds { GoesOn (meaning limit reader.now) (factors ∷ []) piece at (Ok result) }
    ensures falls { Falls (meaning limit reader.now) (weight_at reader.now at 2) (Ok result) }
{
    if reader.is_mark(at, PRODUCT_SIGN) {
        return Step::Push(
            TypeFrame::Factor(piece),
            TypeState::Call(TypeGoal::Atom, at + 1),
        );
    }
    Step::Found(piece, at)
}

/// The machine that reads types.
#[derive(Drop)]
struct TypeMachine<'a> {
    reader: &'a Reader<'a>,
    alloc: Global,
    limit: u32,
}

impl<'a> Machine for TypeMachine<'a> {
    type Frame = TypeFrame;

    type State = TypeState;

    type Piece = Piece<RawType>;

    ghost use Rattle.ev_syntax.specs.Raw.{RawType};
    ghost use Rattle.ev_syntax.specs.inner.TypeFrames.{meaning};

    ghost Tree = { RawType };

    ghost meaning = { λ m. meaning m.limit m.reader.now };

    fn step(&self, state: TypeState) -> Result<TypeStep, NoMemory> {
        match state {
            TypeState::Call(goal, at) => call(self.reader, self.alloc, self.limit, goal, at),
            TypeState::Atom(TypeGoal::Atom, piece, at) => Ok(Step::Found(piece, at)),
            TypeState::Atom(TypeGoal::Whole, piece, at) => {
                Ok(another(self.reader, self.limit, piece, at))
            }
        }
    }

    fn resume(
        &self,
        frame: TypeFrame,
        piece: Piece<RawType>,
        at: usize,
    ) -> Result<TypeStep, NoMemory> {
        resume(self.reader, self.alloc, self.limit, frame, piece, at)
    }
}

/// Reads a type at a place: the type and the place behind it.
pub fn read_type(
    reader: &Reader<'_>,
    alloc: Global,
    limit: u32,
    at: usize,
) -> Result<Option<(Piece<RawType>, usize)>, NoMemory>
    requires { at ≤ length reader.now }
    ensures { IfOk result (TypeAnswer limit reader.now at) }
{
    let machine = TypeMachine {
        reader,
        alloc,
        limit,
    };
    run(&machine, alloc, TypeState::Call(TypeGoal::Whole, at))
}
