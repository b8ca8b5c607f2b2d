//! The reader of patterns: a machine with a stack of frames, so that nothing in the input makes it recurse.
ghost use Rattle.std.specs.Prelude.{◌≡◌, ◌≤◌, [], ◌∷◌, Ok, length, drop, IfOk};
ghost use Rattle.ev_syntax.specs.Raw.{Binder as Bound, Pattern as BoundPattern, bound, pair};
ghost use Rattle.ev_syntax.specs.inner.Pieces.{IsPiece};
ghost use Rattle.ev_syntax.specs.inner.BinderAnswers.{binder_nesting, IsPattern, PatternAnswer};
ghost use Rattle.ev_syntax.specs.inner.Machines.{Falls, GoesOn, Resumes, Starts, weight_at};
ghost use Rattle.ev_syntax.specs.inner.PatternFrames.{pattern_at, pairs, meaning};

use crate::binder_reader::read_binder;
use crate::binders::{Binder, Pattern, PatternForm};
use crate::machines::{Machine, Step, run};
use crate::mark_names::{CLOSE_PAREN, MAPS_TO_SIGN, OPEN_PAREN};
use crate::pattern_states::{PatternFrame, PatternGoal, PatternPiece, PatternState, PatternStep};
use crate::read_pieces::Piece;
use crate::reader::Reader;
use ev_terms::NoMemory;
use std::alloc::Global;

/// The pattern of one name.
fn bound_piece(alloc: Global, limit: u32, binder: Piece<Binder>) -> Result<PatternPiece, NoMemory>
    ensures { (b : Bound) → IsPiece binder_nesting limit binder b → IfOk result (λ p. IsPattern limit p (bound b)) }
{
    match binder {
        Piece::Whole(binder, nesting) => {
            if nesting >= limit as u64 {
                return Ok(PatternPiece::Deep);
            }
            let pattern = Pattern::new(alloc, PatternForm::Bound(binder))?;
            Ok(PatternPiece::Whole(pattern, nesting + 1, 1))
        }
        Piece::Deep => Ok(PatternPiece::Deep),
    }
}

/// A pair of patterns.
#[tactic(auto, using(crate::proofs::Nesting::nestings))]
fn pair_piece(
    alloc: Global,
    limit: u32,
    left: PatternPiece,
    right: PatternPiece,
) -> Result<PatternPiece, NoMemory>
    ensures { (x y : BoundPattern) → IsPattern limit left x → IsPattern limit right y → IfOk result (λ p. IsPattern limit p (pair x y)) }
{
    let PatternPiece::Whole(left, n, names) = left else {
        return Ok(PatternPiece::Deep);
    };
    let PatternPiece::Whole(right, m, more) = right else {
        return Ok(PatternPiece::Deep);
    };
    if names > limit as u64 {
        return Ok(PatternPiece::Deep);
    }
    if more > limit as u64 {
        return Ok(PatternPiece::Deep);
    }
    if m > limit as u64 - names {
        return Ok(PatternPiece::Deep);
    }
    let pattern = Pattern::new(alloc, PatternForm::Pair(left, right))?;
    Ok(PatternPiece::Whole(pattern, n.max(names + m), names + more))
}

/// Reads a pattern at a place.
fn call(
    reader: &Reader<'_>,
    alloc: Global,
    limit: u32,
    goal: PatternGoal,
    at: usize,
) -> Result<PatternStep, NoMemory>
    ensures holds { Starts (meaning limit reader.now) (pattern_at goal (drop at reader.now)) result }
    ensures falls { Falls (meaning limit reader.now) (weight_at reader.now at 5) result }
{
    if reader.is_mark(at, OPEN_PAREN) {
        let inner = PatternState::Call(PatternGoal::Whole, at + 1);
        return Ok(Step::Push(PatternFrame::Paren(goal), inner));
    }
    match read_binder(reader, alloc, limit, at)? {
        Some((binder, to)) => {
            let piece = bound_piece(alloc, limit, binder)?;
            Ok(Step::Go(PatternState::Atom(goal, piece, to)))
        }
        None => Ok(Step::Fail),
    }
}

/// Does what a frame holds with the pattern that was found.
fn resume(
    reader: &Reader<'_>,
    alloc: Global,
    limit: u32,
    frame: PatternFrame,
    piece: PatternPiece,
    at: usize,
) -> Result<PatternStep, NoMemory>
    ensures holds { Resumes (meaning limit reader.now) frame piece at result }
    ensures falls { Falls (meaning limit reader.now) (weight_at reader.now at 6) result }
{
    match frame {
        PatternFrame::Paren(goal) => {
            if reader.is_mark(at, CLOSE_PAREN) {
                return Ok(Step::Go(PatternState::Atom(goal, piece, at + 1)));
            }
            Ok(Step::Fail)
        }
        PatternFrame::Pair(left) => {
            let piece = pair_piece(alloc, limit, left, piece)?;
            Ok(Step::Go(PatternState::Atom(PatternGoal::Whole, piece, at)))
        }
    }
}

/// Goes on behind an atom of a pattern: with a further one, or with what waits for the pattern.
fn another(reader: &Reader<'_>, limit: u32, piece: PatternPiece, at: usize) -> PatternStep
    ensures holds { GoesOn (meaning limit reader.now) (pairs ∷ []) piece at (Ok result) }
    ensures falls { Falls (meaning limit reader.now) (weight_at reader.now at 2) (Ok result) }
{
    if reader.is_mark(at, MAPS_TO_SIGN) {
        let next = PatternState::Call(PatternGoal::Atom, at + 1);
        return Step::Push(PatternFrame::Pair(piece), next);
    }
    Step::Found(piece, at)
}

/// The machine that reads patterns.
#[derive(Drop)]
struct PatternMachine<'a> {
    reader: &'a Reader<'a>,
    alloc: Global,
    limit: u32,
}

impl<'a> Machine for PatternMachine<'a> {
    type Frame = PatternFrame;

    type State = PatternState;

    type Piece = PatternPiece;

    ghost use Rattle.ev_syntax.specs.Raw.{Pattern as BoundPattern};
    ghost use Rattle.ev_syntax.specs.inner.Machines.{Falls, GoesOn, Resumes, Starts, weight_at};
    ghost use Rattle.ev_syntax.specs.inner.PatternFrames.{pattern_at, pairs, meaning};

    ghost Tree = { BoundPattern };

    ghost meaning = { λ m. meaning m.limit m.reader.now };

    fn step(&self, state: PatternState) -> Result<PatternStep, NoMemory> {
        match state {
            PatternState::Call(goal, at) => call(self.reader, self.alloc, self.limit, goal, at),
            PatternState::Atom(PatternGoal::Atom, piece, at) => Ok(Step::Found(piece, at)),
            PatternState::Atom(PatternGoal::Whole, piece, at) => {
                Ok(another(self.reader, self.limit, piece, at))
            }
        }
    }

    fn resume(
        &self,
        frame: PatternFrame,
        piece: PatternPiece,
        at: usize,
    ) -> Result<PatternStep, NoMemory> {
        resume(self.reader, self.alloc, self.limit, frame, piece, at)
    }
}

/// Reads a pattern at a place: the pattern and the place behind it.
pub fn read_pattern(
    reader: &Reader<'_>,
    alloc: Global,
    limit: u32,
    at: usize,
) -> Result<Option<(PatternPiece, usize)>, NoMemory>
    requires { at ≤ length reader.now }
    ensures { IfOk result (PatternAnswer limit reader.now at) }
{
    let machine = PatternMachine {
        reader,
        alloc,
        limit,
    };
    let start = PatternState::Call(PatternGoal::Whole, at);
    run(&machine, alloc, start)
}
