//! What the reader of patterns has to do.
use crate::binders::Pattern;
use crate::machines::Step;

/// A pattern, its nesting and the number of its names, or one that nests too deeply and is not built.
#[derive(Drop)]
pub enum PatternPiece {
    Whole(Pattern, u64, u64),
    Deep,
}

/// A pattern, or one that is no pair outside parentheses.
#[derive(Clone, Copy, PartialEq, Eq, Drop)]
pub(crate) enum PatternGoal {
    Atom,
    Whole,
}

/// What is left to do once a pattern is found: to end what an open parenthesis begins, after a pattern and `|->`.
#[derive(Drop)]
pub(crate) enum PatternFrame {
    Paren(PatternGoal),
    Pair(PatternPiece),
}

/// To read a pattern at a place, or to go on behind an atom.
#[derive(Drop)]
pub(crate) enum PatternState {
    Call(PatternGoal, usize),
    Atom(PatternGoal, PatternPiece, usize),
}

pub(crate) type PatternStep = Step<PatternFrame, PatternState, PatternPiece>;
