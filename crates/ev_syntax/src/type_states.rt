//! What the reader of types has to do.
use crate::machines::Step;
use crate::read_pieces::Piece;
use crate::written::{RawType, RawTypes};
use ev_terms::Name;

/// A type, or one that is no product outside parentheses.
#[derive(Clone, Copy, PartialEq, Eq, Drop)]
pub(crate) enum TypeGoal {
    Atom,
    Whole,
}

/// What is left to do once a type is found: to end what an open parenthesis begins, after `POW(`, after a factor and `**`, after some
/// types of a name. What is then found is an atom of the goal.
#[derive(Drop)]
pub(crate) enum TypeFrame {
    Paren(TypeGoal),
    Pow(TypeGoal),
    Factor(Piece<RawType>),
    Types(Name, Piece<RawTypes>, TypeGoal),
}

/// To read a type at a place, or to go on behind an atom.
#[derive(Drop)]
pub(crate) enum TypeState {
    Call(TypeGoal, usize),
    Atom(TypeGoal, Piece<RawType>, usize),
}

pub(crate) type TypeStep = Step<TypeFrame, TypeState, Piece<RawType>>;
