//! What the reader of formulas has to do.
use ev_syntax::binders::{Binder, Binders};
use ev_syntax::formulas::{Raw, Raws};
use ev_syntax::machines::Step;
use ev_syntax::pattern_states::PatternPiece;
use ev_syntax::read_pieces::Piece;
use ev_syntax::reader::Reader;
use ev_terms::Name;
use std::alloc::Global;

/// The tokens that are read, where trees are kept, and how deep they may nest.
#[derive(Clone, Copy)]
pub(crate) struct Source<'a> {
    pub reader: &'a Reader<'a>,
    pub alloc: Global,
    pub limit: u32,
}

/// A formula and its nesting, or one that nests too deeply and is not built: whether that is a name, with arguments or with none.
#[derive(Drop)]
pub enum RawPiece {
    Whole(Raw, u64),
    Deep(bool),
}

/// A literal, a conjunction or disjunction, a predicate.
#[derive(Clone, Copy, PartialEq, Eq, Drop)]
pub(crate) enum Stage {
    Lit,
    Conj,
    Pred,
}

/// An expression of a level, or a predicate of a stage.
#[derive(Clone, Copy, PartialEq, Eq, Drop)]
pub(crate) enum Goal {
    Level(u8),
    Stage(Stage),
}

/// What is left to do once a formula is found. A level or stage is that of the formula to which it leads.
#[derive(Drop)]
pub(crate) enum Frame {
    /// After `(`, an expression.
    Paren(u8),
    /// After a reserved word and `(`.
    Around(u16, u8),
    /// After a name, `(` and some arguments.
    Args(Name, Piece<Raws>, u8),
    /// After `{` and some members.
    Members(Piece<Raws>, u8),
    /// After `{x |`
    SetBody(Piece<Binder>, u8),
    /// After `E(`
    Argument(RawPiece, u8),
    /// After `E[`
    Image(RawPiece, u8),
    /// After an operand and an infix sign, by the level of the sign.
    Right(u16, u8, RawPiece, u8),
    /// After `-`
    Minus(u8),
    /// After `{xs .`, `UNION xs .` or `INTER xs .`
    Body(u16, Piece<Binders>, u8),
    /// The same, behind `|`.
    Value(u16, Piece<Binders>, RawPiece, u8),
    /// After `%p .`
    LambdaBody(PatternPiece),
    /// After `%p . P |`
    LambdaValue(PatternPiece, RawPiece),
    /// After `not`
    Not(Stage),
    /// After `!xs .` or `#xs .`
    Quantified(u16, Piece<Binders>, Stage),
    /// After `finite(`
    Finite(Stage),
    /// After `(`, a predicate.
    Inner(Stage),
    /// Before a relation, or a name that is a predicate.
    Related(Stage),
    /// After an expression and the sign of a relation.
    Relation(u16, RawPiece, Stage),
    /// After a literal and `&` or `or`.
    Connective(u16, RawPiece, Stage),
    /// After a predicate and `=>` or `<=>`.
    Implication(u16, RawPiece),
}

/// What is to be done: to read a formula of a goal at a place, or to go on behind one.
#[derive(Drop)]
pub(crate) enum State {
    Call(Goal, usize),
    /// Behind a primary.
    Primary(RawPiece, usize, u8),
    /// Behind an operand, before the signs of the levels below the first and from the second on.
    Operand(RawPiece, usize, u8, u8),
    /// Behind a literal.
    Literal(RawPiece, usize, Stage),
    /// Behind a literal of a chain of `&` or `or`.
    Chain(u16, RawPiece, usize, Stage),
    /// Behind a conjunction or disjunction.
    Conjunct(RawPiece, usize, Stage),
}

pub(crate) type FormulaStep = Step<Frame, State, RawPiece>;
