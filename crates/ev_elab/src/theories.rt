//! Elaborated theories.
use ev_rules::Elements;
use ev_terms::{ListOf, Name, ObKind, Tree};

/// The kinds of faults of an element, in their order. `TooLarge` stands for formulas, and behind `NotAdmitted` for obligations and
/// equations.
#[derive(Debug, Clone, Copy, PartialEq, Eq, Drop)]
pub enum Kind {
    /// It is no text, has a character that begins no token, or a literal that is too large.
    Text,
    /// Its tokens are no element.
    Syntax,
    /// A formula or a type is nested too deeply.
    Deep,
    /// A name is not in scope.
    Unknown,
    /// A name is taken.
    Taken,
    /// A formula has no annotation, or a type is none.
    IllTyped,
    /// A formula has two annotations.
    Ambiguous,
    /// A formula, an obligation or an equation is larger than it may be.
    TooLarge,
    /// A datatype, an operator or a constant is not admitted.
    NotAdmitted,
}

/// A theory that a theory reaches, with its elements. A faulty one has none.
#[derive(Drop)]
pub struct Reached {
    pub name: Name,
    pub elements: Elements,
}

/// The theories that one import newly reaches, in order.
pub type ReachedList = ListOf<Reached>;

/// For each import that is read, in order, the theories that it newly reaches.
pub type Scope = ListOf<ReachedList>;

/// A sequent of a theory without variables and hypotheses: the number of its element, from 1, the label, which obligation it is, and
/// its goal.
#[derive(Drop)]
pub struct TheorySequent {
    pub element: u32,
    pub label: Name,
    pub kind: ObKind,
    pub goal: Tree,
}

pub type TheorySequents = ListOf<TheorySequent>;

/// An elaborated theory: its elements, and what has to be proved of them.
#[derive(Drop)]
pub struct Theory {
    pub elements: Elements,
    pub sequents: TheorySequents,
}
