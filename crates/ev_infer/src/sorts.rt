//! What the type equations of a term are written in.
ghost use Rattle.std.specs.Prelude.{◌≡◌, ◌+◌};

use ev_unify::Pat;

/// What a term is: a predicate, or an expression of a type.
#[derive(Drop)]
pub enum Sort {
    Predicate,
    Expression(Pat),
}

/// What a walk over a term leaves, beside its pairs: the first unknown that is not used, and the term's sort.
#[derive(Drop)]
pub struct Walked {
    pub next: u128,
    pub sort: Sort,
}

/// A node's type arguments, and the first unknown that is not used.
#[derive(Drop)]
pub struct NodePats {
    pub types: Vec<Pat>,
    pub next: u128,
}
