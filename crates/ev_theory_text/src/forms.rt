//! Elements as they are written.
use ev_syntax::{Raw, RawType, Raws};
use ev_terms::{ListOf, Name, Names};

/// A name with a type: an argument, a destructor, or a variable of a rule.
#[derive(Drop)]
pub struct RawArg {
    pub name: Name,
    pub written: RawType,
}

pub type RawArgs = ListOf<RawArg>;

/// A constructor of a datatype, with its destructors.
#[derive(Drop)]
pub struct RawCon {
    pub name: Name,
    pub args: RawArgs,
}

pub type RawCons = ListOf<RawCon>;

/// What a head says behind its colon: `PRED`, or a type.
#[derive(Drop)]
pub enum RawResult {
    Predicate,
    Typed(RawType),
}

/// The head of an operator or of a constant.
#[derive(Drop)]
pub struct RawHead {
    pub name: Name,
    pub args: RawArgs,
    pub gives: RawResult,
}

/// One case of a recursive operator: a constructor, names for its arguments, and what the operator is there.
#[derive(Drop)]
pub struct RawCase {
    pub con: Name,
    pub vars: Names,
    pub body: Raw,
}

pub type RawCases = ListOf<RawCase>;

/// What an operator is: a formula, or cases by an argument.
#[derive(Drop)]
pub enum RawBody {
    Direct(Raw),
    Recursive(Name, RawCases),
}

/// A right side of a rewrite rule, with its condition where one stands there.
#[derive(Drop)]
pub struct RawBranch {
    pub condition: Option<Raw>,
    pub right: Raw,
}

pub type RawBranches = ListOf<RawBranch>;

/// The form of an element. Conditions, where they stand there, are those behind `WHERE`.
#[derive(Drop)]
pub enum ElementForm {
    Import(Name),
    Param(Names),
    /// A datatype, its parameters and its constructors.
    Datatype(Name, Names, RawCons),
    /// Its head, its condition and its body.
    Operator(RawHead, Option<Raw>, RawBody),
    /// Its head and its condition.
    Constant(RawHead, Option<Raw>),
    Axiom(Name, Raw),
    Theorem(Name, Raw),
    /// Its label, its variables, its left side, its right sides, and whether `COMPLETE` stands there.
    Rewrite(Name, RawArgs, Raw, RawBranches, bool),
    /// Its label, its variables, its givens, and what is inferred.
    Inference(Name, RawArgs, Raws, Raw),
}
