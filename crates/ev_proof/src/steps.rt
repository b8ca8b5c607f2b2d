//! The steps of proofs, as they are read.
use ev_syntax::{Raw, RawType, Raws};
use ev_terms::{ListOf, Name, Nums};

/// A label of a theory.
#[derive(Drop)]
pub struct Ref {
    pub theory: Name,
    pub label: Name,
}

pub type Refs = ListOf<Ref>;

/// The types and terms of a citation. A part that does not stand there is empty.
#[derive(Drop)]
pub struct Cite {
    pub types: ListOf<RawType>,
    pub terms: Raws,
}

/// A step of a proof. Its numbers are as they are written; places are child numbers.
#[derive(Drop)]
pub enum Step {
    Hyp,
    TrueI,
    Em,
    Refl,
    SetMem,
    BoolMem,
    Calc,
    /// Numbers of hypotheses.
    Weak(Nums),
    Cut(Raw),
    FalseE,
    NotI,
    AndI,
    OrI1,
    OrI2,
    ImpI,
    IffI,
    AllI,
    Sym,
    Cong,
    /// By a predicate and its negation.
    Note(Raw),
    AndE1(Raw),
    AndE2(Raw),
    OrE(Raw),
    ImpE(Raw),
    IffE1(Raw),
    IffE2(Raw),
    AllE(Raw, Raw),
    ExI(Raw),
    ExE(Raw),
    Trans(Raw),
    Axiom(u128, Cite),
    Theorem(Ref, Cite),
    /// An axiom of a theory.
    Assume(Ref, Cite),
    /// Two constructors.
    Dis(Name, Name, Cite),
    /// An inference rule.
    Infer(Ref, Cite),
    /// A rewrite rule, the number of its right side, and where.
    Rewrite(Ref, u128, Nums, Cite),
    /// A complete rewrite rule, and where.
    Cases(Ref, Nums, Cite),
    Unfold(Nums),
    Fold(Name, Nums, Cite),
    Recur(Nums),
    Con(Nums),
    Induct,
    /// The goal is left.
    Open,
}

/// The lines of a proof that are not blank, each with its step, if it is one.
pub type StepLines = ListOf<Option<Step>>;
