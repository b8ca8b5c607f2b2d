//! The steps that build a row of the table, each on a stack of terms.

/// The type arguments of a symbol, over the type parameters A, B and C.
#[derive(Clone, Copy)]
pub(crate) enum Args {
    NoType,
    A,
    B,
    C,
    Int,
    Bool,
    SetA,
    SetB,
    SetInt,
    SetSetA,
    PairAB,
    PairBA,
    PairAC,
    PairBC,
    PairAA,
    /// (A ** B) ** A
    PairABA,
    /// (A ** B) ** B
    PairABB,
    /// POW(A ** B)
    RelationAB,
    RelationBC,
    AB,
    BA,
    AC,
    BC,
    AA,
    ABC,
    /// A ** B and A
    FirstOf,
    /// A ** B and B
    SecondOf,
}

/// A step puts a term on the stack: a variable by the number of binders between, a number, or a base symbol at type arguments with as
/// many children as it says, which it takes from there.
#[derive(Clone, Copy)]
pub(crate) enum Step {
    Var(u32),
    Lit(u32),
    Leaf(u16, Args),
    One(u16, Args),
    Two(u16, Args),
}
