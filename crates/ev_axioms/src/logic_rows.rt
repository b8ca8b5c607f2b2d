//! The rows of truth values and of sets. Each is written as its table has it, and then as the steps that build it.
use crate::steps::Args::{A, Bool, NoType, SetA, SetSetA};
use crate::steps::Step::{self, Leaf, One, Two, Var};
use ev_terms::symbols::{
    AND, BIG_INTER, BIG_UNION, CAP, CUP, EMPTY, EQUAL, FALSE_VALUE, FOR_ALL, FOR_SOME, IFF,
    IMPLIES, IN, NOT, OR, POW, SUBSET, TRUE, TRUE_VALUE, TYPE, WITHOUT,
};

pub(crate) static VALUES: [&[Step]; 3] = [
    // 1: #x. true
    &[Leaf(TRUE, NoType), One(FOR_SOME, A)],
    // 2: b = TRUE or b = FALSE
    &[
        Var(0),
        Leaf(TRUE_VALUE, NoType),
        Two(EQUAL, Bool),
        Var(0),
        Leaf(FALSE_VALUE, NoType),
        Two(EQUAL, Bool),
        Two(OR, NoType),
        One(FOR_ALL, Bool),
    ],
    // 3: not TRUE = FALSE
    &[
        Leaf(TRUE_VALUE, NoType),
        Leaf(FALSE_VALUE, NoType),
        Two(EQUAL, Bool),
        One(NOT, NoType),
    ],
];

pub(crate) static SETS: [&[Step]; 5] = [
    // 4: (!x. x : S <=> x : T) => S = T
    &[
        Var(0),
        Var(2),
        Two(IN, A),
        Var(0),
        Var(1),
        Two(IN, A),
        Two(IFF, NoType),
        One(FOR_ALL, A),
        Var(1),
        Var(0),
        Two(EQUAL, SetA),
        Two(IMPLIES, NoType),
        One(FOR_ALL, SetA),
        One(FOR_ALL, SetA),
    ],
    // 5: x : ?0
    &[Var(0), Leaf(TYPE, A), Two(IN, A), One(FOR_ALL, A)],
    // 6: not x : {}
    &[
        Var(0),
        Leaf(EMPTY, A),
        Two(IN, A),
        One(NOT, NoType),
        One(FOR_ALL, A),
    ],
    // 7: S <: T <=> (!x. x : S => x : T)
    &[
        Var(1),
        Var(0),
        Two(SUBSET, A),
        Var(0),
        Var(2),
        Two(IN, A),
        Var(0),
        Var(1),
        Two(IN, A),
        Two(IMPLIES, NoType),
        One(FOR_ALL, A),
        Two(IFF, NoType),
        One(FOR_ALL, SetA),
        One(FOR_ALL, SetA),
    ],
    // 8: x : S \/ T <=> x : S or x : T
    &[
        Var(2),
        Var(1),
        Var(0),
        Two(CUP, A),
        Two(IN, A),
        Var(2),
        Var(1),
        Two(IN, A),
        Var(2),
        Var(0),
        Two(IN, A),
        Two(OR, NoType),
        Two(IFF, NoType),
        One(FOR_ALL, SetA),
        One(FOR_ALL, SetA),
        One(FOR_ALL, A),
    ],
];

pub(crate) static MORE_SETS: [&[Step]; 5] = [
    // 9: x : S /\ T <=> x : S & x : T
    &[
        Var(2),
        Var(1),
        Var(0),
        Two(CAP, A),
        Two(IN, A),
        Var(2),
        Var(1),
        Two(IN, A),
        Var(2),
        Var(0),
        Two(IN, A),
        Two(AND, NoType),
        Two(IFF, NoType),
        One(FOR_ALL, SetA),
        One(FOR_ALL, SetA),
        One(FOR_ALL, A),
    ],
    // 10: x : S \ T <=> x : S & not x : T
    &[
        Var(2),
        Var(1),
        Var(0),
        Two(WITHOUT, A),
        Two(IN, A),
        Var(2),
        Var(1),
        Two(IN, A),
        Var(2),
        Var(0),
        Two(IN, A),
        One(NOT, NoType),
        Two(AND, NoType),
        Two(IFF, NoType),
        One(FOR_ALL, SetA),
        One(FOR_ALL, SetA),
        One(FOR_ALL, A),
    ],
    // 11: S : POW(T) <=> S <: T
    &[
        Var(1),
        Var(0),
        One(POW, A),
        Two(IN, SetA),
        Var(1),
        Var(0),
        Two(SUBSET, A),
        Two(IFF, NoType),
        One(FOR_ALL, SetA),
        One(FOR_ALL, SetA),
    ],
    // 12: x : union(F) <=> (#S. S : F & x : S)
    &[
        Var(1),
        Var(0),
        One(BIG_UNION, A),
        Two(IN, A),
        Var(0),
        Var(1),
        Two(IN, SetA),
        Var(2),
        Var(0),
        Two(IN, A),
        Two(AND, NoType),
        One(FOR_SOME, SetA),
        Two(IFF, NoType),
        One(FOR_ALL, SetSetA),
        One(FOR_ALL, A),
    ],
    // 13: not F = {} => (x : inter(F) <=> (!S. S : F => x : S))
    &[
        Var(1),
        Leaf(EMPTY, SetA),
        Two(EQUAL, SetSetA),
        One(NOT, NoType),
        Var(0),
        Var(1),
        One(BIG_INTER, A),
        Two(IN, A),
        Var(0),
        Var(2),
        Two(IN, SetA),
        Var(1),
        Var(0),
        Two(IN, A),
        Two(IMPLIES, NoType),
        One(FOR_ALL, SetA),
        Two(IFF, NoType),
        Two(IMPLIES, NoType),
        One(FOR_ALL, A),
        One(FOR_ALL, SetSetA),
    ],
];
