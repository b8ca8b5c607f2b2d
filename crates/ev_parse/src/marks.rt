//! What the marks are to the grammar.
ghost use Rattle.std.specs.Prelude.{◌≡◌, ◌≤◌};
ghost use Rattle.ev_syntax.specs.Parts.{is_among, relation_signs};
ghost use Rattle.ev_syntax.specs.inner.FormulaParser.{words, calls};
ghost use Rattle.ev_parse.specs.inner.Levels.{operator_level};

use ev_syntax::mark_names::{
    AT_LEAST_SIGN, AT_MOST_SIGN, BOOL_SET_WORD, CARD_WORD, DOM_WORD, EQUAL_SIGN, FALSE_VALUE_WORD,
    GREATER_SIGN, ID_WORD, IN_SIGN, INT_WORD, INTER_WORD, LESS_SIGN, MAX_WORD, MIN_WORD, NAT_WORD,
    NAT1_WORD, NOT_EQUAL_SIGN, NOT_IN_SIGN, NOT_SUBSET_SIGN, POW_WORD, PRJ1_WORD, PRJ2_WORD,
    RAN_WORD, SUBSET_SIGN, TRUE_VALUE_WORD, UNION_WORD,
};

/// The level of each infix sign of expressions, by the row of the sign, and 0 for other marks.
pub static LEVELS: [u8; 103] = [
    0, 0, 0, 0, 0, 0, 0, 0, 0, 0, 0, 0, 0, 0, 0, 1, 2, 2, 2, 2, 2, 2, 2, 2, 3, 3, 3, 3, 3, 3, 3, 3,
    3, 3, 4, 5, 5, 6, 6, 8, 0, 0, 0, 0, 0, 0, 0, 0, 0, 0, 0, 0, 0, 0, 0, 0, 0, 0, 0, 0, 0, 0, 0, 0,
    0, 0, 0, 0, 6, 0, 0, 0, 0, 0, 0, 0, 0, 0, 0, 0, 0, 0, 0, 0, 0, 0, 0, 0, 0, 0, 0, 0, 0, 0, 0, 0,
    0, 0, 0, 0, 0, 0, 0,
];

/// The level of an infix sign of expressions, or 0.
#[tactic(auto, using(crate::proofs::Operators::operator_rows))]
pub(crate) fn operator_level(mark: u16) -> u8
    ensures is { result ≡ operator_level mark }
    ensures few { result ≤ 8 }
{
    if (mark as usize) < LEVELS.len() {
        LEVELS[mark as usize]
    } else {
        0
    }
}

/// Whether the word stands alone as an expression.
pub(crate) fn is_word(mark: u16) -> bool
    ensures { result ≡ is_among words mark }
{
    mark == TRUE_VALUE_WORD
        || mark == FALSE_VALUE_WORD
        || mark == INT_WORD
        || mark == BOOL_SET_WORD
        || mark == NAT_WORD
        || mark == NAT1_WORD
        || mark == ID_WORD
        || mark == PRJ1_WORD
        || mark == PRJ2_WORD
}

/// Whether the word stands before an expression in parentheses.
pub(crate) fn is_call(mark: u16) -> bool
    ensures { result ≡ is_among calls mark }
{
    mark == POW_WORD
        || mark == UNION_WORD
        || mark == INTER_WORD
        || mark == DOM_WORD
        || mark == RAN_WORD
        || mark == CARD_WORD
        || mark == MIN_WORD
        || mark == MAX_WORD
}

/// Whether the sign is that of a relation.
pub(crate) fn is_relation(mark: u16) -> bool
    ensures { result ≡ is_among relation_signs mark }
{
    mark == EQUAL_SIGN
        || mark == NOT_EQUAL_SIGN
        || mark == IN_SIGN
        || mark == NOT_IN_SIGN
        || mark == SUBSET_SIGN
        || mark == NOT_SUBSET_SIGN
        || mark == LESS_SIGN
        || mark == AT_MOST_SIGN
        || mark == GREATER_SIGN
        || mark == AT_LEAST_SIGN
}
