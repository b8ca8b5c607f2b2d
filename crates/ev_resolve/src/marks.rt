//! What the marks before, around and between operands mean.
ghost use Rattle.std.specs.Prelude.{◌≡◌, map, option_map};
ghost use Rattle.ev_resolve.specs.Reading.{entry_of, infix_symbols, prefix_symbols, around_symbols, word_symbols};
ghost use Rattle.ev_resolve.specs.inner.Marked.{plain_of};

use ev_syntax::mark_names::{
    AND_SIGN, AT_LEAST_SIGN, AT_MOST_SIGN, BIJECTION_SIGN, BOOL_WORD, CAP_SIGN, CARD_WORD,
    COMPOSITION_SIGN, CUP_SIGN, DOM_WORD, DOMAIN_RESTRICTION_SIGN, DOMAIN_SUBTRACTION_SIGN,
    EQUAL_SIGN, FALSE_VALUE_WORD, FALSE_WORD, FINITE_WORD, GREATER_SIGN, ID_WORD, IFF_SIGN,
    IMPLIES_SIGN, IN_SIGN, INTER_WORD, LESS_SIGN, MAPS_TO_SIGN, MAX_WORD, MIN_WORD, MINUS_SIGN,
    MOD_WORD, NAT_WORD, NAT1_WORD, NOT_EQUAL_SIGN, NOT_IN_SIGN, NOT_SUBSET_SIGN, NOT_WORD, OR_WORD,
    OVER_SIGN, OVERRIDE_SIGN, PARTIAL_FUNCTION_SIGN, PARTIAL_INJECTION_SIGN,
    PARTIAL_SURJECTION_SIGN, PLUS_SIGN, POW_WORD, POWER_SIGN, PRJ1_WORD, PRJ2_WORD, PRODUCT_SIGN,
    RAN_WORD, RANGE_RESTRICTION_SIGN, RANGE_SUBTRACTION_SIGN, RELATION_SIGN, SUBSET_SIGN,
    TIMES_SIGN, TOTAL_FUNCTION_SIGN, TOTAL_INJECTION_SIGN, TOTAL_SURJECTION_SIGN, TRUE_VALUE_WORD,
    TRUE_WORD, UNION_WORD, UP_TO_SIGN, WITHOUT_SIGN,
};

/// A mark, and the row of its base symbol; whether the operands change places, and whether `not` stands before it all.
#[derive(Debug, Clone, Copy, PartialEq, Eq, Drop)]
pub struct Marked {
    pub mark: u16,
    pub row: u16,
    pub swapped: bool,
    pub negated: bool,
}

/// Marks between operands.
static INFIX: [Marked; 40] = [
    Marked {
        mark: NOT_EQUAL_SIGN,
        row: 9,
        swapped: false,
        negated: true,
    },
    Marked {
        mark: NOT_IN_SIGN,
        row: 10,
        swapped: false,
        negated: true,
    },
    Marked {
        mark: NOT_SUBSET_SIGN,
        row: 11,
        swapped: false,
        negated: true,
    },
    Marked {
        mark: GREATER_SIGN,
        row: 12,
        swapped: true,
        negated: false,
    },
    Marked {
        mark: AT_LEAST_SIGN,
        row: 13,
        swapped: true,
        negated: false,
    },
    Marked {
        mark: AND_SIGN,
        row: 3,
        swapped: false,
        negated: false,
    },
    Marked {
        mark: OR_WORD,
        row: 4,
        swapped: false,
        negated: false,
    },
    Marked {
        mark: IMPLIES_SIGN,
        row: 5,
        swapped: false,
        negated: false,
    },
    Marked {
        mark: IFF_SIGN,
        row: 6,
        swapped: false,
        negated: false,
    },
    Marked {
        mark: EQUAL_SIGN,
        row: 9,
        swapped: false,
        negated: false,
    },
    Marked {
        mark: IN_SIGN,
        row: 10,
        swapped: false,
        negated: false,
    },
    Marked {
        mark: SUBSET_SIGN,
        row: 11,
        swapped: false,
        negated: false,
    },
    Marked {
        mark: LESS_SIGN,
        row: 12,
        swapped: false,
        negated: false,
    },
    Marked {
        mark: AT_MOST_SIGN,
        row: 13,
        swapped: false,
        negated: false,
    },
    Marked {
        mark: MAPS_TO_SIGN,
        row: 30,
        swapped: false,
        negated: false,
    },
    Marked {
        mark: RELATION_SIGN,
        row: 38,
        swapped: false,
        negated: false,
    },
    Marked {
        mark: PARTIAL_FUNCTION_SIGN,
        row: 39,
        swapped: false,
        negated: false,
    },
    Marked {
        mark: TOTAL_FUNCTION_SIGN,
        row: 40,
        swapped: false,
        negated: false,
    },
    Marked {
        mark: PARTIAL_INJECTION_SIGN,
        row: 41,
        swapped: false,
        negated: false,
    },
    Marked {
        mark: TOTAL_INJECTION_SIGN,
        row: 42,
        swapped: false,
        negated: false,
    },
    Marked {
        mark: PARTIAL_SURJECTION_SIGN,
        row: 43,
        swapped: false,
        negated: false,
    },
    Marked {
        mark: TOTAL_SURJECTION_SIGN,
        row: 44,
        swapped: false,
        negated: false,
    },
    Marked {
        mark: BIJECTION_SIGN,
        row: 45,
        swapped: false,
        negated: false,
    },
    Marked {
        mark: CUP_SIGN,
        row: 33,
        swapped: false,
        negated: false,
    },
    Marked {
        mark: CAP_SIGN,
        row: 34,
        swapped: false,
        negated: false,
    },
    Marked {
        mark: WITHOUT_SIGN,
        row: 35,
        swapped: false,
        negated: false,
    },
    Marked {
        mark: PRODUCT_SIGN,
        row: 31,
        swapped: false,
        negated: false,
    },
    Marked {
        mark: COMPOSITION_SIGN,
        row: 49,
        swapped: false,
        negated: false,
    },
    Marked {
        mark: OVERRIDE_SIGN,
        row: 54,
        swapped: false,
        negated: false,
    },
    Marked {
        mark: DOMAIN_RESTRICTION_SIGN,
        row: 50,
        swapped: false,
        negated: false,
    },
    Marked {
        mark: DOMAIN_SUBTRACTION_SIGN,
        row: 51,
        swapped: false,
        negated: false,
    },
    Marked {
        mark: RANGE_RESTRICTION_SIGN,
        row: 52,
        swapped: false,
        negated: false,
    },
    Marked {
        mark: RANGE_SUBTRACTION_SIGN,
        row: 53,
        swapped: false,
        negated: false,
    },
    Marked {
        mark: UP_TO_SIGN,
        row: 60,
        swapped: false,
        negated: false,
    },
    Marked {
        mark: PLUS_SIGN,
        row: 19,
        swapped: false,
        negated: false,
    },
    Marked {
        mark: MINUS_SIGN,
        row: 20,
        swapped: false,
        negated: false,
    },
    Marked {
        mark: TIMES_SIGN,
        row: 21,
        swapped: false,
        negated: false,
    },
    Marked {
        mark: OVER_SIGN,
        row: 22,
        swapped: false,
        negated: false,
    },
    Marked {
        mark: POWER_SIGN,
        row: 24,
        swapped: false,
        negated: false,
    },
    Marked {
        mark: MOD_WORD,
        row: 23,
        swapped: false,
        negated: false,
    },
];

/// Marks before an operand.
static PREFIX: [Marked; 2] = [
    Marked {
        mark: NOT_WORD,
        row: 2,
        swapped: false,
        negated: false,
    },
    Marked {
        mark: MINUS_SIGN,
        row: 18,
        swapped: false,
        negated: false,
    },
];

/// Words before parentheses.
static AROUND: [Marked; 10] = [
    Marked {
        mark: FINITE_WORD,
        row: 14,
        swapped: false,
        negated: false,
    },
    Marked {
        mark: BOOL_WORD,
        row: 17,
        swapped: false,
        negated: false,
    },
    Marked {
        mark: POW_WORD,
        row: 32,
        swapped: false,
        negated: false,
    },
    Marked {
        mark: UNION_WORD,
        row: 36,
        swapped: false,
        negated: false,
    },
    Marked {
        mark: INTER_WORD,
        row: 37,
        swapped: false,
        negated: false,
    },
    Marked {
        mark: DOM_WORD,
        row: 46,
        swapped: false,
        negated: false,
    },
    Marked {
        mark: RAN_WORD,
        row: 47,
        swapped: false,
        negated: false,
    },
    Marked {
        mark: CARD_WORD,
        row: 61,
        swapped: false,
        negated: false,
    },
    Marked {
        mark: MIN_WORD,
        row: 62,
        swapped: false,
        negated: false,
    },
    Marked {
        mark: MAX_WORD,
        row: 63,
        swapped: false,
        negated: false,
    },
];

/// Words alone.
static WORDS: [Marked; 9] = [
    Marked {
        mark: TRUE_WORD,
        row: 0,
        swapped: false,
        negated: false,
    },
    Marked {
        mark: FALSE_WORD,
        row: 1,
        swapped: false,
        negated: false,
    },
    Marked {
        mark: TRUE_VALUE_WORD,
        row: 15,
        swapped: false,
        negated: false,
    },
    Marked {
        mark: FALSE_VALUE_WORD,
        row: 16,
        swapped: false,
        negated: false,
    },
    Marked {
        mark: NAT_WORD,
        row: 26,
        swapped: false,
        negated: false,
    },
    Marked {
        mark: NAT1_WORD,
        row: 27,
        swapped: false,
        negated: false,
    },
    Marked {
        mark: ID_WORD,
        row: 57,
        swapped: false,
        negated: false,
    },
    Marked {
        mark: PRJ1_WORD,
        row: 58,
        swapped: false,
        negated: false,
    },
    Marked {
        mark: PRJ2_WORD,
        row: 59,
        swapped: false,
        negated: false,
    },
];

/// The entry of a mark in a table.
fn entry_in(table: &[Marked], mark: u16) -> Option<Marked>
    ensures { option_map plain_of result ≡ entry_of (map plain_of table.now) mark }
{
    match table {
        [] => None,
        [first, rest @ ..] => {
            if first.mark == mark {
                Some(*first)
            } else {
                entry_in(rest, mark)
            }
        }
    }
}

/// The symbol of a mark between operands.
pub fn infix_symbol(mark: u16) -> Option<Marked>
    ensures { option_map plain_of result ≡ entry_of infix_symbols mark }
{
    entry_in(&INFIX, mark)
}

/// The symbol of a mark before an operand.
pub fn prefix_symbol(mark: u16) -> Option<Marked>
    ensures { option_map plain_of result ≡ entry_of prefix_symbols mark }
{
    entry_in(&PREFIX, mark)
}

/// The symbol of a word before parentheses.
pub fn around_symbol(mark: u16) -> Option<Marked>
    ensures { option_map plain_of result ≡ entry_of around_symbols mark }
{
    entry_in(&AROUND, mark)
}

/// The symbol of a word alone.
pub fn word_symbol(mark: u16) -> Option<Marked>
    ensures { option_map plain_of result ≡ entry_of word_symbols mark }
{
    entry_in(&WORDS, mark)
}
