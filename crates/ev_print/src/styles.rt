//! How symbols are written.
ghost use Rattle.std.specs.Prelude.{◌≡◌, slice_get};
ghost use Rattle.ev_print.specs.Styles.{base_styles, base_style, is_closed};

use ev_syntax::mark_names::{
    AND_SIGN, AT_MOST_SIGN, BIJECTION_SIGN, BOOL_WORD, CAP_SIGN, CARD_WORD, COMPOSITION_SIGN,
    CUP_SIGN, DOM_WORD, DOMAIN_RESTRICTION_SIGN, DOMAIN_SUBTRACTION_SIGN, EQUAL_SIGN,
    FALSE_VALUE_WORD, FALSE_WORD, FINITE_WORD, FOR_ALL_SIGN, FOR_SOME_SIGN, ID_WORD, IFF_SIGN,
    IMPLIES_SIGN, IN_SIGN, INTER_WORD, LESS_SIGN, MAPS_TO_SIGN, MAX_WORD, MIN_WORD, MINUS_SIGN,
    MOD_WORD, NAT_WORD, NAT1_WORD, OR_WORD, OVER_SIGN, OVERRIDE_SIGN, PARTIAL_FUNCTION_SIGN,
    PARTIAL_INJECTION_SIGN, PARTIAL_SURJECTION_SIGN, PLUS_SIGN, POW_WORD, POWER_SIGN, PRJ1_WORD,
    PRJ2_WORD, PRODUCT_SIGN, RAN_WORD, RANGE_RESTRICTION_SIGN, RANGE_SUBTRACTION_SIGN,
    RELATION_SIGN, SUBSET_SIGN, TIMES_SIGN, TOTAL_FUNCTION_SIGN, TOTAL_INJECTION_SIGN,
    TOTAL_SURJECTION_SIGN, TRUE_VALUE_WORD, TRUE_WORD, UNION_WORD, UP_TO_SIGN, WITHOUT_SIGN,
};

/// How a base symbol is written with its children. Signs and reserved words are marks, that is, rows of the table of spellings.
#[derive(Debug, Clone, Copy, PartialEq, Eq)]
pub enum Style {
    /// A reserved word alone.
    Word(u16),
    /// `{}`
    Braces,
    /// A sign or reserved word between two operands.
    Infix(u16),
    /// `not` before an operand.
    Not,
    /// `-` before an operand.
    Minus,
    /// `~` behind an operand.
    Inverse,
    /// A reserved word before a child in parentheses.
    Around(u16),
    /// `!` or `#`, a bound variable and a predicate.
    Quantifier(u16),
    /// `{x | P}`
    SetFormer,
    /// `TYPE` of a type.
    Whole,
    /// `r[S]`
    Image,
    /// `f(E)`
    Application,
}

/// The styles of the base symbols, by their rows in the table of base symbols.
static STYLES: [Style; 64] = [
    Style::Word(TRUE_WORD),
    Style::Word(FALSE_WORD),
    Style::Not,
    Style::Infix(AND_SIGN),
    Style::Infix(OR_WORD),
    Style::Infix(IMPLIES_SIGN),
    Style::Infix(IFF_SIGN),
    Style::Quantifier(FOR_ALL_SIGN),
    Style::Quantifier(FOR_SOME_SIGN),
    Style::Infix(EQUAL_SIGN),
    Style::Infix(IN_SIGN),
    Style::Infix(SUBSET_SIGN),
    Style::Infix(LESS_SIGN),
    Style::Infix(AT_MOST_SIGN),
    Style::Around(FINITE_WORD),
    Style::Word(TRUE_VALUE_WORD),
    Style::Word(FALSE_VALUE_WORD),
    Style::Around(BOOL_WORD),
    Style::Minus,
    Style::Infix(PLUS_SIGN),
    Style::Infix(MINUS_SIGN),
    Style::Infix(TIMES_SIGN),
    Style::Infix(OVER_SIGN),
    Style::Infix(MOD_WORD),
    Style::Infix(POWER_SIGN),
    Style::Whole,
    Style::Word(NAT_WORD),
    Style::Word(NAT1_WORD),
    Style::Braces,
    Style::SetFormer,
    Style::Infix(MAPS_TO_SIGN),
    Style::Infix(PRODUCT_SIGN),
    Style::Around(POW_WORD),
    Style::Infix(CUP_SIGN),
    Style::Infix(CAP_SIGN),
    Style::Infix(WITHOUT_SIGN),
    Style::Around(UNION_WORD),
    Style::Around(INTER_WORD),
    Style::Infix(RELATION_SIGN),
    Style::Infix(PARTIAL_FUNCTION_SIGN),
    Style::Infix(TOTAL_FUNCTION_SIGN),
    Style::Infix(PARTIAL_INJECTION_SIGN),
    Style::Infix(TOTAL_INJECTION_SIGN),
    Style::Infix(PARTIAL_SURJECTION_SIGN),
    Style::Infix(TOTAL_SURJECTION_SIGN),
    Style::Infix(BIJECTION_SIGN),
    Style::Around(DOM_WORD),
    Style::Around(RAN_WORD),
    Style::Inverse,
    Style::Infix(COMPOSITION_SIGN),
    Style::Infix(DOMAIN_RESTRICTION_SIGN),
    Style::Infix(DOMAIN_SUBTRACTION_SIGN),
    Style::Infix(RANGE_RESTRICTION_SIGN),
    Style::Infix(RANGE_SUBTRACTION_SIGN),
    Style::Infix(OVERRIDE_SIGN),
    Style::Image,
    Style::Application,
    Style::Word(ID_WORD),
    Style::Word(PRJ1_WORD),
    Style::Word(PRJ2_WORD),
    Style::Infix(UP_TO_SIGN),
    Style::Around(CARD_WORD),
    Style::Around(MIN_WORD),
    Style::Around(MAX_WORD),
];

fn styles() -> &'static [Style]
    ensures { result.now ≡ base_styles }
{
    &STYLES
}

fn style_in(styles: &'static [Style], row: u16) -> Option<Style>
    ensures { result ≡ slice_get styles.now row }
{
    styles.get(usize::from(row)).copied()
}

/// The style of a base symbol, and that of an application where there is no such row.
pub(crate) fn base_style(row: u16) -> Style
    ensures { result ≡ base_style row }
{
    style_in(styles(), row).unwrap_or(Style::Application)
}

/// Whether the text ends its own brackets, or has no operands.
pub(crate) fn is_closed(style: Style) -> bool
    ensures { result ≡ is_closed style }
{
    match style {
        Style::Word(_)
        | Style::Braces
        | Style::Around(_)
        | Style::SetFormer
        | Style::Whole
        | Style::Image
        | Style::Application => true,
        Style::Infix(_) | Style::Not | Style::Minus | Style::Inverse | Style::Quantifier(_) => {
            false
        }
    }
}
