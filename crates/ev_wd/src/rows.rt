//! How the condition of a base symbol is made, by its row in the table of base symbols.
ghost use Rattle.std.specs.Prelude.{◌≡◌};
ghost use Rattle.ev_wd.specs.Demands.{rule_of, demand_of};

use ev_terms::symbols::{
    AND, APPLY, BIG_INTER, CARD, FOR_ALL, FOR_SOME, IMPLIES, MAX, MIN, MOD, OR, OVER, POWER, SET,
};

/// How the conditions of a base symbol's children come together.
#[derive(Debug, Clone, Copy, PartialEq, Eq)]
pub enum Rule {
    /// The second child's where the first child holds.
    Both,
    /// The second child's where the first child does not hold.
    Either,
    /// The child's for each value of the bound variable.
    Bound,
    /// Those of all children, and what the symbol asks besides.
    Children(Demand),
}

/// What a base symbol asks beside the conditions of its children.
#[derive(Debug, Clone, Copy, PartialEq, Eq)]
pub enum Demand {
    Nothing,
    Application,
    Quotient,
    Remainder,
    Power,
    Cardinality,
    Intersection,
    Minimum,
    Maximum,
}

pub(crate) fn demand_of(row: u16) -> Demand
    ensures { result ≡ demand_of row }
{
    if row == APPLY {
        return Demand::Application;
    }
    if row == OVER {
        return Demand::Quotient;
    }
    if row == MOD {
        return Demand::Remainder;
    }
    if row == POWER {
        return Demand::Power;
    }
    if row == CARD {
        return Demand::Cardinality;
    }
    if row == BIG_INTER {
        return Demand::Intersection;
    }
    if row == MIN {
        return Demand::Minimum;
    }
    if row == MAX {
        return Demand::Maximum;
    }
    Demand::Nothing
}

pub(crate) fn rule_of(row: u16) -> Rule
    ensures { result ≡ rule_of row }
{
    if row == AND || row == IMPLIES {
        return Rule::Both;
    }
    if row == OR {
        return Rule::Either;
    }
    if (row == FOR_ALL || row == FOR_SOME) || row == SET {
        return Rule::Bound;
    }
    Rule::Children(demand_of(row))
}
