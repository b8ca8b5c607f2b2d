//! Laws of the grammar.
ghost use Rattle.ev_syntax.specs.GrammarLaws.{AtMostOneTree, BothAreCalls, CallsAreBoth, CommaEndsFormula, CommaEndsRun};

/// Tokens are at most one formula of a sort, and those that are a predicate and an expression are a name, with arguments or with none.
/// No longer tokens of the sort go on from a formula with a comma, so a list of formulas is cut in one way.
pub fn grammar_laws()
    ensures one { AtMostOneTree }
    ensures both { BothAreCalls }
    ensures calls { CallsAreBoth }
    ensures comma { CommaEndsFormula }
    ensures comma_run { CommaEndsRun }
{}
