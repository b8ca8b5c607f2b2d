//! Laws of tokens.
ghost use Rattle.ev_syntax.specs.Laws.{AtMostOneList, ConstantsAreMarks, MarksAreSpellings, SpansAreInOrder};

/// Each mark by name is the row of its spelling, in the definitions and in the code. A text has at most one list of tokens. Its spans are in order, and each token is what its bytes are.
pub fn token_laws()
    ensures marks { MarksAreSpellings }
    ensures constants { ConstantsAreMarks }
    ensures one { AtMostOneList }
    ensures spans { SpansAreInOrder }
{}
