//! The law of canonical texts.
ghost use Rattle.ev_print.specs.ReadBack.{TextReadsBack};

/// The canonical text of a typed term has tokens, which are exactly one formula of its sort: the one that the term is written as.
/// Names of the environment are names, and none is `v` and digits.
pub fn text_reads_back()
    ensures { TextReadsBack }
{}
