//! The canonical text of a term has one annotation, the term itself.
#![tactic(auto)]

ghost use Rattle.ev_readback.specs.OnlyAnnotation.{TextAnnotatesBack, TextMeansItsTerm};

/// What the canonical text of a typed term says before types are inferred is annotated by the term, and by no other.
pub fn text_annotates_back()
    ensures { TextAnnotatesBack }
{}

/// The canonical text of a typed term, as bytes: it has tokens, these are exactly one formula of its sort, and the only annotation of
/// this formula is the term.
pub fn text_means_its_term()
    ensures { TextMeansItsTerm }
{}
