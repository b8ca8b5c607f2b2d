//! Laws of inference.
ghost use Rattle.ev_infer.specs.Laws.{NoEquationsNoAnnotation, AnnotationsAreSolutions, ClashNoAnnotation, FreeTwoAnnotations, ClosedOnlyAnnotation, AnswersBare, NoBareNoAnnotation};

/// A raw tree without equations has no annotation, and otherwise the annotations are the solutions of its equations by proper types.
/// So there is none where no types solve them, there are two where a most general solution leaves a type free in the solved tree, and
/// one where it leaves none.
pub fn inference_laws()
    ensures no_equations { NoEquationsNoAnnotation }
    ensures solutions { AnnotationsAreSolutions }
    ensures clash { ClashNoAnnotation }
    ensures free { FreeTwoAnnotations }
    ensures closed { ClosedOnlyAnnotation }
{}

/// What `annotate` answers of a bare term is so of the annotations of its raw tree, where no binder has a formula name. A raw tree that
/// gives no bare term has no annotation.
pub fn answer_laws()
    ensures answers { AnswersBare }
    ensures no_bare { NoBareNoAnnotation }
{}
