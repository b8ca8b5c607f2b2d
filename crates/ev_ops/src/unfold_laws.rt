//! The laws of unfolding. Source: Butler and Maamria, Practical Theory Extension in Event-B.
ghost use Rattle.ev_ops.specs.UnfoldLaws.{UnfoldedIsPlain, PlainIsUnfolded, UnfoldedKeepsTypes, UnfoldedIsOverBase, BaseIsWellFormed, UnfoldedApplication, UnfoldedOfShift, UnfoldedOfSubstitution, UnfoldedOfInstance, UnfoldedOverWhole};

/// Unfolding leaves no direct operator, and changes nothing where there is none.
pub fn unfolded_is_plain()
    ensures plain { UnfoldedIsPlain }
    ensures unchanged { PlainIsUnfolded }
{}

/// It keeps types, also over the environment without definitions and conditions, which is well formed.
pub fn unfolded_keeps_types()
    ensures typed { UnfoldedKeepsTypes }
    ensures over_base { UnfoldedIsOverBase }
    ensures well_formed { BaseIsWellFormed }
{}

/// An application of a direct operator unfolds to its unfolded body with the types and the unfolded arguments put in.
pub fn unfolded_application()
    ensures { UnfoldedApplication }
{}

/// Unfolding commutes with shift, substitution and type instance.
pub fn unfolding_commutes()
    ensures shift { UnfoldedOfShift }
    ensures substitute { UnfoldedOfSubstitution }
    ensures instantiate { UnfoldedOfInstance }
{}

/// Over an environment of which that of the term is a part, a term unfolds as over the part.
pub fn wholes_keep_unfolding()
    ensures { UnfoldedOverWhole }
{}
