//! The laws of places and of matching.
ghost use Rattle.ev_rewrite.specs.PlaceLaws.{PlacesAgree, ReplacedByItself, NewIsThere, NodesAreTyped, ReplacingKeepsTypes};
ghost use Rattle.ev_rewrite.specs.Instances.{MatchIsUnique};

/// A place is one of the tree for all three calls, and the new node stands there.
pub fn places_are_one()
    ensures agree { PlacesAgree }
    ensures itself { ReplacedByItself }
    ensures there { NewIsThere }
{}

/// Nodes of typed terms are typed where they stand, and nodes of the same type may take their places.
pub fn places_keep_types()
    ensures typed { NodesAreTyped }
    ensures kept { ReplacingKeepsTypes }
{}

/// An instance that matching finds, where each parameter and each variable occurs in the pattern, is the only one.
pub fn instances_are_unique()
    ensures { MatchIsUnique }
{}
