//! The laws of typing. Source: Métayer and Voisin, The Event-B Mathematical Language.
ghost use Rattle.ev_typing.specs.TypingLaws.{TypeIsUnique, ShiftKeepsTypes, InstKeepsTypes, SubstitutionKeepsTypes, FillKeepsTypes, InstanceKeepsTypes, WholeKeepsTypes, WholeKeepsProper, SignaturesAreProper};

/// A term has at most one type.
pub fn type_is_unique()
    ensures { TypeIsUnique }
{}

/// Shift, substitution and type instance keep types.
pub fn types_are_kept()
    ensures shift { ShiftKeepsTypes }
    ensures inst { InstKeepsTypes }
    ensures substitute { SubstitutionKeepsTypes }
    ensures arguments { FillKeepsTypes }
    ensures instantiate { InstanceKeepsTypes }
{}

/// What is typed over a part of an environment is typed over the whole, where no name is declared twice.
pub fn wholes_keep_types()
    ensures typed { WholeKeepsTypes }
    ensures proper { WholeKeepsProper }
{}

/// What is asked of each entry is enough for the types of all signatures to be proper.
pub fn signatures_are_proper()
    ensures { SignaturesAreProper }
{}
