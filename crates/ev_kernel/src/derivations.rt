//! The laws of derivations.
ghost use Rattle.ev_kernel.specs.Derivable.{LinesAreDerivable, DerivableHasDerivation, WholeKeepsDerivable};

/// The lines of derivations have the derivable sequents: each line's sequent is derivable, and each derivable sequent is that of the
/// last line of a derivation.
pub fn lines_are_derivable()
    ensures each { LinesAreDerivable }
    ensures all { DerivableHasDerivation }
{}

/// What is derivable over a part of an environment is derivable over the whole, where no name is declared twice.
pub fn wholes_keep_derivable()
    ensures { WholeKeepsDerivable }
{}
