//! The laws of datatypes.
ghost use Rattle.ev_data.specs.DataLaws.{DestructorsAreTyped, DistinctnessIsTyped, RecursionIsTyped, RecursiveIsOwn, PremisesAreBase};
ghost use Rattle.ev_data.specs.Sound.{BaseIsSound, BaseOfBase};

/// A constructor's argument is recursive exactly where its type is the datatype at its own parameters.
#[tactic(auto, using(crate::proofs::RecursiveLaw::recursive_is_own))]
pub fn recursive_is_own()
    ensures { RecursiveIsOwn }
{}

/// The formulas of destructors, of distinctness and of recursion are predicates without variables and without direct operators.
pub fn formulas_are_closed()
    ensures destructors { DestructorsAreTyped }
    ensures distinctness { DistinctnessIsTyped }
    ensures recursion { RecursionIsTyped }
{}

/// The premises of induction for a base sequent are base sequents.
#[tactic(auto, using(crate::proofs::Premises::premises_are_base))]
pub fn premises_are_base()
    ensures { PremisesAreBase }
{}

/// Without direct operators and conditions a sound environment is sound too, and a part of it is a part of the whole so.
pub fn bases_are_sound()
    ensures sound { BaseIsSound }
    ensures part { BaseOfBase }
{}
