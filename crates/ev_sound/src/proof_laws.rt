//! What a complete proof means.
ghost use Rattle.ev_sound.specs.Proofs.{StepsAreSound, CompleteIsSound};

/// Each step of a proof is sound, and a complete proof makes its sequent, unfolded, derivable.
pub fn proofs_are_sound()
    ensures steps { StepsAreSound }
    ensures complete { CompleteIsSound }
{}
