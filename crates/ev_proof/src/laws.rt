//! Laws of proofs.
ghost use Rattle.ev_proof.specs.StepLaws.{LineIsOneStep};

/// A line is one step at most.
pub fn step_laws()
    ensures { LineIsOneStep }
{}
