//! What the status `proved` means.
ghost use Rattle.ev_project.specs.Laws.{TheoriesAreSound};
ghost use Rattle.ev_sound.specs.Headline.{ProvedIsDerivable};

/// Where the status of a sequent of a project is `proved`, its unfolded goal is derivable by the base rules over the environment of its
/// scope without definitions and conditions. That elaborated theories are sound is asked.
pub fn statuses_are_sound()
    ensures { TheoriesAreSound → ProvedIsDerivable }
{}
