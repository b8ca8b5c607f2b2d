//! What elaborated theories are.
ghost use Rattle.ev_elab.specs.TheoryLaws.{TheoryIsSound};

/// The theory that elaboration gives over a scope is typed and admitted, and its environment is sound. What a text gives by the grammar
/// and by its length stands as a premise.
pub fn theories_are_sound()
    ensures { TheoryIsSound }
{}
