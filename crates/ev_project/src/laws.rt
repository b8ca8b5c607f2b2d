//! Laws of projects.
ghost use Rattle.ev_project.specs.Laws.{NextIsOrderly, NextIsKept, ProjectsAreOrderly, GraphsAreAcyclic, ReachedAreInOrder, ScopesAreReached, EnvsAreOfScopes, TheoriesAreSound, ScopesAreSound};

/// No event makes imports go in a circle, gives a theory two texts or a sequent's name two proofs. So the graph of imports has no
/// cycle, and the theories that a theory reaches stand in an order in which each stands behind all that it reaches.
pub fn project_laws()
    ensures orderly { NextIsOrderly }
    ensures kept { NextIsKept }
    ensures projects { ProjectsAreOrderly }
    ensures graphs { GraphsAreAcyclic }
    ensures reached { ReachedAreInOrder }
    ensures scopes { ScopesAreReached }
    ensures envs { EnvsAreOfScopes }
{}

/// Where elaboration over scopes gives sound theories, each theory of a project has a scope over which it may be elaborated, and is
/// sound where it has no fault.
pub fn scopes_are_sound()
    ensures { TheoriesAreSound → ScopesAreSound }
{}
