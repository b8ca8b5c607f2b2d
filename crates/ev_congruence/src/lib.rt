//! Lines by derived rules, and congruence.
#![tactic(auto)]

pub mod adding;
mod forming;
pub mod known;
mod marks;
pub mod moves;
pub mod walking;
pub mod witnesses;

pub use adding::{added_lines, from_lines, from_none, from_one, from_two, limits_of_lines};
pub use forming::{equated_beside, filled, make_equation, with_goal};
pub use known::Derivation;
pub use moves::{
    Equation, instantiated, lengthened, modus_ponens, reflexivity, symmetry, transitivity, weakened,
};
pub use walking::{
    Application, Change, Pairs, congruence_at_child, congruence_beside, congruence_of, filled_terms,
};
pub use witnesses::{idle_for_all, idle_for_some, inhabited, witnessed};
