//! What follows by the base rules, and what a complete proof means: its sequent, unfolded, follows by them. Source: Butler and Maamria,
//! Practical Theory Extension in Event-B.
#![tactic(auto)]

pub mod logic_laws;
pub mod proof_laws;
mod status_laws;

pub use logic_laws::{congruence_at_places, congruence_of_bodies, derived_rules, equality};
pub use proof_laws::proofs_are_sound;
pub use status_laws::statuses_are_sound;
