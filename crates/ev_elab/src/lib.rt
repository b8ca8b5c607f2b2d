//! Elaboration: the elements of a theory text with their formulas, over the theories that it reaches. Source: Butler and Maamria,
//! Practical Theory Extension in Event-B, in outline.
#![tactic(auto)]

mod bound;
pub mod elaboration;
mod faults;
pub mod heads;
mod numbers;
pub mod readings;
mod tables;
mod taken;
pub mod theories;
mod theory_laws;
mod unknown;

pub use elaboration::{elaborate, scope_env};
pub use faults::ElabFault;
pub use theories::{Kind, Reached, ReachedList, Scope, Theory, TheorySequent, TheorySequents};
pub use theory_laws::theories_are_sound;
