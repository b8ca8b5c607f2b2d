//! Proofs as they are written: one step on each line. Source of the rules: Gentzen, Untersuchungen über das logische Schließen; Butler
//! and Maamria, Practical Theory Extension in Event-B. The notation of steps is this project's own.
#![tactic(auto)]

mod cites;
mod laws;
mod numbers;
mod reading;
mod step_reader;
pub mod steps;
mod words;

pub use laws::step_laws;
pub use reading::read_steps;
pub use steps::{Cite, Ref, Refs, Step, StepLines};
