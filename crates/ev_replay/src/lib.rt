//! Proof steps and the replay of proofs: what a step does to a goal, and how a proof ends. Source: Butler and Maamria, Practical Theory
//! Extension in Event-B, in outline; the steps are this project's own.
#![tactic(auto)]

mod applying;
mod by_formula;
mod equality;
mod labels;
mod propositional;
mod quantifiers;
mod reading;
mod replaying;
pub mod scopes;
mod sequents;
pub mod steps;

pub use applying::apply;
pub use labels::cites;
pub use replaying::replay;
pub use scopes::{CiteElement, CiteElements, CiteScope, Scope};
pub use steps::{Applied, Outcome};
