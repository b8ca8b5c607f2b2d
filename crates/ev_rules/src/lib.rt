//! The elements of theories: definitions, axioms, theorems and rules. Source: Butler and Maamria, Practical Theory Extension in
//! Event-B.
#![tactic(auto)]

pub mod elements;
pub mod occurring;
pub mod params;

pub use elements::{Branch, Branches, Element, Elements, InferenceRule, RewriteRule};
pub use occurring::params_of;
pub use params::element_params;
