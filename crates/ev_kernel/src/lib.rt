//! The base rules and derivability by them.
#![tactic(auto)]

mod calculations;
mod contexts;
mod declarations;
pub mod derivations;
mod equality;
mod instances;
mod numbers;
mod propositional;
mod quantifiers;
pub mod rules;

pub use derivations::{lines_are_derivable, wholes_keep_derivable};
pub use rules::{BaseRule, Line, Lines, concludes, infers};
