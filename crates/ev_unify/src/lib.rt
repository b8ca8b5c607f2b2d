//! Type patterns with unknowns, and the most general solution of pairs of them. Source: Robinson, A machine-oriented logic based on
//! the resolution principle; Huet, Résolution d'équations dans des langages d'ordre 1, 2, .., ω.
#![tactic(auto)]

mod cells;
mod classes;
pub mod patterns;
mod ranks;
mod solve;

pub use patterns::{Bind, Pat, PatPair, PatPairs, Pats, Solution, UnifyFault};
pub use solve::unify;
