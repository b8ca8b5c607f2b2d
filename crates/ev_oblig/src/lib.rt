//! Proof obligations: what has to be proved of the elements of a theory. Source: Butler and Maamria, Practical Theory Extension in
//! Event-B, in outline; names, formulas and order are this project's own.
#![tactic(auto)]

mod cases;
mod faults;
mod lists;
mod makers;
pub mod making;
pub mod named;
mod occurs;
mod rules;

pub use faults::ObligFault;
pub use making::obligations;
pub use named::{Named, NamedList};
