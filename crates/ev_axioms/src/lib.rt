//! The axioms of the base logic. Source: Métayer and Voisin, The Event-B Mathematical Language, in outline; the table is this project's
//! own.
#![tactic(auto)]

pub mod axioms;
mod building;
mod faults;
mod finite_rows;
mod logic_rows;
mod number_rows;
mod relation_rows;
mod rows;
mod steps;
mod type_args;
mod undoing;

pub use axioms::{AXIOM_COUNT, Axioms, axiom, axioms_are_closed, is_axiom};
pub use faults::AxiomFault;
