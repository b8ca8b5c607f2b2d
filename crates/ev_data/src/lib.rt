//! Datatypes: which are admitted, their closed formulas and induction. Source: Butler and Maamria, Practical Theory Extension in
//! Event-B, in outline; the formulas are this project's own.
#![tactic(auto)]

pub mod admission;
pub mod data_laws;
pub mod equations;
mod faults;
pub mod induction;
pub mod look_ups;
pub mod parts;

pub use admission::admit;
pub use data_laws::{bases_are_sound, formulas_are_closed, premises_are_base, recursive_is_own};
pub use equations::{
    destructor_equation, distinctness, equation, has_destructor_equation, has_distinctness,
    has_equation,
};
pub use faults::DataFault;
pub use induction::induction_premises;
pub use look_ups::{constructor, inductive_argument};
pub use parts::{is_recursive, make_for_all, make_own_types, make_vars};
