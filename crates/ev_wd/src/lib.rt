//! The well-definedness of terms. Source: Métayer and Voisin, The Event-B Mathematical Language; the simplification of conditions, and
//! those of destructors, are this project's own.
#![tactic(auto)]

pub mod condition_laws;
pub mod conditions;
mod drafts;
mod faults;
mod filled;
mod limits;
mod makers;
mod marks;
mod nodes;
mod occurs;
mod parts;
mod renaming;
mod rows;
mod sketches;
mod symbols;
mod type_nodes;

pub use condition_laws::{
    condition_is_typed, condition_of_shift, condition_of_substitution, condition_of_type_instance,
    wholes_keep_conditions,
};
pub use conditions::well_defined;
pub use faults::WdFault;
