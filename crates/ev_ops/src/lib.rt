//! Operators: which are admitted, their unfolding, and the environments that elements make. Source: Butler and Maamria, Practical
//! Theory Extension in Event-B.
#![tactic(auto)]

pub mod admission;
pub mod cases;
pub mod entries;
mod faults;
mod guards;
pub mod kept_bodies;
pub mod kept_weights;
pub mod unfold_laws;
pub mod unfolding;
pub mod weights;

pub use admission::{admit_direct, admit_recursive};
pub use cases::{Case, Cases};
pub use entries::{add_element, entry_by, entry_of, env_of};
pub use faults::OpFault;
pub use kept_bodies::Bodies;
pub use kept_weights::OperatorWeights;
pub use unfold_laws::{
    unfolded_application, unfolded_is_plain, unfolded_keeps_types, unfolding_commutes,
    wholes_keep_unfolding,
};
pub use unfolding::{unfold, unfold_sequent, unfolded_extent};
pub use weights::{Weight, Weights};
