//! Inference: the annotations of a raw tree are the solutions of its type equations, and the only one is given, or why there is none
//! to give. Source: Métayer and Voisin, The Event-B Mathematical Language; Butler and Maamria, Practical Theory Extension in Event-B.
#![tactic(auto)]

mod alone;
pub mod annotation;
mod bulks;
mod contexts;
mod emission;
pub mod faults;
mod filling;
mod inference;
pub mod laws;
mod marked;
mod patterns;
mod solving;
pub mod sorts;
mod unknowns;

pub use annotation::{Equations, annotate};
pub use faults::InferFault;
pub use inference::infer;
pub use laws::{answer_laws, inference_laws};
