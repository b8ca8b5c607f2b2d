//! Projects: theories with their imports and deployment, stored proofs, and the status of each sequent. Source: Butler and Maamria,
//! Practical Theory Extension in Event-B, in outline; statuses, refusals and texts are this project's own.
#![tactic(auto)]

mod events;
mod expansion;
mod laws;
mod printing;
mod projects;
mod questions;
mod replies;
mod statuses;

pub use laws::{project_laws, scopes_are_sound};
pub use printing::{refusal_text, seq_text, status_words};
pub use projects::{Project, StoredProof, Target, Targets, TheoryText};
pub use replies::{Cause, Reply};
pub use statuses::Status;
