//! Rewriting: places in terms and the matching of patterns. Source: Butler and Maamria, Practical Theory Extension in Event-B.
#![tactic(auto)]

mod lowering;
pub mod matching;
pub mod places;
pub mod rewriting_laws;
mod slots;
mod type_matching;

pub use matching::{Inst, match_pattern};
pub use places::{node_at, path_types, replace_at};
pub use rewriting_laws::{instances_are_unique, places_are_one, places_keep_types};
